// Trial runs of the kernel: a sample with two tasks, the longest wait for every
// number of cores and both kinds of key, and the same kernel over another order
// of service.

#![tactic(auto)]

ghost use Rattle.std.specs.Prelude.{◌≤◌};

use double_line::DoubleLine;
use first_come::FirstCome;
use gate::Gate;
use gated_line::gated_line;
use jobs::power_sum;
use kernel::{Facts, Kernel, start};
use keys::{BandLevel, Deadline, Fixed, KeyKind};
use longest_run::longest_wait;
use orders::Order;
use runs::{Accepted, Call, Refusal};
use std::io;

// Says which event a call of a kernel with deadline keys stands for.
fn tell_event(rt: HostRuntime, call: Call<u32>) -> io::Result<()> {
    match call {
        Call::Arrive(task, due) => print!(rt; "task {task} arrives, due in {due} ticks"),
        Call::Request(task, resource) => print!(rt; "task {task} requests resource {resource}"),
        Call::Release(task) => print!(rt; "task {task} releases what it holds"),
        Call::Finish(task) => print!(rt; "task {task} finishes its job"),
        Call::Tick => print!(rt; "a tick passes"),
    }
}

// 0 for an accepted event, else the refusal's number; and the count told, 0 where none is.
fn numbers(answer: Result<Accepted, Refusal>) -> (u32, u32) {
    answer.map_or_else(|why| (why.number(), 0), |accepted| (0, accepted.told))
}

// The running tasks, as the sum of 2^task. The event files have this line for
// themselves: a crate for it below both would be no plainer.
fn running_sum<O: Order>(kernel: &Kernel<O, Deadline>) -> u64 {
    kernel.running().map_or(0, |set| power_sum(set))
}

// Hands one event to the kernel, and says what came of it.
fn play<O: Order>(
    rt: HostRuntime,
    kernel: &mut Kernel<O, Deadline>,
    call: Call<u32>,
) -> io::Result<()> {
    let (number, told) = numbers(kernel.handle(call));
    let running = running_sum(kernel);
    print!(rt; "  answer {number}, running {running}, told {told}: ")?;
    tell_event(rt, call)?;
    println!(rt; "")
}

// Says how a task stands, and of its latest wait the numbers and the figure.
fn tell_task<O: Order>(rt: HostRuntime, kernel: &Kernel<O, Deadline>, task: u32) -> io::Result<()> {
    let Some(record) = kernel.task_record(task) else {
        return println!(rt; "  there is no task {task}");
    };
    let Some(wait) = kernel.latest_wait(task) else {
        return println!(rt; "  there is no task {task}");
    };
    let state = record.state;
    let blocked = wait.blocked;
    let told = wait.told;
    let longest = wait.longest;
    let figure = wait.figure;
    println!(rt;
        "  task {task} is {state}; latest wait: blocked ticks {blocked}, at most {told} x {longest} = {figure}"
    )
}

// Says the longest hold of a resource.
fn tell_resource<O: Order>(
    rt: HostRuntime,
    kernel: &Kernel<O, Deadline>,
    resource: u32,
) -> io::Result<()> {
    let Some(record) = kernel.resource_record(resource) else {
        return println!(rt; "  there is no resource {resource}");
    };
    let longest = record.longest;
    println!(rt; "  longest hold of resource {resource}: {longest}")
}

// Says how to read what is printed of an event.
fn tell_columns(rt: HostRuntime) -> io::Result<()> {
    println!(rt; "Answer: 0 if the event was accepted, else the number of the refusal.")?;
    println!(rt; "Running: the sum of 2^task over the tasks that run after it.")?;
    println!(rt; "Told: at a request, how many holds of others may count against it; else 0.")
}

// The sample: the less urgent task 0 holds what the more urgent task 1 wants.
fn sample(rt: HostRuntime) -> io::Result<()> {
    println!(rt; "Sample: 1 core, 2 tasks, 1 resource; gate over first-come, deadline keys.")?;
    tell_columns(rt)?;
    let facts = Facts {
        cores: 1,
        tasks: 2,
        resources: 1,
    };
    let mut kernel = start(facts, gated_line(1), Deadline);
    for call in [
        Call::Arrive(0, 90),
        Call::Request(0, 0),
        Call::Arrive(1, 10),
        Call::Request(1, 0),
        Call::Tick,
        Call::Release(0),
        Call::Finish(1),
    ] {
        play(rt, &mut kernel, call)?;
    }
    tell_task(rt, &kernel, 0)?;
    tell_task(rt, &kernel, 1)?;
    tell_resource(rt, &kernel, 0)
}

// One line on a task's latest wait.
fn tell_longest<K: KeyKind>(
    rt: HostRuntime,
    kernel: &Kernel<Gate<FirstCome>, K>,
    task: u32,
) -> io::Result<()> {
    let Some(wait) = kernel.latest_wait(task) else {
        return println!(rt; "there is no task {task}");
    };
    let blocked = wait.blocked;
    let told = wait.told;
    let longest = wait.longest;
    let figure = wait.figure;
    println!(rt; "blocked {blocked:>2}, told {told:>2}, longest {longest}, figure {figure:>2}")
}

// The longest wait with so many cores, which is that of task cores - 1, with both
// kinds of key.
fn longest_with(rt: HostRuntime, cores: u32) -> io::Result<()>
    requires { (1 ≤ cores) × (cores ≤ 16) }
{
    let by_deadline = longest_wait(Deadline, 100, cores, 2 * cores, 1);
    print!(rt; "  cores {cores:>2}, deadline keys: ")?;
    tell_longest(rt, &by_deadline, cores - 1)?;
    let normal = BandLevel { band: 1, level: 7 };
    let by_band = longest_wait(Fixed, normal, cores, 2 * cores, 1);
    print!(rt; "  cores {cores:>2}, fixed keys:    ")?;
    tell_longest(rt, &by_band, cores - 1)
}

// The longest wait, for every number of cores.
fn longest_waits(rt: HostRuntime) -> io::Result<()> {
    println!(rt;
        "Longest wait behind the gate over first-come, with twice as many tasks as cores."
    )?;
    println!(rt; "The blocked ticks reach the figure, told x longest, which is 2 x cores - 1.")?;
    for cores in 1..=16 {
        longest_with(rt, cores)?;
    }
    Ok(())
}

// Four tasks ask for one resource, the later the more urgent.
fn everybody_asks<O: Order>(rt: HostRuntime, kernel: &mut Kernel<O, Deadline>) -> io::Result<()> {
    for (task, due) in [(0, 90), (1, 50), (2, 40), (3, 10)] {
        play(rt, kernel, Call::Arrive(task, due))?;
        play(rt, kernel, Call::Request(task, 0))?;
    }
    Ok(())
}

// Ticks pass, and two of them release in turn.
fn some_release<O: Order>(rt: HostRuntime, kernel: &mut Kernel<O, Deadline>) -> io::Result<()> {
    for call in [
        Call::Tick,
        Call::Tick,
        Call::Release(0),
        Call::Tick,
        Call::Release(1),
        Call::Tick,
    ] {
        play(rt, kernel, call)?;
    }
    Ok(())
}

// A run with contention, and what it leaves.
fn contend<O: Order>(rt: HostRuntime, kernel: &mut Kernel<O, Deadline>) -> io::Result<()> {
    everybody_asks(rt, kernel)?;
    some_release(rt, kernel)?;
    for task in 0..4 {
        tell_task(rt, kernel, task)?;
    }
    tell_resource(rt, kernel, 0)
}

// The same kernel over the order for tests, which tells twice the place in line.
fn over_test_order(rt: HostRuntime) -> io::Result<()> {
    let facts = Facts {
        cores: 2,
        tasks: 4,
        resources: 1,
    };
    println!(rt;
        "Another order: a line that tells twice the place; 2 cores, 4 tasks, 1 resource."
    )?;
    let mut line = start(facts, DoubleLine::new(2, 64), Deadline);
    contend(rt, &mut line)?;
    println!(rt; "")?;
    println!(rt; "The same with a gate before that line, which then has 2 places.")?;
    let mut gated = start(facts, Gate::new(DoubleLine::new(2, 2)), Deadline);
    contend(rt, &mut gated)
}

fn main(rt: HostRuntime) -> io::Result<()> {
    sample(rt)?;
    println!(rt; "")?;
    longest_waits(rt)?;
    println!(rt; "")?;
    over_test_order(rt)
}
