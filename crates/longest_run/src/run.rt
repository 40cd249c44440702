ghost use Rattle.std.specs.Prelude.{◌≡◌, ◌*◌, ◌<◌, ◌≤◌, true};
ghost use Rattle.longest.specs.Longest.{turn as turn_of, entries, longest_calls};
ghost use Rattle.longest_run.specs.Reached.{Went, Rounded, Reached};

use first_come::FirstCome;
use gate::Gate;
use gated_line::gated_line;
use kernel::{Facts, Kernel, start};
use keys::KeyKind;
use longest::longest_wait_stands;
use runs::{Call, guarantee_stands};

// A number of cores, from 1 to 16.
#[derive(Clone, Copy)]
struct Cores {
    number: u32,
    ghost some: { 1 ≤ number },
    ghost few: { number ≤ 16 },
}

impl Cores {
    // The i-th task, from 0: tasks m to 2m - 1 come first, and then tasks 0 to
    // m - 1, where m is the number of cores.
    fn turn(self, i: u32) -> u32
        requires { i < 2 * self.number }
        ensures { result ≡ turn_of self.number i }
    {
        let m = self.number;
        if i < m { m + i } else { i - m }
    }
}

// All 2m tasks arrive and request resource 0, one after the other.
fn enter_all<K: KeyKind>(
    kernel: &mut Kernel<Gate<FirstCome>, K>,
    declared: K::Declared,
    cores: Cores,
)
    ensures { Went K.KeyKind kernel.old (entries cores.number declared (2 * cores.number)) kernel.new }
{
    for i in 0..2 * cores.number {
        let task = cores.turn(i);
        let _ = kernel.handle(Call::Arrive(task, declared));
        let _ = kernel.handle(Call::Request(task, 0));
    }
}

// So many times there is a tick, and the next task releases.
fn release_in_turn<K: KeyKind>(kernel: &mut Kernel<Gate<FirstCome>, K>, cores: Cores, times: u32)
    requires { times ≤ 2 * cores.number }
    ensures { Rounded K.KeyKind kernel.old cores.number times kernel.new }
{
    for j in 0..times {
        let task = cores.turn(j);
        let _ = kernel.handle(Call::Tick);
        let _ = kernel.handle(Call::Release(task));
    }
}

// Makes all the calls of the longest wait.
fn make_calls<K: KeyKind>(
    kernel: &mut Kernel<Gate<FirstCome>, K>,
    declared: K::Declared,
    cores: Cores,
)
    ensures { Went K.KeyKind kernel.old (longest_calls cores.number declared) kernel.new }
{
    enter_all(kernel, declared, cores);
    release_in_turn(kernel, cores, 2 * cores.number - 1);
}

// A kernel over the gate over first-come that has run the longest wait, where
// every task declares the same. At its end the task cores - 1 holds resource 0,
// after 2 × cores - 1 blocked ticks, as many as it was told, and no hold was
// longer than a tick. This is for 1 to 16 cores, at least twice as many tasks, up
// to 64, and 1 to 32 resources; with other numbers the kernel is left at its start.
pub fn longest_wait<K: KeyKind>(
    kind: K,
    declared: K::Declared,
    cores: u32,
    tasks: u32,
    resources: u32,
) -> Kernel<Gate<FirstCome>, K>
    ensures reached { 1 ≤ cores → cores ≤ 16 → 2 * cores ≤ tasks → tasks ≤ 64 → 1 ≤ resources → resources ≤ 32 → K.KeyKind.ranged declared ≡ true → Reached K.KeyKind cores tasks resources declared result }
{
    guarantee_stands::<Gate<FirstCome>, K>();
    longest_wait_stands::<K>();
    let facts = Facts {
        cores,
        tasks,
        resources,
    };
    let mut kernel = start(facts, gated_line(cores), kind);
    // `contains` was tried: the goal of the early return stays open.
    if cores < 1
        || cores > 16
        || tasks < 2 * cores
        || tasks > 64
        || resources < 1
        || resources > 32
    {
        return kernel;
    }
    make_calls(&mut kernel, declared, Cores { number: cores });
    kernel
}
