// A driver's story on one core: the camera and the divert arm share a frame
// buffer. Each opens it, waits, claims it, works and closes it. Output that fails
// is passed over: no hold is let go for it.

#![tactic(auto)]

ghost use Rattle.std.specs.Prelude.{◌≡◌, ℕ, true};
ghost use Rattle.jobs.specs.declared.state.TaskState.TheVariants.{Idle};
ghost use Rattle.kernel.specs.Views.{facts_of, state_of};

use driver::{Hold, Ticket, Unclosed, claim, close, lay_down, open};
use first_come::FirstCome;
use gate::Gate;
use gated_line::gated_line;
use kernel::{Facts, Kernel, start};
use keys::Deadline;
use runs::Refusal;

// The kernel of this program: the buffer is served first come, first served behind
// the gate, and urgency is a deadline.
type BufferKernel = Kernel<Gate<FirstCome>, Deadline>;

// The tasks, and the resource that they share.
const CAMERA: u32 = 0;

const ARM: u32 = 1;

const BUFFER: u32 = 0;

// A task as people call it. The kernel tells tasks by number, also as the next
// holder, so an enum would need a way back from each number.
fn name(task: u32) -> &'static str {
    match task {
        CAMERA => "the camera",
        _ => "the arm",
    }
}

// Says what came of a call of the kernel that tells nothing else. The runtime, the
// kernel and the task stay parameters here and below: a struct of them would be
// borrowed twice where the answer told is that of a call of its own kernel.
fn tell(rt: HostRuntime, task: u32, act: &str, answer: Result<(), Refusal>) {
    let who = name(task);
    match answer {
        Ok(()) => {
            let _ = println!(rt; "{who} {act}");
        }
        Err(why) => {
            let _ = println!(rt; "{who} {act}: refused with {}", why.number());
        }
    }
}

// A tick in which the task works on the buffer, if it runs.
fn work(rt: HostRuntime, kernel: &mut BufferKernel, task: u32) {
    tell(rt, task, "works for a tick", kernel.tick());
}

// Asks for the buffer: a ticket, unless the kernel refuses.
fn open_buffer(rt: HostRuntime, kernel: &mut BufferKernel, task: u32) -> Option<Ticket> {
    let who = name(task);
    match open(kernel, task, BUFFER) {
        Ok(ticket) => {
            let _ = println!(rt; "{who} opens the buffer and has a ticket");
            Some(ticket)
        }
        Err(why) => {
            let _ = println!(rt; "{who} opens the buffer: refused with {}", why.number());
            None
        }
    }
}

// Claims the buffer: a hold, or the ticket again.
fn claim_buffer(
    rt: HostRuntime,
    kernel: &BufferKernel,
    task: u32,
    ticket: Ticket,
) -> Result<Hold, Ticket> {
    let who = name(task);
    match claim(kernel, ticket) {
        Ok(hold) => {
            let _ = println!(rt; "{who} claims the buffer and has a hold");
            Ok(hold)
        }
        Err(unclaimed) => {
            let _ = println!(rt;
                "{who} claims the buffer: refused with {}",
                unclaimed.why.number()
            );
            Err(unclaimed.ticket)
        }
    }
}

// Closes a hold; what the kernel refuses to release is handed back.
fn close_buffer(rt: HostRuntime, kernel: &mut BufferKernel, task: u32, hold: Hold) -> Option<Hold> {
    let who = name(task);
    match close(kernel, hold) {
        Ok(Some(next)) => {
            let heir = name(next);
            let _ = println!(rt; "{who} closes its hold, and {heir} holds the buffer");
            None
        }
        Ok(None) => {
            let _ = println!(rt; "{who} closes its hold, and the buffer is free");
            None
        }
        Err(Unclosed::Ended) => {
            let _ = println!(rt; "{who} closes its hold: refused with 13, the hold is over");
            None
        }
        Err(Unclosed::Kept(live, why)) => {
            let number = why.number();
            let _ = println!(rt;
                "{who} closes its hold: refused with {number}, it is still to be closed"
            );
            Some(live)
        }
    }
}

// Opens the buffer and claims it at once.
fn take_buffer(
    rt: HostRuntime,
    kernel: &mut BufferKernel,
    task: u32,
) -> Option<Result<Hold, Ticket>> {
    let ticket = open_buffer(rt, kernel, task)?;
    Some(claim_buffer(rt, kernel, task, ticket))
}

// Whoever has only a ticket claims once more; a ticket that is refused again is
// laid down.
fn claim_again(
    rt: HostRuntime,
    kernel: &BufferKernel,
    task: u32,
    had: Option<Result<Hold, Ticket>>,
) -> Option<Hold> {
    match had?.or_else(|ticket| claim_buffer(rt, kernel, task, ticket)) {
        Ok(hold) => Some(hold),
        Err(ticket) => {
            let _ = lay_down(kernel, ticket);
            None
        }
    }
}

// Claims by an older ticket, if there is one.
fn try_old(rt: HostRuntime, kernel: &BufferKernel, old: Option<Ticket>) -> Option<Hold> {
    let ticket = old?;
    let _ = println!(rt; "the camera tries its first ticket");
    claim_again(rt, kernel, CAMERA, Some(Err(ticket)))
}

// Closes the hold, if there is one.
fn close_held(
    rt: HostRuntime,
    kernel: &mut BufferKernel,
    task: u32,
    held: Option<Hold>,
) -> Option<Hold> {
    close_buffer(rt, kernel, task, held?)
}

// Whose holds could not be closed: two owners, and so two flags.
#[derive(Debug, Drop)]
struct Left {
    camera: bool,
    arm: bool,
}

// A kernel on one core, for the camera and the arm, with no job.
fn idle_kernel() -> BufferKernel
    ensures quiet { (t : ℕ) → ((state_of result).jobs.state t ≡ Idle) }
    ensures checked { (facts_of result).checked ≡ true }
{
    let facts = Facts {
        cores: 1,
        tasks: 2,
        resources: 1,
    };
    start(facts, gated_line(1), Deadline)
}

// The program ends with a hold that could not be closed: in a kernel with no job
// it is outdated, so closing it there ends it. The three arms show that no live hold
// is let go.
fn lose(hold: Hold) {
    let mut idle = idle_kernel();
    match close(&mut idle, hold) {
        Ok(_) => {}
        Err(Unclosed::Ended) => {}
        Err(Unclosed::Kept(_, _)) => {}
    }
}

// Whether there was a hold, which is lost.
fn lost(held: Option<Hold>) -> bool {
    held.map(lose).is_some()
}

// Whose holds are left, and lost.
fn what_is_left(camera: Option<Hold>, arm: Option<Hold>) -> Left {
    Left {
        camera: lost(camera),
        arm: lost(arm),
    }
}

// Nothing may be left at the end.
fn at_end(camera: Option<Hold>, arm: Option<Hold>) -> Result<(), Left> {
    match (camera, arm) {
        (None, None) => Ok(()),
        (camera, arm) => Err(what_is_left(camera, arm)),
    }
}

// The arm, which is more urgent, asks for what the camera holds. It has to wait
// and keeps its ticket; once the camera has closed, the ticket becomes a hold.
fn contention(rt: HostRuntime, kernel: &mut BufferKernel) -> Result<(), Left> {
    tell(
        rt,
        CAMERA,
        "arrives, due in 90 ticks",
        kernel.arrive(CAMERA, 90),
    );
    let camera = take_buffer(rt, kernel, CAMERA);
    let camera = claim_again(rt, kernel, CAMERA, camera);
    tell(rt, ARM, "arrives, due in 10 ticks", kernel.arrive(ARM, 10));
    let arm = take_buffer(rt, kernel, ARM);
    work(rt, kernel, CAMERA);
    let camera = close_held(rt, kernel, CAMERA, camera);
    let arm = claim_again(rt, kernel, ARM, arm);
    work(rt, kernel, ARM);
    let arm = close_held(rt, kernel, ARM, arm);
    tell(rt, ARM, "finishes", kernel.finish(ARM));
    at_end(camera, arm)
}

// The camera opens twice, so that its first ticket is outdated. Then the arm takes
// the core: the camera's hold is not closed before the arm has finished.
fn old_ticket_and_late_close(rt: HostRuntime, kernel: &mut BufferKernel) -> Result<(), Left> {
    let old = open_buffer(rt, kernel, CAMERA);
    tell(
        rt,
        CAMERA,
        "releases by itself",
        kernel.release(CAMERA).map(|_| ()),
    );
    let new = take_buffer(rt, kernel, CAMERA);
    let camera = claim_again(rt, kernel, CAMERA, new);
    let older = try_old(rt, kernel, old);
    tell(rt, ARM, "arrives, due in 10 ticks", kernel.arrive(ARM, 10));
    let camera = close_held(rt, kernel, CAMERA, camera);
    tell(rt, ARM, "finishes", kernel.finish(ARM));
    let camera = close_held(rt, kernel, CAMERA, camera);
    tell(rt, CAMERA, "finishes", kernel.finish(CAMERA));
    at_end(camera, older)
}

// The camera's job ends before its ticket is claimed: the next job of the task has
// no use for it.
fn ticket_of_a_job_that_is_over(rt: HostRuntime, kernel: &mut BufferKernel) -> Result<(), Left> {
    tell(
        rt,
        CAMERA,
        "arrives, due in 90 ticks",
        kernel.arrive(CAMERA, 90),
    );
    let old = open_buffer(rt, kernel, CAMERA);
    tell(
        rt,
        CAMERA,
        "releases by itself",
        kernel.release(CAMERA).map(|_| ()),
    );
    tell(rt, CAMERA, "finishes", kernel.finish(CAMERA));
    tell(rt, CAMERA, "arrives anew", kernel.arrive(CAMERA, 90));
    let older = try_old(rt, kernel, old);
    at_end(older, None)
}

fn main(rt: HostRuntime) -> Result<(), Left> {
    let mut kernel = idle_kernel();
    let _ = println!(rt;
        "Refused with 6: it waits; 7: it does not run; 13: the ticket or hold is outdated."
    );
    contention(rt, &mut kernel)?;
    let _ = println!(rt; "");
    old_ticket_and_late_close(rt, &mut kernel)?;
    let _ = println!(rt; "");
    ticket_of_a_job_that_is_over(rt, &mut kernel)
}
