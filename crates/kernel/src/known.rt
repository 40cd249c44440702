ghost use Rattle.std.specs.Prelude.{◌≡◌, ◌<◌, ◌≤◌, MatchResult, Some as Given, None as Nothing};
ghost use Rattle.kernel.specs.Views.{facts_of, no_task, no_resource};

use crate::kernel::Kernel;
use jobs::{Number, ResourceNo, TaskNo};
use keys::KeyKind;
use orders::Order;
use runs::Refusal;

// The number as one of so many, or the refusal.
fn among<const N: u32>(count: u32, number: u32, why: Refusal) -> Result<Number<N>, Refusal>
    requires { count ≤ N }
    ensures { MatchResult result (λ it. (number < count) × (it.number ≡ number)) (λ e. (count ≤ number) × (e ≡ why)) }
{
    // `filter` was tried here: the check reads nothing off its generic closure.
    if number < count {
        Number::new(number).ok_or(why)
    } else {
        Err(why)
    }
}

impl<O: Order, K: KeyKind> Kernel<O, K> {
    // The task of that number: refused where the kernel is unchecked, or has no such task.
    pub(crate) fn task(&self, number: u32) -> Result<TaskNo, Refusal>
        ensures { MatchResult result (λ it. (no_task (facts_of self.now) it.number ≡ Nothing) × (it.number ≡ number)) (λ e. no_task (facts_of self.now) number ≡ Given e) }
    {
        let limits = self.limits.ok_or(Refusal::Unchecked)?;
        among(limits.tasks, number, Refusal::NoSuchTask)
    }

    // The resource of that number: refused where the kernel is unchecked, or has no
    // such resource. What it shares with tasks is `among`.
    pub(crate) fn resource(&self, number: u32) -> Result<ResourceNo, Refusal>
        ensures { MatchResult result (λ it. (no_resource (facts_of self.now) number ≡ Nothing) × (it.number ≡ number)) (λ e. no_resource (facts_of self.now) number ≡ Given e) }
    {
        let limits = self.limits.ok_or(Refusal::Unchecked)?;
        among(limits.resources, number, Refusal::NoSuchResource)
    }
}
