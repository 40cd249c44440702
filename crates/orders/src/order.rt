ghost use Rattle.std.specs.Prelude.{◌≡◌, ℕ, Bool, ◌&&◌, Err as Error, Option as Opt, Result as Res};
ghost use Rattle.orders.specs.declared.refusal.OrderRefusal.{OrderRefusal as Refusal};
ghost use Rattle.orders.specs.Orders.{means, Rules, Admits, Passes, asked};

use crate::refusal::OrderRefusal;

// An order of service. What it means is said by ghost members: for each resource
// who is queued, who holds it, and of each queued task its code, the count of
// holds ahead of it, and whether it is covered (so many queued tasks are ahead
// of it that its wait costs nothing). The laws hold of every value.
pub trait Order {
    // How many cores it serves.
    ghost width: { Self → ℕ };

    // How many tasks may be queued for one resource.
    ghost places: { Self → ℕ };

    // No count is above it.
    ghost reach: { Self → ℕ };

    // Whether a task is queued for a resource (resource, task).
    ghost queue: { Self → ℕ → ℕ → Bool };

    // Who holds a resource.
    ghost holder: { Self → ℕ → Opt ℕ };

    // With which code a queued task was admitted (resource, task).
    ghost code: { Self → ℕ → ℕ → ℕ };

    // How many holds a queued task still has ahead of it at most (resource, task).
    ghost count: { Self → ℕ → ℕ → ℕ };

    // Whether a queued task is covered (resource, task).
    ghost covered: { Self → ℕ → ℕ → Bool };

    // What a call of `admit` answers and leaves: before, resource, task, code, answer, after.
    ghost admitted: { Self → ℕ → ℕ → ℕ → Res (Unit {0}) Refusal → Self → Type 0 };

    // What a call of `pass` answers and leaves: before, resource, answer, after.
    ghost passed: { Self → ℕ → Res (Opt ℕ) Refusal → Self → Type 0 };

    fn width(&self) -> u32
        ensures { result ≡ width self.now };

    fn places(&self) -> u32
        ensures { result ≡ places self.now };

    fn reach(&self) -> u32
        ensures { result ≡ reach self.now };

    // The holder of a resource, or none.
    fn holder(&self, resource: u32) -> Option<u32>
        ensures { result ≡ holder self.now resource };

    // Whether a task is queued for a resource. Callers have the two as numbers, so a
    // type for the pair would be made only to be taken apart.
    fn queued(&self, resource: u32, task: u32) -> bool
        ensures { result ≡ queue self.now resource task };

    // The code of a queued task, or none.
    fn code(&self, resource: u32, task: u32) -> Option<u64>
        ensures { result ≡ asked (queue self.now resource task) (code self.now resource task) };

    // The count of a queued task, or none. A count of 0 does not mean that the
    // task holds: ask for the holder.
    fn count(&self, resource: u32, task: u32) -> Option<u32>
        ensures { result ≡ asked (queue self.now resource task) (count self.now resource task) };

    // Whether a task is queued for a resource and covered.
    fn covered(&self, resource: u32, task: u32) -> bool
        ensures { result ≡ (queue self.now resource task && covered self.now resource task) };

    // Queues a task for a resource, with the code of its key as its urgency, or refuses.
    fn admit(&mut self, resource: u32, task: u32, urgency: u64) -> Result<(), OrderRefusal>
        ensures { admitted self.old resource task urgency result self.new };

    // The holder of a resource leaves; answers the next holder, if any, or refuses.
    fn pass(&mut self, resource: u32) -> Result<Option<u32>, OrderRefusal>
        ensures { passed self.old resource result self.new };

    // The rules that speak of one moment. A law sees the members above it and not what
    // packs them (`meaning` is told of the whole trait), so it writes them out.
    ghost rules: { (s : Self) → Rules (means (width s) (places s) (reach s) (queue s) (holder s) (code s) (count s) (covered s)) };

    // What an admission answers and leaves, in the words of the meaning.
    ghost admitting: { (s : Self) (r t c : ℕ) (a : Res (Unit {0}) Refusal) (z : Self) → admitted s r t c a z → Admits (means (width s) (places s) (reach s) (queue s) (holder s) (code s) (count s) (covered s)) r t c a (means (width z) (places z) (reach z) (queue z) (holder z) (code z) (count z) (covered z)) };

    // What a pass answers and leaves, in the words of the meaning.
    ghost passing: { (s : Self) (r : ℕ) (a : Res (Opt ℕ) Refusal) (z : Self) → passed s r a z → Passes (means (width s) (places s) (reach s) (queue s) (holder s) (code s) (count s) (covered s)) r a (means (width z) (places z) (reach z) (queue z) (holder z) (code z) (count z) (covered z)) };

    // A refused admission leaves the very same value.
    ghost unadmitted: { (s : Self) (r t c : ℕ) (e : Refusal) (z : Self) → admitted s r t c (Error e) z → z ≡ s };

    // A refused pass leaves the very same value.
    ghost unpassed: { (s : Self) (r : ℕ) (e : Refusal) (z : Self) → passed s r (Error e) z → z ≡ s };
}
