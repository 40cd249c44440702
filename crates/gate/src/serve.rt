ghost use Rattle.std.specs.Prelude.{◌≡◌, ℕ, ◌+◌, ◌*◌, ◌≤◌, false, not, ◌&&◌, if◌then◌else◌, ◌==◌, IfSome, option_map, refl};
ghost use Rattle.orders.specs.Orders.{asked, size};
ghost use Rattle.orders.specs.Services.{meaning};
ghost use Rattle.orders.specs.Bounds.{lawful};
ghost use Rattle.orders.specs.Gating.{fit, idle, inside, against, delay as Delay, behind};
ghost use Rattle.gate.specs.Gates.{marked, noted, ranked, fresh_rows, Best, gate_meaning, in_gate, GateAdmitted, GatePassed};
ghost use Rattle.gate.specs.Gatelaws.{gate_rules, gate_admits, gate_passes};

use crate::gate::Gate;
use crate::row::Row;
use orders::{Order, OrderRefusal, Rank, nobody_queued};

impl<L: Order> Gate<L> {
    // A gate before `lower`. It is open where `lower` has nobody queued, a width
    // from 1 to 16, as many places, and a reach such that the gate's fits 16 bits.
    pub fn new(lower: L) -> Gate<L>
        ensures lower { result.lower ≡ lower }
        ensures fresh { result.fresh ≡ idle (meaning L.Order lower) }
        ensures rows { result.rows ≡ fresh_rows }
        ensures width { (gate_meaning L.Order result).width ≡ L.Order.width lower }
        ensures places { (gate_meaning L.Order result).places ≡ (if idle (meaning L.Order lower) && fit (meaning L.Order lower) then 64 else 0) }
        ensures reach { (gate_meaning L.Order result).reach ≡ (if idle (meaning L.Order lower) && fit (meaning L.Order lower) then 2 * L.Order.reach lower + 1 else 0) }
        ensures empty { (r t : ℕ) → (gate_meaning L.Order result).queued r t ≡ false }
    {
        Gate {
            fresh: nobody_queued(&lower),
            lower,
            rows: [Row::empty(); 32],
        }
    }

    // Whether the gate is open; a closed one refuses everybody and shows nobody.
    pub fn is_open(&self) -> bool
        ensures { result ≡ (self.now.fresh && fit (meaning L.Order self.now.lower)) }
    {
        let m = self.lower.width();
        self.fresh
            && (1..=16).contains(&m)
            && self.lower.places() == m
            && self.lower.reach() <= 32767
    }

    // Whether a task waits in the gate for a resource, and not below.
    pub fn in_gate(&self, resource: u32, task: u32) -> bool
        ensures { result ≡ in_gate L.Order self.now resource task }
    {
        self.is_open() && self.waiting(resource, task).is_some()
    }

    // How many are queued below for a resource: one look at each task.
    fn size(&self, resource: u32) -> u32
        ensures { result ≡ size (meaning L.Order self.now.lower) resource }
    {
        (0..64u32)
            .filter(|t| self.lower.queued(resource, *t))
            .count() as u32
    }

    // Whether as many as the width are queued below.
    fn is_full(&self, resource: u32) -> bool
        ensures { result ≡ (size (meaning L.Order self.now.lower) resource == L.Order.width self.now.lower) }
    {
        self.size(resource) == self.lower.width()
    }

    // The rank of a task that is queued below, or none.
    fn below(&self, resource: u32, task: u32) -> Option<Rank>
        ensures { result ≡ asked (L.Order.queue self.now.lower resource task) (ranked (L.Order.code self.now.lower resource task) task) }
    {
        self.lower
            .code(resource, task)
            .map(|code| Rank { code, task })
    }

    // What one task below adds to the wait of a task of the gate: its count + 1,
    // or nothing if it is not queued or is ahead.
    fn delay_by(&self, resource: u32, rank: Rank, rival: u32) -> Option<u32>
        ensures { result ≡ asked (against (meaning L.Order self.now.lower) resource rank.code rank.task rival) (L.Order.count self.now.lower resource rival + 1) }
    {
        let other = self.below(resource, rival)?;
        if other.is_ahead_of(rank) {
            return None;
        }
        let n = self.lower.count(resource, rival)?;
        Some(n + 1)
    }

    // The largest such number over all tasks below, or 0.
    fn delay(&self, resource: u32, rank: Rank) -> u32
        ensures told { result ≡ Delay (meaning L.Order self.now.lower) resource rank.code rank.task }
        ensures few { result ≤ L.Order.reach self.now.lower + 1 }
    {
        (0..64u32)
            .filter_map(|u| self.delay_by(resource, rank, u))
            .max()
            .unwrap_or(0)
    }

    // Whether everybody below is ahead.
    fn is_behind(&self, resource: u32, rank: Rank) -> bool
        ensures { result ≡ behind (meaning L.Order self.now.lower) resource rank.code rank.task }
    {
        (0..64u32).all(|u| {
            self.below(resource, u)
                .is_none_or(|rival| rival.is_ahead_of(rank))
        })
    }

    // The code that the row of a resource has for a task, if it has one.
    fn noted(&self, resource: u32, task: u32) -> Option<u64>
        ensures { result ≡ asked (marked self.now.rows resource task) (noted self.now.rows resource task) }
    {
        self.rows.get(resource as usize)?.code(task)
    }

    // The rank of a task that is in the row of a resource, and not queued below.
    fn outside(&self, resource: u32, task: u32) -> Option<Rank>
        ensures { result ≡ asked (marked self.now.rows resource task && not (L.Order.queue self.now.lower resource task)) (ranked (noted self.now.rows resource task) task) }
    {
        let code = self.noted(resource, task)?;
        if self.lower.queued(resource, task) {
            return None;
        }
        Some(Rank { code, task })
    }

    // The rank of a task that waits in the gate: such a task, where the order below is full.
    fn waiting(&self, resource: u32, task: u32) -> Option<Rank>
        ensures { result ≡ asked (inside (meaning L.Order self.now.lower) (marked self.now.rows) resource task) (ranked (noted self.now.rows resource task) task) }
    {
        self.outside(resource, task)
            .filter(|_| self.is_full(resource))
    }

    // The best rank in the gate: one look at each task.
    fn best(&self, resource: u32) -> Option<Rank>
        ensures task { Best (meaning L.Order self.now.lower) self.now.rows resource 64 (option_map (λ k. k.task) result) }
        ensures code { IfSome result (λ k. k.code ≡ noted self.now.rows resource k.task) }
    {
        if !self.is_full(resource) {
            return None;
        }
        (0..64u32).filter_map(|t| self.outside(resource, t)).min()
    }
}

impl<L: Order> Order for Gate<L> {
    ghost width = { λ s. (gate_meaning L.Order s).width };

    ghost places = { λ s. (gate_meaning L.Order s).places };

    ghost reach = { λ s. (gate_meaning L.Order s).reach };

    ghost queue = { λ s. (gate_meaning L.Order s).queued };

    ghost holder = { λ s. (gate_meaning L.Order s).holder };

    ghost code = { λ s. (gate_meaning L.Order s).code };

    ghost count = { λ s. (gate_meaning L.Order s).count };

    ghost covered = { λ s. (gate_meaning L.Order s).covered };

    ghost admitted = { GateAdmitted L.Order };

    ghost passed = { GatePassed L.Order };

    ghost rules = { gate_rules _ (lawful L.Order) };

    ghost admitting = { gate_admits _ (lawful L.Order) };

    ghost passing = { gate_passes _ (lawful L.Order) };

    ghost unadmitted = { λ s r t c e z h. h.refused e refl };

    ghost unpassed = { λ s r e z h. h.refused e refl };

    fn width(&self) -> u32 {
        self.lower.width()
    }

    fn places(&self) -> u32 {
        if self.is_open() { 64 } else { 0 }
    }

    fn reach(&self) -> u32 {
        if self.is_open() {
            2 * self.lower.reach() + 1
        } else {
            0
        }
    }

    fn holder(&self, resource: u32) -> Option<u32> {
        if self.is_open() {
            self.lower.holder(resource)
        } else {
            None
        }
    }

    fn queued(&self, resource: u32, task: u32) -> bool {
        self.is_open()
            && (self.lower.queued(resource, task) || self.waiting(resource, task).is_some())
    }

    fn code(&self, resource: u32, task: u32) -> Option<u64> {
        if !self.is_open() {
            return None;
        }
        self.lower
            .code(resource, task)
            .or_else(|| self.waiting(resource, task).map(|rank| rank.code))
    }

    fn count(&self, resource: u32, task: u32) -> Option<u32> {
        if !self.is_open() {
            return None;
        }
        if self.lower.queued(resource, task) {
            return self.lower.count(resource, task);
        }
        let rank = self.waiting(resource, task)?;
        Some(self.delay(resource, rank) + self.lower.reach())
    }

    fn covered(&self, resource: u32, task: u32) -> bool {
        self.is_open()
            && self
                .waiting(resource, task)
                .is_some_and(|rank| self.is_behind(resource, rank))
    }

    fn admit(&mut self, resource: u32, task: u32, urgency: u64) -> Result<(), OrderRefusal> {
        if resource >= 32 || task >= 64 {
            return Err(OrderRefusal::Unknown);
        }
        if self.queued(resource, task) {
            return Err(OrderRefusal::Queued);
        }
        if !self.is_open() {
            return Err(OrderRefusal::Full);
        }
        if self.is_full(resource) {
            self.rows[resource as usize].put(task, Some(urgency));
            return Ok(());
        }
        // Nobody waits in the gate here; what the row still has marked counts no more.
        self.rows[resource as usize].clear();
        self.lower.admit(resource, task, urgency)
    }

    fn pass(&mut self, resource: u32) -> Result<Option<u32>, OrderRefusal> {
        if resource >= 32 {
            return Err(OrderRefusal::Unknown);
        }
        let first = self.holder(resource).ok_or(OrderRefusal::Empty)?;
        let best = self.best(resource);
        // There is a holder below, so this pass is never refused.
        let _ = self.lower.pass(resource);
        self.rows[resource as usize].put(first, None);
        let Some(next) = best else {
            return Ok(self.holder(resource));
        };
        self.rows[resource as usize].put(next.task, None);
        // The pass left a place below for the next, so nor is this refused.
        let _ = self.lower.admit(resource, next.task, next.code);
        Ok(self.holder(resource))
    }
}
