ghost use Rattle.std.specs.Prelude.{◌≡◌};
ghost use Rattle.orders.specs.Counting.{ahead};

// Where a queued task stands among the others: the smaller code is ahead, and of
// equal codes the smaller task number. The order of the fields is that of the rank.
#[derive(Clone, Copy, Debug, PartialEq, Eq, PartialOrd, Ord)]
pub struct Rank {
    pub code: u64,
    pub task: u32,
}

impl Rank {
    // Whether this rank is ahead of the other.
    pub fn is_ahead_of(self, other: Rank) -> bool
        ensures { result ≡ ahead self.code self.task other.code other.task }
    {
        self < other
    }
}
