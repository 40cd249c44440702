ghost use Rattle.std.specs.Prelude.{◌≡◌, ◌<◌, ◌≤◌, MatchOption};

// A number below N: a task's or a resource's.
#[derive(Clone, Copy, Debug, PartialEq, Eq)]
pub struct Number<const N: u32> {
    number: u32,
    ghost below: { number < N },
}

// The number of a task: there are 64.
pub type TaskNo = Number<64>;

// The number of a resource: there are 32.
pub type ResourceNo = Number<32>;

impl<const N: u32> Number<N> {
    // The number itself, if there is such a task or resource. An option, since an error
    // of `TryFrom` would say nothing more.
    pub fn new(n: u32) -> Option<Number<N>>
        ensures { MatchOption result (N ≤ n) (λ it. it.number ≡ n) }
    {
        if n < N {
            Some(Number { number: n })
        } else {
            None
        }
    }

    pub fn get(self) -> u32
        ensures { result ≡ self.entry.number }
    {
        self.number
    }
}
