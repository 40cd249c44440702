ghost use Rattle.std.specs.Prelude.{◌≡◌, ℕ, ◌^◌, ◌<◌, Bool, true, if◌then◌else◌, Some as Given, None as Nothing};

// A kind of key. The key of a job is made when it arrives, of what is declared
// for its task and the tick; it stays until the job finishes. The code is a
// number that stands for the key: the smaller, the more urgent.
pub trait KeyKind {
    // What is declared for a task.
    type Declared: Copy;

    type Key;

    // Which declarations are in range.
    ghost ranged: { Self.Declared → Bool };

    // The key of a declaration at an arrival tick.
    ghost key: { Self.Declared → ℕ → Self.Key };

    // Which key is ahead of which.
    ghost ahead: { Self.Key → Self.Key → Type 0 };

    // The code of a key.
    ghost code: { Self.Key → ℕ };

    // The code of a job that arrives at a tick, or none where the declaration is out of range.
    fn code_at(declared: Self::Declared, arrival: u32) -> Option<u64>
        ensures { result ≡ (if ranged declared then Given (code (key declared arrival)) else Nothing) };

    // Some declaration is in range.
    ghost some: { (d : Self.Declared) × (ranged d ≡ true) };

    // In range and at any 32-bit tick, the code is below 2^40.
    ghost bounded: { (d : Self.Declared) (n : ℕ) → ranged d ≡ true → n < 2 ^ 32 → code (key d n) < 2 ^ 40 };

    // The key that is ahead has the smaller code ..
    ghost smaller: { (d e : Self.Declared) (n k : ℕ) → ranged d ≡ true → ranged e ≡ true → ahead (key d n) (key e k) → code (key d n) < code (key e k) };

    // .. and the key with the smaller code is ahead.
    ghost earlier: { (d e : Self.Declared) (n k : ℕ) → ranged d ≡ true → ranged e ≡ true → code (key d n) < code (key e k) → ahead (key d n) (key e k) };
}
