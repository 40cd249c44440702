ghost use Rattle.std.specs.Prelude.{◌≡◌, false, slice_index_or};
ghost use Rattle.jobs.specs.Powers.{powers};

// The sum of 2^task over the tasks of a set.
pub fn power_sum(set: [bool; 64]) -> u64
    ensures { result ≡ powers (λ t. slice_index_or set t false) 64 }
{
    let mut sum = 0;
    for (task, member) in set.iter().enumerate() {
        if *member {
            sum += 1 << task;
        }
    }
    sum
}
