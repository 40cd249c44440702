ghost use Rattle.std.specs.Prelude.{ℕ};
ghost use Rattle.jobs.specs.Jobs.{Jobs, Formed, RunningSet};

// What a reader may doubt of the definitions: where no resource has two holders,
// the effective ranks of ready or holding jobs all differ, as many of these jobs
// run as there are cores or jobs, none of the others ranks before one that runs,
// and a pending job with fewer pending jobs ahead than cores runs or waits for a
// holder that runs.
pub fn running_set_stands()
    ensures { (j : Jobs) (m : ℕ) → Formed j → RunningSet j m }
{}
