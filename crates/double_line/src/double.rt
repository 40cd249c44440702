use first_come::FirstCome;

// A line of tasks for each resource, as first-come keeps it.
#[derive(Drop)]
pub struct DoubleLine {
    pub(crate) line: FirstCome,
}
