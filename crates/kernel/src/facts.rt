ghost use Rattle.std.specs.Prelude.{◌≤◌};

// What a kernel is to be made of.
#[derive(Clone, Copy, Debug, PartialEq, Eq)]
pub struct Facts {
    pub cores: u32,
    pub tasks: u32,
    pub resources: u32,
}

// How many tasks and resources a kernel has.
#[derive(Clone, Copy)]
pub struct Limits {
    pub(crate) tasks: u32,
    pub(crate) resources: u32,
    ghost few: { tasks ≤ 64 },
    ghost small: { resources ≤ 32 },
}
