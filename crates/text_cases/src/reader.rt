// What a line is read as.
#[derive(Clone, Copy, Debug, PartialEq, Eq)]
pub enum Reader {
    Header,
    Deadline,
    Fixed,
}
