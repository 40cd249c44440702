// Which order of service a header asks for: first-come alone, or the gate over it.
#[derive(Clone, Copy, Debug, PartialEq, Eq)]
pub enum OrderWord {
    Fifo,
    Gate,
}

// Which kind of key a header asks for.
#[derive(Clone, Copy, Debug, PartialEq, Eq)]
pub enum KeyWord {
    Deadline,
    Fixed,
}

// What the first line of an event file says.
#[derive(Clone, Copy, Debug, PartialEq, Eq)]
pub struct Header {
    pub cores: u32,
    pub tasks: u32,
    pub resources: u32,
    pub order: OrderWord,
    pub key: KeyWord,
}
