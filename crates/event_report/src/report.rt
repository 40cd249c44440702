use event_text::TextFault;
use runs::{Refusal, Unfit};

// Why a file, its header or one of its lines is refused.
#[derive(Clone, Copy, Debug, PartialEq, Eq)]
pub enum Reason {
    // The file has more than 65,536 bytes.
    LongFile,
    Text(TextFault),
    Check(Unfit),
    Call(Refusal),
}

// Which part refused.
#[derive(Clone, Copy, Debug, PartialEq, Eq)]
pub enum Layer {
    Text,
    Check,
    Kernel,
    Order,
}

// What was wrong with a line of the file. The header is line 1.
#[derive(Clone, Copy, Debug, PartialEq, Eq)]
pub struct Fault {
    pub line: u64,
    pub why: Reason,
}

// What a file comes to: the text to write, and what was wrong with it.
#[derive(Drop)]
pub struct Report {
    pub output: String,
    pub faults: Vec<Fault>,
}

// What is said of one line after the header: the count that is told, or why the
// line is refused.
#[derive(Clone, Copy, Debug, PartialEq, Eq)]
pub struct Row {
    pub said: Result<u32, Reason>,
}
