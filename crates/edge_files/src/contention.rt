use std::alloc::{AllocError, Global};

// The task arrives, and at once requests resource 0.
fn add_claim(text: &mut String, task: u32) -> Result<(), AllocError> {
    write!(
        text,
        "\nev=arrive task={task} due=100\nev=request task={task} res=0"
    )
}

// A tick passes; then the task releases the resource and finishes. Like `add_claim`,
// but for its text, which has to stand in the macro.
fn add_turn(text: &mut String, task: u32) -> Result<(), AllocError> {
    write!(
        text,
        "\nev=tick\nev=release task={task}\nev=finish task={task}"
    )
}

// A header, and then 64 tasks that want one resource, the later the more urgent.
// Each has its turn: those from `split` on in the order in which they came, then
// the others by rank.
pub(crate) fn contention(heap: Global, header: &str, split: u32) -> Result<String, AllocError> {
    let mut text = String::from_str(heap, header)?;
    for task in (0..64u32).rev() {
        add_claim(&mut text, task)?;
    }
    for task in (split..64).rev() {
        add_turn(&mut text, task)?;
    }
    for task in 0..split {
        add_turn(&mut text, task)?;
    }
    Ok(text)
}
