use std::alloc::{AllocError, Global};

// How a file is built: a text, and then a part so many times.
#[derive(Clone, Copy)]
pub struct Case {
    pub name: &'static str,
    head: &'static str,
    part: &'static [u8],
    times: u32,
}

pub(crate) fn of_part(
    name: &'static str,
    head: &'static str,
    part: &'static [u8],
    times: u32,
) -> Case {
    Case {
        name,
        head,
        part,
        times,
    }
}

// The bytes of a case.
pub(crate) fn built(heap: Global, case: Case) -> Result<Vec<u8>, AllocError> {
    let mut bytes = Vec::new(heap);
    bytes.extend_from_slice(case.head.as_bytes())?;
    for _ in 0..case.times {
        bytes.extend_from_slice(case.part)?;
    }
    Ok(bytes)
}
