ghost use Rattle.std.specs.Prelude.{◌≡◌, ◌≤◌, length, drop};
ghost use Rattle.fields.specs.Cutting.{before, first_part};

// How many bytes stand before the first such byte, or before the end.
pub fn place_of(bytes: &[u8], byte: u8) -> usize
    ensures place { result ≡ before byte bytes.now }
    ensures within { result ≤ length bytes.now }
{
    bytes.iter().position(|b| *b == byte).unwrap_or(bytes.len())
}

// The part of a line that begins at a place, up to the next space or the end.
pub(crate) fn part_at<'a>(line: &'a [u8], at: usize) -> &'a [u8]
    ensures { result.now ≡ first_part (drop at line.now) }
{
    let rest = line.get(at..).unwrap_or(b"");
    &rest[..place_of(rest, b' ')]
}
