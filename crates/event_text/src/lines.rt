ghost use Rattle.event_text.specs.Files.{CutLine};

use fields::place_of;

// The first line of a file, without the byte 10 that ends it, and what follows;
// none where nothing is left. A byte 10 that is the very last byte opens no further line.
pub fn cut_line<'a>(bytes: &'a [u8]) -> Option<(&'a [u8], &'a [u8])>
    ensures { CutLine bytes.now result }
{
    if bytes.is_empty() {
        return None;
    }
    let end = place_of(bytes, b'\n');
    Some((&bytes[..end], bytes.get(end + 1..).unwrap_or(b"")))
}
