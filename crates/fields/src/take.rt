ghost use Rattle.std.specs.Prelude.{◌≡◌};
ghost use Rattle.fields.specs.Tokens.{shown, field_at};

use crate::cut::part_at;
use crate::field::{Cut, Field};
use crate::numbers::is_number;
use field_names::Name;

// The field of a wanted name that begins at a place of the line, or none where
// another text stands there.
pub fn field_at<'a>(line: &'a [u8], at: usize, wanted: Name) -> Option<Field<'a>>
    ensures { shown result ≡ field_at line.now at wanted }
{
    let part = part_at(line, at);
    let value = wanted.after(part)?;
    let name = &part[..part.len() - value.len()];
    let cut = Cut { name, value, at };
    if is_number(value) {
        Some(Field::Number(cut))
    } else {
        Some(Field::Word(cut))
    }
}
