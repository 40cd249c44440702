ghost use Rattle.std.specs.Prelude.{◌≡◌, ◌+◌, ◌≤◌, length, nat_lt};
ghost use Rattle.event_text.specs.declared.form.Wanted.TheVariants.{Number as NumberOf, Word as WordOf};
ghost use Rattle.event_text.specs.Grammar.{OrElse, form_read};
ghost use Rattle.event_text.specs.Places.{next_place, found_at, found_next};

use crate::fault::TextFault;
use crate::form::{Found, Wanted};
use field_names::Name;
use fields::{Cut, Field, Word, field_at, number};

// A field begins past the space that ends the one before it.
fn next_place(line: &[u8], cut: Cut) -> Option<usize>
    requires { cut.at + length cut.name.now + length cut.value.now ≤ length line.now }
    ensures { result ≡ next_place line.now (cut.entry.at + length cut.entry.name.now + length cut.entry.value.now) }
{
    let end = cut.at + cut.name.len() + cut.value.len();
    (end < line.len()).then_some(end + 1)
}

// The number field of a name at a place, if it is there.
fn read_number(line: &[u8], place: usize, wanted: Name) -> Option<Found>
    ensures { result ≡ found_at (NumberOf wanted) line.now place }
{
    match field_at(line, place, wanted)? {
        Field::Number(cut) => Some(Found {
            number: number(cut.value),
            next: next_place(line, cut),
        }),
        Field::Word(_) => None,
    }
}

// The field of a name with one word at a place, if it is there. It looks at the value,
// where a number field takes it.
fn read_word(line: &[u8], place: usize, wanted: Name, word: Word) -> Option<Found>
    ensures { result ≡ found_at (WordOf wanted word) line.now place }
{
    match field_at(line, place, wanted)? {
        Field::Word(cut) if word.is(cut.value) => Some(Found {
            number: Some(0),
            next: next_place(line, cut),
        }),
        _ => None,
    }
}

// The wanted field, where a field follows and it is that one.
fn read_next(line: &[u8], next: Option<usize>, wanted: Wanted) -> Option<Found>
    ensures { result ≡ found_next wanted line.now next }
{
    let place = next?;
    match wanted {
        Wanted::Number(name) => read_number(line, place, name),
        Wanted::Word(name, word) => read_word(line, place, name, word),
    }
}

// The numbers of a line of a form, each at the place of its field in the form; a
// word has 0. A number that does not fit is a fault only if the whole line is
// of the form, so the other fields are looked at first.
pub(crate) fn read_form<const N: usize>(
    line: &[u8],
    form: [Wanted; N],
) -> Result<[u32; N], TextFault>
    ensures { result ≡ form_read form.entry line.now }
{
    let mut found = [None; N];
    let mut next = Some(0);
    // `iter_mut().zip(..)` was tried for both loops: the check leaves `N * 8 < 2^63` open, and
    // knows nothing of what the slots hold after the loop. `try_map` in place of the second
    // leaves the goal of the result open.
    for (i, wanted) in form.iter().enumerate() {
        let field = read_next(line, next, *wanted).ok_or(TextFault::NoForm)?;
        found[i] = field.number;
        next = field.next;
    }
    if next.is_some() {
        return Err(TextFault::NoForm);
    }
    let mut numbers = [0; N];
    for (i, number) in found.iter().enumerate() {
        numbers[i] = number.ok_or(TextFault::BadNumber)?;
    }
    Ok(numbers)
}

// A line has at most 80 bytes; the byte 10 that ends it is none of them.
pub(crate) fn is_too_long(line: &[u8]) -> bool
    ensures { result ≡ nat_lt 80 (length line.now) }
{
    line.len() > 80
}

// What a line gives as one form or, where it is not of that form, as another.
pub(crate) fn or_else<A: Copy, F: FnOnce() -> Result<A, TextFault>>(
    read: Result<A, TextFault>,
    other: F,
) -> Result<A, TextFault>
    requires { F.pre other }
    ensures { OrElse read (F.post other) result }
{
    match read {
        Err(TextFault::NoForm) => other(),
        _ => read,
    }
}
