ghost use Rattle.std.specs.Prelude.{◌≡◌};
ghost use Rattle.event_text.specs.Headers.{order_word, key_word, header_as, header_with, header_of};

use crate::fault::TextFault;
use crate::form::Wanted;
use crate::heading::{Header, KeyWord, OrderWord};
use crate::read::{is_too_long, or_else, read_form};
use field_names::Name;
use fields::Word;

impl From<OrderWord> for Word {
    ghost from_gives = { λ order word. word ≡ order_word order };

    fn from(order: OrderWord) -> Word {
        match order {
            OrderWord::Fifo => Word::Fifo,
            OrderWord::Gate => Word::Gate,
        }
    }
}

// Each kind of word is an enum of its own, so each has its table.
impl From<KeyWord> for Word {
    ghost from_gives = { λ key word. word ≡ key_word key };

    fn from(key: KeyWord) -> Word {
        match key {
            KeyWord::Deadline => Word::Deadline,
            KeyWord::Fixed => Word::Fixed,
        }
    }
}

// The line as a header with these two words.
fn header_as(line: &[u8], order: OrderWord, key: KeyWord) -> Result<Header, TextFault>
    ensures { result ≡ header_as order key line.now }
{
    let form = [
        Wanted::Number(Name::Cores),
        Wanted::Number(Name::Tasks),
        Wanted::Number(Name::Resources),
        Wanted::Word(Name::Order, order.into()),
        Wanted::Word(Name::Key, key.into()),
    ];
    let [cores, tasks, resources, _, _] = read_form(line, form)?;
    Ok(Header {
        cores,
        tasks,
        resources,
        order,
        key,
    })
}

// The line as a header with this order, and either kind of key.
fn header_with(line: &[u8], order: OrderWord) -> Result<Header, TextFault>
    ensures { result ≡ header_with order line.now }
{
    or_else(header_as(line, order, KeyWord::Deadline), || {
        header_as(line, order, KeyWord::Fixed)
    })
}

// The header that a line writes, or why not.
pub fn read_header(line: &[u8]) -> Result<Header, TextFault>
    ensures { result ≡ header_of line.now }
{
    if is_too_long(line) {
        return Err(TextFault::TooLong);
    }
    or_else(
        header_with(line, OrderWord::Fifo),
        || header_with(line, OrderWord::Gate),
    )
}
