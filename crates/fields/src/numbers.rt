ghost use Rattle.std.specs.Prelude.{◌≡◌};
ghost use Rattle.fields.specs.Numbers.{is_number, leads_zero, number_of};

// A number is one or more digits.
pub(crate) fn is_number(text: &[u8]) -> bool
    ensures { result ≡ is_number text.now }
{
    !text.is_empty() && text.iter().all(|byte| byte.is_ascii_digit())
}

// `0` itself does not lead with a zero.
fn leads_with_zero(text: &[u8]) -> bool
    ensures { result ≡ leads_zero text.now }
{
    matches!(text, [b'0', _, ..])
}

// The number that a text of digits writes, or none where it leads with a zero or
// is above 4,294,967,295. (`parse` takes a `str`, with a sign or zeros before it, so
// the bytes would be looked at first all the same.)
pub fn number(text: &[u8]) -> Option<u32>
    ensures { result ≡ number_of text.now }
{
    if !is_number(text) || leads_with_zero(text) {
        return None;
    }
    let mut value = 0u32;
    for byte in text {
        let longer = u64::from(value) * 10 + u64::from(*byte - b'0');
        value = u32::try_from(longer).ok()?;
    }
    Some(value)
}
