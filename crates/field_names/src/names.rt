ghost use Rattle.std.specs.Prelude.{◌≡◌};
ghost use Rattle.field_names.specs.Names.{name_text, after, bare};
ghost use Rattle.field_names.specs.Patterns.{after_at};

use crate::name::Name;

impl Name {
    // What follows the name and its `=`, where the part begins with them.
    pub fn after<'a>(self, part: &'a [u8]) -> Option<&'a [u8]>
        ensures { bare result ≡ after (name_text self) part.now }
    {
        self.matched(part)
    }

    // Each name has a pattern of its own: its bytes, then whatever follows.
    fn matched<'a>(self, part: &'a [u8]) -> Option<&'a [u8]>
        ensures { bare result ≡ after_at (name_text self) part.now }
    {
        match self {
            Name::Cores => match part {
                [b'c', b'o', b'r', b'e', b's', b'=', rest @ ..] => Some(rest),
                _ => None,
            },
            Name::Tasks => match part {
                [b't', b'a', b's', b'k', b's', b'=', rest @ ..] => Some(rest),
                _ => None,
            },
            Name::Resources => match part {
                [
                    b'r',
                    b'e',
                    b's',
                    b'o',
                    b'u',
                    b'r',
                    b'c',
                    b'e',
                    b's',
                    b'=',
                    rest @ ..,
                ] => Some(rest),
                _ => None,
            },
            Name::Order => match part {
                [b'o', b'r', b'd', b'e', b'r', b'=', rest @ ..] => Some(rest),
                _ => None,
            },
            Name::Key => match part {
                [b'k', b'e', b'y', b'=', rest @ ..] => Some(rest),
                _ => None,
            },
            Name::Event => match part {
                [b'e', b'v', b'=', rest @ ..] => Some(rest),
                _ => None,
            },
            Name::Task => match part {
                [b't', b'a', b's', b'k', b'=', rest @ ..] => Some(rest),
                _ => None,
            },
            Name::Due => match part {
                [b'd', b'u', b'e', b'=', rest @ ..] => Some(rest),
                _ => None,
            },
            Name::Band => match part {
                [b'b', b'a', b'n', b'd', b'=', rest @ ..] => Some(rest),
                _ => None,
            },
            Name::Level => match part {
                [b'l', b'e', b'v', b'e', b'l', b'=', rest @ ..] => Some(rest),
                _ => None,
            },
            Name::Resource => match part {
                [b'r', b'e', b's', b'=', rest @ ..] => Some(rest),
                _ => None,
            },
        }
    }
}
