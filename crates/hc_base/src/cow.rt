ghost use Rattle.std.specs.Prelude.{◌≡◌};

use std::alloc::Global;
use std::borrow;
use std::marker::Model;

/// A text that is lent, or owned where it had to be made.
#[derive(Drop)]
pub struct CowStr<'t> {
    text: borrow::CowStr<'t, Global>,
}

impl<'t> Model for CowStr<'t> {
    ghost use Rattle.std.specs.Prelude.{ℕ, List};
    ghost use Rattle.hc_base.specs.Cow.{bytes_of_cow};

    ghost Value = { List ℕ };

    ghost view = { λ c. bytes_of_cow c.text };
}

impl<'t> CowStr<'t> {
    pub fn as_str(&self) -> &str
        ensures { result.now ≡ self.now }
    {
        match &self.text {
            borrow::CowStr::Borrowed(text) => text,
            borrow::CowStr::Owned(text) => text,
        }
    }
}

impl<'t> From<&'t str> for CowStr<'t> {
    ghost from_gives = { λ s c. c ≡ s.now };

    fn from(text: &'t str) -> CowStr<'t> {
        CowStr {
            text: borrow::CowStr::Borrowed(text),
        }
    }
}

impl<'t> From<String> for CowStr<'t> {
    ghost use Rattle.std.specs.Prelude.{◌≡◌, string_bytes};

    ghost from_gives = { λ s c. c ≡ string_bytes s };

    fn from(text: String) -> CowStr<'t> {
        CowStr {
            text: borrow::CowStr::Owned(text),
        }
    }
}
