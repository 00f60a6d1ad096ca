ghost use Rattle.std.specs.Prelude.{◌≡◌, IfOk};

use hc_base::{NoMemory, Text};
use std::alloc::Global;
use std::marker::Model;

/// A text that is UTF-8.
#[derive(Drop)]
pub struct Utf8 {
    text: String,
}

impl Model for Utf8 {
    ghost use Rattle.std.specs.Prelude.{ℕ, List, string_bytes};

    ghost Value = { List ℕ };

    ghost view = { λ t. string_bytes t.text };
}

impl Utf8 {
    pub fn copy_of(alloc: Global, text: &str) -> Result<Utf8, NoMemory>
        ensures { IfOk result (λ copy. copy ≡ text.now) }
    {
        Ok(Utf8 {
            text: String::from_str(alloc, text)?,
        })
    }

    pub fn as_str(&self) -> &str
        ensures { result.now ≡ self.now }
    {
        self.text.as_str()
    }
}

impl From<String> for Utf8 {
    ghost use Rattle.std.specs.Prelude.{◌≡◌, string_bytes};

    ghost from_gives = { λ s t. t ≡ string_bytes s };

    fn from(text: String) -> Utf8 {
        Utf8 { text }
    }
}

/// A name or a value of a configuration that was read, which is UTF-8; bytes that are none find no
/// memory.
pub(crate) fn as_utf8(text: &Text) -> Result<&str, NoMemory>
    ensures { IfOk result (λ utf8. utf8.now ≡ text.now) }
{
    match std::str::from_utf8(text.as_bytes()) {
        Ok(utf8) => Ok(utf8),
        Err(_) => Err(NoMemory),
    }
}
