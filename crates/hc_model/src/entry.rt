ghost use Rattle.std.specs.Prelude.{◌≡◌};

use crate::Spot;
use hc_base::{NoMemory, Text};

/// A line of a configuration whose includes stand at their places and whose variables are replaced
/// (Apache manual, core, Include and Define).
#[derive(Drop)]
pub struct Entry {
    pub spot: Spot,
    pub form: EntryForm,
    /// The name of the directive or of the section.
    pub name: Text,
    /// What follows the name: of a directive as it stands, of an opening up to its last `>`.
    pub rest: Text,
}

/// What a line is (Apache manual, "Configuration Sections").
#[derive(Clone, Copy, PartialEq, Eq)]
pub enum EntryForm {
    Directive,
    Opening,
    Close,
}

impl Clone for Entry {
    ghost is_clone = { λ entry copy. copy ≡ entry };

    fn clone(&self) -> Result<Entry, NoMemory> {
        Ok(Entry {
            spot: self.spot.clone()?,
            form: self.form,
            name: self.name.clone()?,
            rest: self.rest.clone()?,
        })
    }
}
