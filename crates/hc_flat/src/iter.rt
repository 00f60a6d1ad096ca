ghost use Rattle.std.specs.Prelude.{◌≡◌};
ghost use Rattle.hc_flat.specs.Lent.{left};

use crate::entries::{Entries, EntryView};

/// The entries of a list from a place on, each lent in its turn.
#[derive(Clone, Copy)]
pub struct Iter<'e> {
    entries: &'e Entries,
    at: usize,
}

impl Entries {
    /// The entries, each lent in its turn.
    pub fn iter(&self) -> Iter<'_>
        ensures { left result ≡ self.now }
    {
        Iter {
            entries: self,
            at: 0,
        }
    }
}

impl<'e> Iterator for Iter<'e> {
    ghost use Rattle.std.specs.Iterator.{YieldsFirstBy, item_count};
    ghost use Rattle.hc_flat.specs.EntriesView.{entry_of};
    ghost use Rattle.hc_flat.specs.Lent.{left};

    type Item = EntryView<'e>;

    ghost next_gives = { YieldsFirstBy entry_of left };

    ghost remaining = { item_count left };

    fn next(&mut self) -> Option<EntryView<'e>> {
        if self.at >= self.entries.len() {
            return None;
        }
        let entry = self.entries.entry(self.at);
        self.at += 1;
        Some(entry)
    }
}
