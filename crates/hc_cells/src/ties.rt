ghost use Rattle.std.specs.Prelude.{◌≡◌, ◌++◌, IfOk, OnOk};
ghost use Rattle.hc_cells.specs.Ties.{before_path, before_text, behind_path, behind_text, tied_to, untied};

use crate::Slot;
use hc_base::{List, NoMemory};
use std::alloc::Global;

/// Slots that hold one value: those of each pair that is named, and those of a chain of pairs. Origin, path, text and
/// name are one chain; the query and the first query are a pair.
#[derive(Clone, Copy, PartialEq, Eq)]
pub struct Ties {
    pub origin_path: bool,
    pub text_path: bool,
    pub text_name: bool,
    /// The query, and the one that the request began with.
    pub query_first: bool,
}

impl Ties {
    /// The slots that hold one value with this one, itself left out.
    pub fn tied_to(self, alloc: Global, slot: &Slot) -> Result<List<Slot>, NoMemory>
        ensures { IfOk result (λ slots. slots ≡ tied_to self slot.now) }
    {
        let mut slots = List::new(alloc);
        match slot {
            Slot::Origin if self.origin_path => {
                slots.push(Slot::Path)?;
                self.push_behind_path(&mut slots)?;
            }
            Slot::Path => {
                self.push_before_path(&mut slots)?;
                self.push_behind_path(&mut slots)?;
            }
            Slot::Text => {
                self.push_before_text(&mut slots)?;
                self.push_behind_text(&mut slots)?;
            }
            Slot::Name if self.text_name => {
                slots.push(Slot::Text)?;
                self.push_before_text(&mut slots)?;
            }
            Slot::Query if self.query_first => slots.push(Slot::FirstQuery)?,
            Slot::FirstQuery if self.query_first => slots.push(Slot::Query)?,
            _ => {}
        }
        Ok(slots)
    }

    fn push_behind_text(self, slots: &mut List<Slot>) -> Result<(), NoMemory>
        ensures { OnOk result (slots.new ≡ slots.old ++ behind_text self) }
    {
        if self.text_name {
            slots.push(Slot::Name)?;
        }
        Ok(())
    }

    fn push_behind_path(self, slots: &mut List<Slot>) -> Result<(), NoMemory>
        ensures { OnOk result (slots.new ≡ slots.old ++ behind_path self) }
    {
        if self.text_path {
            slots.push(Slot::Text)?;
            self.push_behind_text(slots)?;
        }
        Ok(())
    }

    fn push_before_path(self, slots: &mut List<Slot>) -> Result<(), NoMemory>
        ensures { OnOk result (slots.new ≡ slots.old ++ before_path self) }
    {
        if self.origin_path {
            slots.push(Slot::Origin)?;
        }
        Ok(())
    }

    fn push_before_text(self, slots: &mut List<Slot>) -> Result<(), NoMemory>
        ensures { OnOk result (slots.new ≡ slots.old ++ before_text self) }
    {
        if self.text_path {
            slots.push(Slot::Path)?;
            self.push_before_path(slots)?;
        }
        Ok(())
    }

    /// The same where this slot is stored: it is tied to no other then.
    pub fn without(self, slot: &Slot) -> Ties
        ensures { result ≡ untied slot.now self }
    {
        match slot {
            Slot::Origin => Ties {
                origin_path: false,
                ..self
            },
            Slot::Path => Ties {
                origin_path: false,
                text_path: false,
                ..self
            },
            Slot::Text => Ties {
                text_path: false,
                text_name: false,
                ..self
            },
            Slot::Name => Ties {
                text_name: false,
                ..self
            },
            Slot::Query | Slot::FirstQuery => Ties {
                query_first: false,
                ..self
            },
            _ => self,
        }
    }
}
