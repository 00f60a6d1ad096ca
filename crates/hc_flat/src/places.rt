ghost use Rattle.std.specs.Prelude.{◌≡◌, ◌-◌, ◌∷◌, ◌++◌, [], length, take, IfOk};
ghost use Rattle.hc_flat.specs.EntriesView.{innermost};

use crate::entries::counted;
use hc_base::NoMemory;
use std::alloc::Global;
use std::marker::Model;

/// Places in a list of entries, of which the last goes first.
#[derive(Drop)]
pub struct Places {
    items: Vec<u32>,
}

impl Model for Places {
    ghost use Rattle.std.specs.Prelude.{ℕ, List};

    ghost Value = { List ℕ };

    ghost view = { λ p. p.items.items };
}

impl Places {
    pub fn none(alloc: Global) -> Places
        ensures { result ≡ [] }
    {
        Places {
            items: Vec::new(alloc),
        }
    }

    pub fn as_slice(&self) -> &[u32]
        ensures { result.now ≡ self.now }
    {
        &self.items
    }

    pub fn last(&self) -> Option<u32>
        ensures { result ≡ innermost self.now }
    {
        self.items.last().copied()
    }

    pub fn with(mut self, place: usize) -> Result<Places, NoMemory>
        ensures { IfOk result (λ later. later ≡ self ++ place ∷ []) }
    {
        self.items.push(counted(place)?)?;
        Ok(self)
    }

    pub fn without_last(mut self) -> Places
        ensures { result ≡ take (length self - 1) self }
    {
        let len = self.items.len().saturating_sub(1);
        self.items.truncate(len);
        self
    }
}
