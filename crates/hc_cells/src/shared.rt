ghost use Rattle.std.specs.Prelude.{◌≡◌, IfOk, option_map};
ghost use Rattle.hc_dfa.specs.Members.{IsOnlyOf};
ghost use Rattle.hc_dfa.specs.Automata.{accepts};

use hc_base::NoMemory;
use hc_dfa::{Dfa, Member, only_member};
use std::alloc::Global;
use std::marker::Model;

/// A set of texts that cells share, with its text where it has one only.
#[derive(Drop)]
pub(crate) struct Shared {
    set: Dfa,
    only: Option<Member>,
}

impl Model for Shared {
    ghost use Rattle.hc_dfa.specs.Members.{IsOnlyOf};
    ghost use Rattle.hc_dfa.specs.Automata.{Automaton, accepts};

    ghost Value = { Automaton };

    ghost view = { λ shared. shared.set };

    ghost invariant = { λ shared. IsOnlyOf (accepts shared.set) shared.only };
}

impl Shared {
    pub fn new(alloc: Global, set: Dfa) -> Result<Shared, NoMemory>
        ensures { IfOk result (λ shared. shared ≡ set) }
    {
        let only = only_member(alloc, &set)?;
        Ok(Shared { set, only })
    }

    pub fn set(&self) -> &Dfa
        ensures { result.now ≡ self.now }
    {
        &self.set
    }

    /// The text of the set where it has one only.
    pub fn only(&self) -> Option<&[u8]>
        ensures { IsOnlyOf (accepts self.now) (option_map (λ text. text.now) result) }
    {
        match &self.only {
            Some(text) => Some(text.as_bytes()),
            None => None,
        }
    }
}
