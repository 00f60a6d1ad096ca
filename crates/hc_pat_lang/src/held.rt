ghost use Rattle.std.specs.Prelude.{IfOk};
ghost use Rattle.hc_dfa.specs.Automata.{accepts};
ghost use Rattle.hc_pattern.specs.Pattern.{pattern_of};
ghost use Rattle.hc_pat_lang.specs.Found.{IsGroupText};
ghost use Rattle.hc_pat_lang.specs.Fragments.{IsFragment, IsReady};
ghost use Rattle.hc_pat_lang.specs.Gates.{anything};
ghost use Rattle.hc_pat_lang.specs.Sets.{AcceptsOnly};
ghost use Rattle.hc_pat_lang.specs.Turned.{group_ways};

use crate::finding::every_byte;
use crate::gates::{Gate, GroupPart};
use crate::nodes::Nodes;
use hc_base::NoMemory;
use hc_dfa::Dfa;
use hc_pattern::Pat;
use std::alloc::Global;

/// The automaton of the texts that the group may hold on some way of the pattern in some text of the
/// set: group 0 the whole way, any other group what one of its turns takes, be it the last one or not,
/// and the empty text where a way leaves it unset.
pub fn group_texts(alloc: Global, pat: &Pat, set: &Dfa, number: u8) -> Result<Dfa, NoMemory>
    ensures { IfOk result (AcceptsOnly (IsGroupText (pattern_of pat.now) (accepts set.now) number)) }
{
    let every = every_byte();
    let mut nodes = Nodes::new(alloc, every)?;
    let entries = nodes.build_group(pat, number)?;
    let start = nodes.look_for(every, entries)?;
    let made = nodes.marked(alloc, set, start)?;
    Ok(made)
}

impl Nodes {
    /// Adds the nodes of the ways in which what the group holds is marked.
    fn build_group(&mut self, pat: &Pat, number: u8) -> Result<Gate, NoMemory>
        requires { IsReady self.old.list.items anything }
        ensures { IfOk result (IsFragment (λ text. group_ways number text (pattern_of pat.now))
            anything self.old.list.items self.new.list.items) }
    {
        if number == 0 {
            let entries = self.build(pat, GroupPart::Inside, Gate::anything())?;
            return Ok(entries);
        }
        let turn = self.choose(pat, number, Gate::anything())?;
        let unset = self.build(pat, GroupPart::Without(number), Gate::anything())?;
        let entries = self.join(turn, unset)?;
        Ok(entries)
    }
}
