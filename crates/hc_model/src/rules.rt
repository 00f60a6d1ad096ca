ghost use Rattle.std.specs.Prelude.{◌≡◌, [], ◌∷◌, ◌++◌, IfOk, OnOk};
ghost use Rattle.hc_model.specs.Shared.{list_in};

use crate::Rule;
use hc_base::{List, NoMemory};
use std::alloc::Global;
use std::marker::Model;
use std::rc::Rc;

/// The rules of a server or of a section, in their order. Copies share them, so a copy takes no memory.
#[derive(Drop)]
pub struct Rules {
    shared: Option<Rc<List<Rule>>>,
}

impl Model for Rules {
    ghost use Rattle.std.specs.Prelude.{List};
    ghost use Rattle.std.specs.Coded.{codes};
    ghost use Rattle.hc_model.specs.contracts.rewrite.Rule as r;
    ghost use Rattle.hc_model.specs.declared.rewrite.Rule.{Rule};
    ghost use Rattle.hc_model.specs.Shared.{list_in};

    ghost Value = { List Rule };

    ghost coded = { Prim.hlevel (codes, r.the_row.coded) };

    ghost view = { λ r. list_in r.shared };
}

impl Rules {
    /// No rules, which take no memory.
    pub fn new() -> Rules
        ensures { result ≡ [] }
    {
        Rules { shared: None }
    }

    /// These rules.
    pub fn shared(alloc: Global, list: List<Rule>) -> Result<Rules, NoMemory>
        ensures { IfOk result (λ rules. rules ≡ list) }
    {
        Ok(Rules {
            shared: Some(Rc::new(alloc, list)?),
        })
    }

    /// The rule comes last. Copies that were made before stay as they are.
    pub fn push(&mut self, alloc: Global, rule: Rule) -> Result<(), NoMemory>
        ensures { OnOk result (self.new ≡ self.old ++ rule ∷ []) }
    {
        let mut list = own_list(alloc, self.shared.take())?;
        list.push(rule)?;
        *self = Rules::shared(alloc, list)?;
        Ok(())
    }

    /// These rules, and then those. Where there are none of these, those are shared.
    pub fn joined(&self, alloc: Global, then: &Rules) -> Result<Rules, NoMemory>
        ensures { IfOk result (λ rules. rules ≡ self.now ++ then.now) }
    {
        if self.as_slice().is_empty() {
            return then.clone();
        }
        let own = with_copies(List::new(alloc), self.as_slice())?;
        Rules::shared(alloc, with_copies(own, then.as_slice())?)
    }

    pub fn as_slice(&self) -> &[Rule]
        ensures { result.now ≡ self.now }
    {
        match &self.shared {
            Some(list) => list.as_ref().as_slice(),
            None => &[],
        }
    }
}

fn with_copies(mut list: List<Rule>, more: &[Rule]) -> Result<List<Rule>, NoMemory>
    ensures { IfOk result (λ all. all ≡ list ++ more.now) }
{
    for rule in more {
        list.push(rule.clone()?)?;
    }
    Ok(list)
}

// The list itself, where no copy shares it, else a copy.
fn own_list(alloc: Global, shared: Option<Rc<List<Rule>>>) -> Result<List<Rule>, NoMemory>
    ensures { IfOk result (λ list. list ≡ list_in shared) }
{
    match shared {
        Some(list) => match Rc::try_unwrap(list) {
            Ok(own) => Ok(own),
            Err(list) => list.as_ref().copy(),
        },
        None => Ok(List::new(alloc)),
    }
}

impl Clone for Rules {
    ghost is_clone = { λ rules copy. copy ≡ rules };

    fn clone(&self) -> Result<Rules, NoMemory> {
        match &self.shared {
            Some(list) => Ok(Rules {
                shared: Some(list.clone()?),
            }),
            None => Ok(Rules::new()),
        }
    }
}
