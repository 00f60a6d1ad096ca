ghost use Rattle.std.specs.Prelude.{◌≡◌, None, Some, IfOk};
ghost use Rattle.hc_model.specs.Joined.{joined_behind, required_by};

use crate::{Join, Merging, ReqTree};
use hc_base::{List, NoMemory};
use std::alloc::Global;
use std::marker::Model;

/// What the sections that apply require, one behind another. The list keeps each tree as it is, so that
/// nothing calls itself once a section; contracts see the one tree that they make.
#[derive(Drop)]
pub struct Requirement {
    joins: List<Join>,
}

impl Model for Requirement {
    ghost use Rattle.std.specs.Prelude.{Option};
    ghost use Rattle.std.specs.Coded.{codes};
    ghost use Rattle.hc_model.specs.contracts.authorization.ReqTree as t;
    ghost use Rattle.hc_model.specs.declared.authorization.ReqTree.{ReqTree};
    ghost use Rattle.hc_model.specs.Joined.{required_by};

    ghost Value = { Option ReqTree };

    ghost coded = { Prim.hlevel (codes, t.the_row.coded) };

    ghost view = { λ r. required_by r.joins };
}

impl Requirement {
    /// Nothing is required. It takes no memory.
    pub fn none(alloc: Global) -> Requirement
        ensures { result ≡ None }
    {
        Requirement {
            joins: List::new(alloc),
        }
    }

    /// The tree of a section comes behind those before it. `Off` forgets them.
    pub fn joined(self, own: ReqTree, how: Merging) -> Result<Requirement, NoMemory>
        ensures { IfOk result (λ require. require ≡ joined_behind self (Some own) how) }
    {
        let mut joins = match how {
            Merging::Off => List::new(self.joins.allocator()),
            Merging::And | Merging::Or => self.joins,
        };
        joins.push(Join { how, tree: own })?;
        Ok(Requirement { joins })
    }

    /// The trees, each with how it stands to those before it.
    pub fn joins(&self) -> &[Join]
        ensures { required_by result.now ≡ self.now }
    {
        self.joins.as_slice()
    }
}

impl Clone for Requirement {
    ghost is_clone = { λ require copy. copy ≡ require };

    fn clone(&self) -> Result<Requirement, NoMemory> {
        Ok(Requirement {
            joins: self.joins.copy()?,
        })
    }
}
