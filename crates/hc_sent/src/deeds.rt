//! What parts may do in the locations that lead to a server.
ghost use Rattle.std.specs.Prelude.{◌≡◌, ◌&&◌, IfOk};
ghost use Rattle.hc_dfa.specs.Automata.{accepts};
ghost use Rattle.hc_dfa.specs.Built.{Accepts};
ghost use Rattle.hc_pat_lang.specs.Fragments.{Exists};
ghost use Rattle.hc_sent.specs.Deeds.{AreThrough, Does, Gives, GivesQueryIn, GivesQuestionIn, is_apt};
ghost use Rattle.hc_sent.specs.Sets.{IsAnswer};
ghost use Rattle.hc_sent.specs.Ways.{is_filled};

use crate::joints::Joint;
use crate::parts::Writing;
use crate::sets::{has_text, kept};
use crate::ways::Way;
use hc_base::NoMemory;
use hc_dfa::{Dfa, Keep, single};
use hc_pat_lang::concat;
use std::alloc::Global;

/// What a part may do in the locations that lead to a server.
#[derive(Clone, Copy)]
pub enum Deed {
    /// A byte of it in the query may be escaped.
    Opens,
    /// The `?` between path and query is one of it, and is escaped.
    Hides,
    /// A byte that no target has may stay in the query.
    Stays,
    /// A byte above the printed ones stays.
    Rises,
}

/// Whether some part does it.
pub fn some_does(alloc: Global, way: &Way, joints: &[Joint], deed: Deed) -> Result<bool, NoMemory>
    ensures { IfOk result (IsAnswer (Exists (Does way.now deed) joints.now)) }
{
    for joint in joints {
        if joint.does(alloc, way, deed)? {
            return Ok(true);
        }
    }
    Ok(false)
}

impl Joint {
    fn does(&self, alloc: Global, way: &Way, deed: Deed) -> Result<bool, NoMemory>
        ensures { IfOk result (IsAnswer (Does way.now deed self.now)) }
    {
        if !self.is_apt(deed) {
            return Ok(false);
        }
        let gives = self.gives(alloc, way, deed)?;
        Ok(gives)
    }

    /// Whether it is of the kind that does this.
    fn is_apt(&self, deed: Deed) -> bool
        ensures { result ≡ is_apt deed self.now }
    {
        match deed {
            Deed::Opens => self.writing.may_escape(),
            Deed::Hides => matches!(self.writing, Writing::Escaped),
            Deed::Stays => self.writing.may_stay() && self.strays,
            Deed::Rises => matches!(self.writing, Writing::AsIs) && self.rises,
        }
    }

    fn gives(&self, alloc: Global, way: &Way, deed: Deed) -> Result<bool, NoMemory>
        ensures { IfOk result (IsAnswer (Gives way.now self.now deed)) }
    {
        match deed {
            Deed::Opens | Deed::Stays => self.gives_query(alloc, way),
            Deed::Hides => self.gives_question(alloc, way),
            Deed::Rises => has_text(alloc, &way.texts),
        }
    }

    /// Whether a byte of it may stand in the query.
    fn gives_query(&self, alloc: Global, way: &Way) -> Result<bool, NoMemory>
        ensures { IfOk result (IsAnswer (GivesQueryIn way.now self.now)) }
    {
        let filled = filled(alloc, &self.own)?;
        let through = Through {
            front: &self.before,
            own: &filled,
            marked: &way.asking,
            rest: &self.behind,
            whole: &way.texts,
        };
        let has = through.has_any(alloc)?;
        Ok(has)
    }

    /// Whether the first `?` may be one of it.
    fn gives_question(&self, alloc: Global, way: &Way) -> Result<bool, NoMemory>
        ensures { IfOk result (IsAnswer (GivesQuestionIn way.now self.now)) }
    {
        let clear = kept(alloc, &self.before, &way.asked, Keep::FirstOnly)?;
        let through = Through {
            front: &clear,
            own: &self.own,
            marked: &way.asked,
            rest: &self.behind,
            whole: &way.texts,
        };
        let has = through.has_any(alloc)?;
        Ok(has)
    }
}

/// The texts of a set but for the empty one.
fn filled(alloc: Global, set: &Dfa) -> Result<Dfa, NoMemory>
    ensures { IfOk result (λ made. Accepts made (λ text. accepts set.now text && is_filled text)) }
{
    let empty = single(alloc, b"")?;
    let made = kept(alloc, set, &empty, Keep::FirstOnly)?;
    Ok(made)
}

/// Sets of which texts stand one behind the other: what is marked are the first two together.
#[derive(Clone, Copy)]
struct Through<'a> {
    front: &'a Dfa,
    own: &'a Dfa,
    marked: &'a Dfa,
    rest: &'a Dfa,
    whole: &'a Dfa,
}

impl<'a> Through<'a> {
    fn has_any(&self, alloc: Global) -> Result<bool, NoMemory>
        ensures { IfOk result (IsAnswer (AreThrough (accepts self.now.front.now) (accepts self.now.own.now)
            (accepts self.now.marked.now) (accepts self.now.rest.now) (accepts self.now.whole.now))) }
    {
        let begun = concat(alloc, self.front, self.own)?;
        let marked = kept(alloc, &begun, self.marked, Keep::Both)?;
        let all = concat(alloc, &marked, self.rest)?;
        let met = kept(alloc, &all, self.whole, Keep::Both)?;
        let has = has_text(alloc, &met)?;
        Ok(has)
    }
}
