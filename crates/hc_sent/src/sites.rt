//! What comes of the locations that lead to one own server.
ghost use Rattle.std.specs.Prelude.{IfOk, OnOk};
ghost use Rattle.hc_pat_lang.specs.Sets.{AcceptsOnly};
ghost use Rattle.hc_sent.specs.Sites.{Adds, IsOnward, IsOutward, Knowing, Says, Whenever};
ghost use Rattle.hc_sent.specs.Ways.{AreLedTo, GoesAsking, GoesTo, HasPathByte, HidesQuestion, IsHigh, IsOpen};
ghost use Rattle.hc_sent.specs.Ways.{MayFail, MayStay};

use crate::bytes::{Bytes, texts_of};
use crate::clean::normal_paths;
use crate::deeds::{Deed, some_does};
use crate::joints::Joint;
use crate::leading::Led;
use crate::sets::{add, has_other, has_text, kept};
use crate::ways::Way;
use hc_base::NoMemory;
use hc_dfa::{Dfa, Keep};
use hc_follow::Origin;
use std::alloc::Global;

/// The parts of locations, and those that lead to one own server.
#[derive(Clone, Copy)]
pub struct Site<'a> {
    pub joints: &'a [Joint],
    pub way: &'a Way,
    pub origin: &'a Origin,
}

impl<'a> Site<'a> {
    /// Whether some bytes of the query may be escaped.
    pub fn is_open(&self, alloc: Global) -> Result<bool, NoMemory>
        ensures { IfOk result (λ is. Whenever self.now (Says IsOpen is)) }
    {
        let does = some_does(alloc, self.way, self.joints, Deed::Opens)?;
        Ok(does)
    }

    fn hides_question(&self, alloc: Global) -> Result<bool, NoMemory>
        ensures { IfOk result (λ is. Whenever self.now (Says HidesQuestion is)) }
    {
        let does = some_does(alloc, self.way, self.joints, Deed::Hides)?;
        Ok(does)
    }

    fn may_stay(&self, alloc: Global) -> Result<bool, NoMemory>
        ensures { IfOk result (λ is. Whenever self.now (Says MayStay is)) }
    {
        let does = some_does(alloc, self.way, self.joints, Deed::Stays)?;
        Ok(does)
    }

    fn is_high(&self, alloc: Global) -> Result<bool, NoMemory>
        ensures { IfOk result (λ is. Whenever self.now (Says IsHigh is)) }
    {
        let does = some_does(alloc, self.way, self.joints, Deed::Rises)?;
        Ok(does)
    }

    fn has_path_byte(&self, alloc: Global) -> Result<bool, NoMemory>
        ensures { IfOk result (λ is. Whenever self.now (Says HasPathByte is)) }
    {
        let normal = normal_paths(alloc)?;
        let has = has_other(alloc, &self.way.paths, &normal)?;
        Ok(has)
    }

    /// Whether what comes may be outside.
    fn may_fail(&self, alloc: Global) -> Result<bool, NoMemory>
        ensures { IfOk result (λ is. Whenever self.now (Says MayFail is)) }
    {
        if self.has_path_byte(alloc)? {
            return Ok(true);
        }
        if self.hides_question(alloc)? {
            return Ok(true);
        }
        if self.may_stay(alloc)? {
            return Ok(true);
        }
        let high = self.is_high(alloc)?;
        Ok(high)
    }

    /// The paths of next requests.
    fn next_paths(&self, alloc: Global) -> Result<Dfa, NoMemory>
        ensures { IfOk result (λ made. Whenever self.now
            (λ parts before origin. AcceptsOnly (GoesTo parts before origin) made)) }
    {
        let normal = normal_paths(alloc)?;
        let made = kept(alloc, &self.way.paths, &normal, Keep::Both)?;
        Ok(made)
    }

    /// Their queries: any of target bytes, where some may be escaped.
    fn next_queries(&self, alloc: Global, escapes: bool) -> Result<Dfa, NoMemory>
        ensures { IfOk result (λ made. Knowing self.now escapes
            (λ parts before origin. AcceptsOnly (GoesAsking parts before origin) made)) }
    {
        let targets = texts_of(alloc, Bytes::Target)?;
        if escapes {
            return Ok(targets);
        }
        let made = kept(alloc, &self.way.queries, &targets, Keep::Both)?;
        Ok(made)
    }

    /// Where a next request may come, what it leads to there.
    fn onward(&self, alloc: Global, escapes: bool) -> Result<Option<Led>, NoMemory>
        ensures { IfOk result (λ found. Knowing self.now escapes
            (λ parts before origin. IsOnward parts before origin found)) }
    {
        let paths = self.next_paths(alloc)?;
        if !has_text(alloc, &paths)? {
            return Ok(None);
        }
        let queries = self.next_queries(alloc, escapes)?;
        if !has_text(alloc, &queries)? {
            return Ok(None);
        }
        let origin = self.origin.clone()?;
        Ok(Some(Led::On {
            origin,
            paths,
            queries,
        }))
    }

    fn outward(&self, alloc: Global) -> Result<Option<Led>, NoMemory>
        ensures { IfOk result (λ found. Whenever self.now
            (λ parts before origin. IsOutward parts before origin found)) }
    {
        if !self.may_fail(alloc)? {
            return Ok(None);
        }
        Ok(Some(Led::Outside))
    }

    /// Adds what they lead to at the server.
    pub fn add_led(&self, alloc: Global, found: &mut Vec<Led>) -> Result<(), NoMemory>
        ensures { OnOk result (Whenever self.now
            (λ parts before origin. Adds (AreLedTo parts before origin) found.old.items found.new.items)) }
    {
        let escapes = self.is_open(alloc)?;
        add(found, self.onward(alloc, escapes)?)?;
        add(found, self.outward(alloc)?)?;
        Ok(())
    }
}
