ghost use Rattle.std.specs.Prelude.{◌≡◌, ◌≢◌, ◌||◌, IfOk, IsTrue, [], true};
ghost use Rattle.std.specs.List.{after_first, before_first, list_any};
ghost use Rattle.hc_base.specs.Bytes.{is_question};
ghost use Rattle.hc_base.specs.Paths.{begins_with_slash};
ghost use Rattle.hc_dfa.specs.Automata.{accepts};
ghost use Rattle.hc_dfa.specs.Built.{Accepts};
ghost use Rattle.hc_pat_lang.specs.Sets.{AcceptsOnly};
ghost use Rattle.hc_rw_expand.specs.Queries.{appended};
ghost use Rattle.hc_rw_sets.specs.Joins.{AreBoth};
ghost use Rattle.hc_rw_sets.specs.Made.{MadeOf, MadeOfBoth};
ghost use Rattle.std.proofs.Common.{rules};

use crate::cuts::{Part, cut_at};
use crate::paths::put_behind;
use hc_base::NoMemory;
use hc_dfa::{Dfa, Keep, Reading, complement, listed, product, single, tested};
use hc_pat_lang::concat;
use std::alloc::Global;

/// The texts with a `?`.
pub fn with_question(alloc: Global) -> Result<Dfa, NoMemory>
    ensures { IfOk result (λ made. Accepts made (list_any is_question)) }
{
    let made = tested(alloc, &HasQuestion, false)?;
    Ok(made)
}

/// A key tells whether a `?` was read.
#[derive(Clone, Copy)]
struct HasQuestion;

impl Reading for HasQuestion {
    type Key = bool;

    ghost is_key = { λ test found. Unit {0} };

    ghost reads = { λ test found byte. found || is_question byte };

    ghost holds = { λ test found. found };

    fn next(&self, found: bool, byte: u8) -> bool {
        found || byte == b'?'
    }

    fn holds(&self, found: bool) -> bool {
        found
    }

    ghost same = { Prim.search rules };
}

/// What stands before the first `?` in the texts of a set.
pub fn before_question(alloc: Global, set: &Dfa) -> Result<Dfa, NoMemory>
    ensures { IfOk result (AcceptsOnly (MadeOf (before_first is_question) (accepts set.now))) }
{
    cut_at(alloc, set, b'?', Part::Before)
}

/// What stands behind it: nothing where there is none.
pub fn after_question(alloc: Global, set: &Dfa) -> Result<Dfa, NoMemory>
    ensures { IfOk result (AcceptsOnly (MadeOf (after_first is_question) (accepts set.now))) }
{
    cut_at(alloc, set, b'?', Part::Behind)
}

/// The queries of one set with those of the other behind them, and `&` between them where neither is empty.
pub fn appended_queries(alloc: Global, new: &Dfa, old: &Dfa) -> Result<Dfa, NoMemory>
    ensures { IfOk result (AcceptsOnly (MadeOfBoth appended (accepts new.now) (accepts old.now))) }
{
    let no_new = unless_filled(alloc, new)?;
    let old_alone = concat(alloc, &no_new, old)?;
    let no_old = unless_filled(alloc, old)?;
    let new_alone = concat(alloc, new, &no_old)?;
    let either = product(alloc, &old_alone, &new_alone, Keep::Either)?;
    let both = both_queries(alloc, new, old)?;
    let made = product(alloc, &either, &both, Keep::Either)?;
    Ok(made)
}

/// Where neither is empty.
fn both_queries(alloc: Global, new: &Dfa, old: &Dfa) -> Result<Dfa, NoMemory>
    ensures { IfOk result (AcceptsOnly (AreBoth (accepts new.now) (accepts old.now))) }
{
    let some_new = filled(alloc, new)?;
    let some_old = filled(alloc, old)?;
    let behind = put_behind(alloc, b"&", &some_old)?;
    let made = concat(alloc, &some_new, &behind)?;
    Ok(made)
}

/// The empty text alone, where it is in the set.
fn unless_filled(alloc: Global, set: &Dfa) -> Result<Dfa, NoMemory>
    ensures { IfOk result (AcceptsOnly (λ text. IsTrue (accepts set.now text) × (text ≡ []))) }
{
    let empty = single(alloc, b"")?;
    let made = product(alloc, set, &empty, Keep::Both)?;
    Ok(made)
}

/// The texts of a set but for the empty one.
fn filled(alloc: Global, set: &Dfa) -> Result<Dfa, NoMemory>
    ensures { IfOk result (AcceptsOnly (λ text. IsTrue (accepts set.now text) × (text ≢ []))) }
{
    let empty = single(alloc, b"")?;
    let made = product(alloc, set, &empty, Keep::FirstOnly)?;
    Ok(made)
}

/// The texts that begin with a slash.
pub fn absolute(alloc: Global) -> Result<Dfa, NoMemory>
    ensures { IfOk result (λ made. Accepts made begins_with_slash) }
{
    let nothing = listed(alloc, &[])?;
    let all = complement(alloc, &nothing)?;
    let made = put_behind(alloc, b"/", &all)?;
    Ok(made)
}
