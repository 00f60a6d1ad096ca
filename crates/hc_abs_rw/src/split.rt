//! The query of a text that a rule makes (Apache manual, mod_rewrite, "Modifying the Query String"; "RewriteRule
//! Flags": QSA, QSD).
ghost use Rattle.std.specs.Prelude.{◌≡◌, ◌&&◌, not, None, IfOk, OnOk};
ghost use Rattle.hc_abs_rw.specs.Drafts.{Adds, AddsSplit, AreAppended, AreQueries, InHand, kept_query, kept_query_plan};
ghost use Rattle.hc_abs_rw.specs.Drafts.{new_query_plan};
ghost use Rattle.hc_abs_rw.specs.Substitutions.{split_plan};

use crate::apply::Applied;
use crate::draft::{Draft, Task, free, old_query, untested};
use crate::placing::text_ways;
use crate::ways::{Ways, ways_of};
use hc_base::NoMemory;
use hc_cells::{Cell, Ties};
use hc_dfa::Dfa;
use hc_model::Flags;
use hc_plan::{Element, Hand, Tied, Way, hand_set};
use hc_rw_sets::{after_question, appended_queries, before_question};
use std::alloc::Global;

/// What stands behind the first `?` is the query, and without one the old query stays.
pub(crate) fn split(
    alloc: Global,
    task: &Task<'_, '_>,
    tied: Tied,
    text: &[Element],
    found: &mut Vec<Applied>,
) -> Result<(), NoMemory>
    ensures { OnOk result (Adds task.now (InHand tied text.now None)
        (λ frame. split_plan frame task.now.flags.now task.now.setting) found.old.items found.new.items) }
{
    let hand = Hand {
        elements: text,
        off: 0,
        side: &None,
    };
    let Tied { cell, ties } = tied;
    let ways = ways_of(alloc, &cell, ties, hand, task.tests.question(), false)?;
    let Ways { held, failed } = ways;
    with_query(alloc, task, ties, text, held, found)?;
    without_query(alloc, task, ties, text, failed, found)
}

/// Where the text has a `?`.
fn with_query(
    alloc: Global,
    task: &Task<'_, '_>,
    ties: Ties,
    text: &[Element],
    way: Option<Way>,
    found: &mut Vec<Applied>,
) -> Result<(), NoMemory>
    ensures { OnOk result (AddsSplit task.now new_query_plan ties text.now way found.old.items found.new.items) }
{
    let Some(way) = way else {
        return Ok(());
    };
    let Way { cell, side } = way;
    let hand = Hand {
        elements: text,
        off: 0,
        side: &side,
    };
    let texts = hand_set(alloc, &cell, hand)?;
    let query = free(alloc, queries(alloc, task.flags, &cell, &texts)?)?;
    let front = free(alloc, before_question(alloc, &texts)?)?;
    let draft = Draft {
        tied: Tied { cell, ties },
        text: &front,
        side: None,
        query: &query,
        replaced: true,
    };
    text_ways(alloc, task, &draft, found)
}

/// The queries behind the first `?` of texts. With QSA the old one stands behind the new one, unless QSD drops it.
fn queries(alloc: Global, flags: &Flags, cell: &Cell, texts: &Dfa) -> Result<Dfa, NoMemory>
    ensures { IfOk result (AreQueries (flags.now.qsa && not flags.now.qsd) cell.now texts.now) }
{
    let new = after_question(alloc, texts)?;
    if flags.qsa && !flags.qsd {
        return with_old(alloc, cell, &new);
    }
    Ok(new)
}

/// With the old query behind them.
fn with_old(alloc: Global, cell: &Cell, new: &Dfa) -> Result<Dfa, NoMemory>
    ensures { IfOk result (AreAppended cell.now new.now) }
{
    let query = old_query(alloc)?;
    let old = untested(alloc, cell, &query)?;
    appended_queries(alloc, new, &old)
}

/// Where it has none.
fn without_query(
    alloc: Global,
    task: &Task<'_, '_>,
    ties: Ties,
    text: &[Element],
    way: Option<Way>,
    found: &mut Vec<Applied>,
) -> Result<(), NoMemory>
    ensures { OnOk result (AddsSplit task.now kept_query_plan ties text.now way found.old.items found.new.items) }
{
    let Some(way) = way else {
        return Ok(());
    };
    let Way { cell, side } = way;
    let query = kept_query(alloc, task.flags.qsd)?;
    let draft = Draft {
        tied: Tied { cell, ties },
        text,
        side,
        query: &query,
        replaced: task.flags.qsd,
    };
    text_ways(alloc, task, &draft, found)
}

/// The old query, which QSD drops.
fn kept_query(alloc: Global, drops: bool) -> Result<Vec<Element>, NoMemory>
    ensures { IfOk result (λ made. made.items ≡ kept_query drops) }
{
    if drops {
        return Ok(Vec::new(alloc));
    }
    old_query(alloc)
}
