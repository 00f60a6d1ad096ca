//! What a rule stores that makes a text.
ghost use Rattle.std.specs.Prelude.{◌≡◌, ◌&&◌, not, ◌∷◌, [], ◌++◌, IfOk, OnOk};
ghost use Rattle.hc_abs_rw.specs.Drafts.{AddsLed, AddsStored, StoresAll, left_here, outside_as, sent_to};
ghost use Rattle.hc_abs_rw.specs.Substitutions.{info_stored, query_stored};
ghost use Rattle.hc_abs_rw.specs.Templates.{main};
ghost use Rattle.hc_abs_rw.specs.declared.draft.Draft.{Draft};
ghost use Rattle.hc_abs_rw.specs.declared.draft.Task.{Task};
ghost use Rattle.hc_plan.specs.Plan.{from_hand};
ghost use Rattle.hc_rw_eval.specs.Substitutions.{stops};

use crate::apply::{Applied, Made, Next, Setting};
use crate::draft::{Draft, Task, untested};
use hc_base::NoMemory;
use hc_cells::Slot;
use hc_dfa::single;
use hc_model::{Flags, Reason};
use hc_plan::{Stored, Tied, store};
use hc_rw_eval::{status_sent, stops};
use std::alloc::Global;

/// Where the request goes is outside.
#[tactic(auto, using(crate::proofs::Drafting::outside_led))]
pub(crate) fn outside(
    draft: Draft<'_, '_>,
    reason: Reason,
    found: &mut Vec<Applied>,
) -> Result<(), NoMemory>
    ensures { OnOk result ((task : Task)
        → AddsLed task (outside_as reason) draft.entry found.old.items found.new.items) }
{
    found.push(draft.outside(reason))?;
    Ok(())
}

/// The request is sent to a location. A rule that does so ends the list, or no rule follows it.
#[tactic(auto, using(crate::proofs::Stored::sent_wrong, crate::proofs::Stored::sent_led))]
pub(crate) fn sent(
    alloc: Global,
    task: &Task<'_, '_>,
    draft: Draft<'_, '_>,
    own: bool,
    found: &mut Vec<Applied>,
) -> Result<(), NoMemory>
    ensures { OnOk result (AddsLed task.now (sent_to own) draft.entry found.old.items found.new.items) }
{
    if goes_on(task.setting, task.flags) {
        return outside(draft, Reason::Scheme, found);
    }
    let next = Next::Redirect {
        status: status_sent(task.flags),
        own,
        noescape: task.flags.noescape,
    };
    let made = Made {
        substituted: false,
        replaced: draft.replaced,
        next,
    };
    let tied = stored(alloc, draft, Slot::Location, false)?;
    found.push(Applied { tied, made })?;
    Ok(())
}

/// Whether rules behind this one would run.
fn goes_on(setting: Setting, flags: &Flags) -> bool
    ensures { result ≡ (setting.followed && not (stops flags.now)) }
{
    setting.followed && !stops(flags)
}

/// The text takes the place of the old one.
#[tactic(auto, using(crate::proofs::Stored::left_led))]
pub(crate) fn left(
    alloc: Global,
    task: &Task<'_, '_>,
    draft: Draft<'_, '_>,
    found: &mut Vec<Applied>,
) -> Result<(), NoMemory>
    ensures { OnOk result (AddsLed task.now left_here draft.entry found.old.items found.new.items) }
{
    let made = Made {
        substituted: true,
        replaced: draft.replaced,
        next: Next::GoesOn,
    };
    let tied = stored(alloc, draft, Slot::Text, task.flags.discard)?;
    found.push(Applied { tied, made })?;
    Ok(())
}

/// What is left where a text is stored in a slot, and its query. DPI drops the path information.
fn stored(alloc: Global, draft: Draft<'_, '_>, slot: Slot, discards: bool) -> Result<Tied, NoMemory>
    ensures { IfOk result (StoresAll draft.entry
        ((slot, from_hand main) ∷ query_stored draft.entry.replaced ++ info_stored discards)) }
{
    let mut stored = Vec::new(alloc);
    push_text(alloc, &draft, slot, &mut stored)?;
    push_query(alloc, &draft, &mut stored)?;
    push_info(alloc, discards, &mut stored)?;
    let Draft { tied, .. } = draft;
    store(alloc, tied, &stored)
}

fn push_text(
    alloc: Global,
    draft: &Draft<'_, '_>,
    slot: Slot,
    stored: &mut Vec<Stored>,
) -> Result<(), NoMemory>
    ensures { OnOk result (AddsStored draft.now ((slot, from_hand main) ∷ []) stored.old.items stored.new.items) }
{
    let set = draft.texts(alloc)?;
    stored.push(Stored { slot, set })?;
    Ok(())
}

/// A query that takes the place of the old one.
#[tactic(auto, using(crate::proofs::Stored::query_replaced))]
fn push_query(
    alloc: Global,
    draft: &Draft<'_, '_>,
    stored: &mut Vec<Stored>,
) -> Result<(), NoMemory>
    ensures { OnOk result (AddsStored draft.now (query_stored draft.now.replaced) stored.old.items stored.new.items) }
{
    if !draft.replaced {
        return Ok(());
    }
    let set = untested(alloc, &draft.tied.cell, draft.query)?;
    stored.push(Stored {
        slot: Slot::Query,
        set,
    })?;
    Ok(())
}

#[tactic(auto, using(crate::proofs::Stored::info_dropped))]
fn push_info(alloc: Global, discards: bool, stored: &mut Vec<Stored>) -> Result<(), NoMemory>
    ensures { OnOk result ((draft : Draft)
        → AddsStored draft (info_stored discards) stored.old.items stored.new.items) }
{
    if !discards {
        return Ok(());
    }
    let set = single(alloc, b"")?;
    stored.push(Stored {
        slot: Slot::Info,
        set,
    })?;
    Ok(())
}
