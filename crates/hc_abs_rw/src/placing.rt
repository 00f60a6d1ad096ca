//! Where a text leads that a rule makes (Apache manual, mod_rewrite: RewriteRule, "Substitution").
ghost use Rattle.std.specs.Prelude.{◌≡◌, ◌||◌, false, is_some, OnOk};
ghost use Rattle.hc_abs_rw.specs.Drafts.{AddsLed, AddsOn, AddsOwn, outside_as, sent_to};
ghost use Rattle.hc_abs_rw.specs.Substitutions.{own_plan, relative_plan, scheme_plan, text_plan, url_plan};
ghost use Rattle.hc_abs_rw.specs.declared.draft.Task.{Task};
ghost use Rattle.hc_model.specs.declared.outcome.Reason.TheVariants as reason;
ghost use Rattle.hc_rw_eval.specs.Substitutions.{redirects};

use crate::apply::Applied;
use crate::draft::{Draft, Task, free};
use crate::paths::{placed, relative_ways};
use crate::storing::{left, outside, sent};
use crate::ways::Ways;
use hc_base::NoMemory;
use hc_model::Reason;
use hc_plan::Way;
use hc_rw_eval::redirects;
use hc_rw_sets::own_paths;
use std::alloc::Global;

/// First whether it is a URL.
pub(crate) fn text_ways(
    alloc: Global,
    task: &Task<'_, '_>,
    draft: &Draft<'_, '_>,
    found: &mut Vec<Applied>,
) -> Result<(), NoMemory>
    ensures { OnOk result (AddsLed task.now text_plan draft.now found.old.items found.new.items) }
{
    let ways = draft.ways(alloc, task.tests.url(), false)?;
    let Ways { held, failed } = ways;
    url_way(alloc, task, draft, held, found)?;
    scheme_way(alloc, task, draft, failed, found)
}

/// With R a URL is sent.
#[tactic(auto, using(crate::proofs::Leading::url_sent, crate::proofs::Drafting::on_led))]
fn url_way(
    alloc: Global,
    task: &Task<'_, '_>,
    draft: &Draft<'_, '_>,
    way: Option<Way>,
    found: &mut Vec<Applied>,
) -> Result<(), NoMemory>
    ensures { OnOk result (AddsOn task.now url_plan draft.now way found.old.items found.new.items) }
{
    let Some(way) = way else {
        return Ok(());
    };
    let draft = draft.on(way);
    if redirects(task.flags) {
        return sent(alloc, task, draft, false, found);
    }
    own_ways(alloc, task, &draft, found)
}

/// Else one of the server's own loses its scheme and name.
fn own_ways(
    alloc: Global,
    task: &Task<'_, '_>,
    draft: &Draft<'_, '_>,
    found: &mut Vec<Applied>,
) -> Result<(), NoMemory>
    ensures { OnOk result (AddsLed task.now own_plan draft.now found.old.items found.new.items) }
{
    let ways = draft.ways(alloc, task.tests.own(), false)?;
    let Ways { held, failed } = ways;
    own_way(alloc, task, draft, held, found)?;
    sent_way(alloc, task, draft, failed, found)
}

fn own_way(
    alloc: Global,
    task: &Task<'_, '_>,
    draft: &Draft<'_, '_>,
    way: Option<Way>,
    found: &mut Vec<Applied>,
) -> Result<(), NoMemory>
    ensures { OnOk result (AddsOwn task.now draft.now way found.old.items found.new.items) }
{
    let Some(way) = way else {
        return Ok(());
    };
    let draft = draft.on(way);
    let texts = draft.texts(alloc)?;
    let paths = own_paths(alloc, task.tests.caller(), &texts)?;
    let text = free(alloc, paths)?;
    left(alloc, task, draft.with_text(&text), found)
}

#[tactic(auto, using(crate::proofs::Drafting::on_led))]
fn sent_way(
    alloc: Global,
    task: &Task<'_, '_>,
    draft: &Draft<'_, '_>,
    way: Option<Way>,
    found: &mut Vec<Applied>,
) -> Result<(), NoMemory>
    ensures { OnOk result (AddsOn task.now (sent_to false) draft.now way found.old.items found.new.items) }
{
    match way {
        None => Ok(()),
        Some(way) => sent(alloc, task, draft.on(way), false, found),
    }
}

/// Another scheme is outside.
fn scheme_way(
    alloc: Global,
    task: &Task<'_, '_>,
    draft: &Draft<'_, '_>,
    way: Option<Way>,
    found: &mut Vec<Applied>,
) -> Result<(), NoMemory>
    ensures { OnOk result (AddsOn task.now scheme_plan draft.now way found.old.items found.new.items) }
{
    let Some(way) = way else {
        return Ok(());
    };
    let draft = draft.on(way);
    let ways = draft.ways(alloc, task.tests.scheme(), false)?;
    let Ways { held, failed } = ways;
    outside_way(&draft, held, found)?;
    path_way(alloc, task, &draft, failed, found)
}

#[tactic(auto, using(crate::proofs::Drafting::on_led))]
fn outside_way(
    draft: &Draft<'_, '_>,
    way: Option<Way>,
    found: &mut Vec<Applied>,
) -> Result<(), NoMemory>
    ensures { OnOk result ((task : Task)
        → AddsOn task (outside_as reason.Scheme) draft.now way found.old.items found.new.items) }
{
    match way {
        None => Ok(()),
        Some(way) => outside(draft.on(way), Reason::Scheme, found),
    }
}

/// Only with R and in a directory it is asked whether the text is relative.
#[tactic(auto, using(crate::proofs::Leading::relatives, crate::proofs::Drafting::on_led))]
fn path_way(
    alloc: Global,
    task: &Task<'_, '_>,
    draft: &Draft<'_, '_>,
    way: Option<Way>,
    found: &mut Vec<Applied>,
) -> Result<(), NoMemory>
    ensures { OnOk result (AddsOn task.now relative_plan draft.now way found.old.items found.new.items) }
{
    let Some(way) = way else {
        return Ok(());
    };
    let draft = draft.on(way);
    if is_asked(task) {
        return relative_ways(alloc, task, &draft, found);
    }
    placed(alloc, task, draft, found)
}

fn is_asked(task: &Task<'_, '_>) -> bool
    ensures { result ≡ (redirects task.now.flags.now || is_some task.now.engine) }
{
    redirects(task.flags) || task.engine.is_some()
}
