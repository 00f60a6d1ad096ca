//! Where a text leads that is a path (Apache manual, mod_rewrite: RewriteBase; RewriteRule, "Per-directory Rewrites").
ghost use Rattle.std.specs.Prelude.{◌≡◌, [], Ok, OnOk, option_map, unwrap_or};
ghost use Rattle.hc_abs_rw.specs.Drafts.{AddsLed, AddsOn, fronted_by, fronted_plan, path_sent};
ghost use Rattle.hc_abs_rw.specs.Substitutions.{placed_plan, slash_plan};
ghost use Rattle.hc_dfa.specs.Texts.{IsText};

use crate::apply::Applied;
use crate::draft::{Draft, Task, free};
use crate::storing::{left, outside, sent};
use crate::ways::Ways;
use hc_base::{NoMemory, Text};
use hc_model::Reason;
use hc_plan::Way;
use hc_rw_eval::{front_of, redirects};
use hc_rw_expand::Engine;
use hc_rw_sets::{put_behind, url_paths};
use std::alloc::Global;

/// First whether it is relative.
pub(crate) fn relative_ways(
    alloc: Global,
    task: &Task<'_, '_>,
    draft: &Draft<'_, '_>,
    found: &mut Vec<Applied>,
) -> Result<(), NoMemory>
    ensures { OnOk result (AddsLed task.now slash_plan draft.now found.old.items found.new.items) }
{
    let ways = draft.ways(alloc, task.tests.absolute(), true)?;
    let Ways { held, failed } = ways;
    fronted_way(alloc, task, draft, held, found)?;
    placed_way(alloc, task, draft, failed, found)
}

/// A relative text is put behind RewriteBase or the directory.
#[tactic(auto, using(crate::proofs::Leading::fronted_led, crate::proofs::Drafting::on_led))]
fn fronted_way(
    alloc: Global,
    task: &Task<'_, '_>,
    draft: &Draft<'_, '_>,
    way: Option<Way>,
    found: &mut Vec<Applied>,
) -> Result<(), NoMemory>
    ensures { OnOk result (AddsOn task.now fronted_plan draft.now way found.old.items found.new.items) }
{
    let Some(way) = way else {
        return Ok(());
    };
    let draft = draft.on(way);
    let front = front_of(alloc, &task.engine, redirects(task.flags))?;
    fronted(alloc, task, draft, front, found)
}

#[tactic(auto, using(crate::proofs::Drafting::on_led))]
fn placed_way(
    alloc: Global,
    task: &Task<'_, '_>,
    draft: &Draft<'_, '_>,
    way: Option<Way>,
    found: &mut Vec<Applied>,
) -> Result<(), NoMemory>
    ensures { OnOk result (AddsOn task.now placed_plan draft.now way found.old.items found.new.items) }
{
    match way {
        None => Ok(()),
        Some(way) => placed(alloc, task, draft.on(way), found),
    }
}

fn fronted(
    alloc: Global,
    task: &Task<'_, '_>,
    draft: Draft<'_, '_>,
    front: Result<Text, Reason>,
    found: &mut Vec<Applied>,
) -> Result<(), NoMemory>
    ensures { OnOk result (AddsLed task.now (fronted_by front) draft.entry found.old.items found.new.items) }
{
    match front {
        Err(reason) => outside(draft, reason, found),
        Ok(front) => behind_front(alloc, task, draft, &front, found),
    }
}

/// A text that is put behind nothing stays as it is.
fn behind_front(
    alloc: Global,
    task: &Task<'_, '_>,
    draft: Draft<'_, '_>,
    front: &Text,
    found: &mut Vec<Applied>,
) -> Result<(), NoMemory>
    ensures { OnOk result (AddsLed task.now (fronted_by (Ok front.now)) draft.entry found.old.items found.new.items) }
{
    let front = bytes_of(front);
    if front.is_empty() {
        return placed(alloc, task, draft, found);
    }
    let texts = draft.texts(alloc)?;
    let paths = put_behind(alloc, front, &texts)?;
    let text = free(alloc, paths)?;
    placed(alloc, task, draft.with_text(&text), found)
}

/// With R the text is sent.
#[tactic(auto, using(crate::proofs::Leading::placed_sent, crate::proofs::Leading::placed_left))]
pub(crate) fn placed(
    alloc: Global,
    task: &Task<'_, '_>,
    draft: Draft<'_, '_>,
    found: &mut Vec<Applied>,
) -> Result<(), NoMemory>
    ensures { OnOk result (AddsLed task.now placed_plan draft.entry found.old.items found.new.items) }
{
    if redirects(task.flags) {
        return path_sent(alloc, task, draft, found);
    }
    left(alloc, task, draft, found)
}

/// It is a URL path of the server's, which in a directory is that of a file name.
#[tactic(auto, using(crate::proofs::Leading::sent_alone))]
fn path_sent(
    alloc: Global,
    task: &Task<'_, '_>,
    draft: Draft<'_, '_>,
    found: &mut Vec<Applied>,
) -> Result<(), NoMemory>
    ensures { OnOk result (AddsLed task.now path_sent draft.entry found.old.items found.new.items) }
{
    let Some(engine) = &task.engine else {
        return sent(alloc, task, draft, true, found);
    };
    let _base = base_of(engine); // Its bytes make URL paths texts of bytes.
    let texts = draft.texts(alloc)?;
    let paths = url_paths(alloc, task.root, engine, &texts)?;
    let text = free(alloc, paths)?;
    sent(alloc, task, draft.with_text(&text), true, found)
}

/// RewriteBase, which is of bytes; nothing without it.
pub fn base_of<'f>(engine: &Engine<'f>) -> &'f [u8]
    ensures { IsText (unwrap_or (option_map (λ base. base.now) engine.now.base) []) }
{
    match engine.base {
        Some(base) => bytes_of(base),
        None => &[],
    }
}

/// The bytes of a text.
fn bytes_of(text: &Text) -> &[u8]
    ensures value { result.now ≡ text.now }
    ensures bytes { IsText text.now }
{
    as_text(text.as_bytes())
}

/// Bytes are a text.
fn as_text(bytes: &[u8]) -> &[u8]
    ensures value { result.now ≡ bytes.now }
    ensures bytes { IsText bytes.now }
{
    bytes
}
