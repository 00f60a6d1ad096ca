//! What a rule that matches does: its variables, its status and its substitution (Apache manual, mod_rewrite,
//! RewriteRule; "RewriteRule Flags").
ghost use Rattle.std.specs.Prelude.{◌≡◌, IfOk};
ghost use Rattle.hc_rw_eval.specs.Frames.{context_at, looks_at, shown_at};
ghost use Rattle.hc_rw_eval.specs.Substitutions.{applied, info_left, is_long, redirect_status, status_of, substituted};
ghost use Rattle.hc_rw_eval.specs.Substitutions.{text_made, unless_answered, with_text};
ghost use Rattle.hc_steps.specs.Ran.{Takes};

use crate::attempt::Rewritten;
use crate::frame::{Frame, Stop, filled};
use crate::placement::unless_long;
use crate::variables::variables_set;
use hc_base::{Fault, NoMemory, Text};
use hc_model::{Flags, Lookups, Outcome, Rule};
use hc_rw_expand::{RwState, Split, split_query};
use hc_steps::Log;
use hc_target::is_redirection;
use std::alloc::Global;

/// F.
pub const FORBIDDEN: u16 = 403;

/// G.
pub const GONE: u16 = 410;

/// The status of a redirect that no flag names.
pub const FOUND: u16 = 302;

/// The most bytes of a text, a query and the value of a variable. Our own choice.
pub const LONGEST_TEXT: usize = 8_190;

/// The text is longer than rules may make one.
pub(crate) fn is_long(text: &[u8]) -> bool
    ensures { result ≡ is_long text.now }
{
    text.len() > LONGEST_TEXT
}

// The status of R that is no redirect.
fn redirect_status(status: u16) -> Option<u16>
    ensures { result ≡ redirect_status status }
{
    if status == 0 || is_redirection(status) {
        None
    } else {
        Some(status)
    }
}

/// The status that a rule answers with: F, G, or R with one that is no redirect.
pub fn status_of(flags: &Flags) -> Option<u16>
    ensures { result ≡ status_of flags.now }
{
    if flags.forbid {
        return Some(FORBIDDEN);
    }
    if flags.gone {
        return Some(GONE);
    }
    redirect_status(flags.redirect)
}

// DPI drops the path information.
fn info_left(alloc: Global, discard: bool, info: Text) -> Text
    ensures { result ≡ info_left discard info }
{
    if discard { Text::new(alloc) } else { info }
}

fn with_text(alloc: Global, flags: &Flags, state: RwState, text: &Text) -> Result<RwState, NoMemory>
    ensures { IfOk result (λ left. left ≡ with_text flags.now state text.now) }
{
    let Split { text, query } = split_query(alloc, text, &state.query, flags.qsa, flags.qsd)?;
    Ok(RwState {
        text,
        query,
        info: info_left(alloc, flags.discard, state.info),
        ..state
    })
}

#[tactic(auto, unfolding(crate::specs::Substitutions::text_made), using(crate::proofs::Leading::stepping))]
fn text_made<P: Lookups>(
    frame: &Frame<'_, P>,
    log: &mut Log,
    flags: &Flags,
    followed: bool,
    state: RwState,
    text: Text,
) -> Result<Rewritten, Stop>
    ensures { Takes result log (text_made (context_at frame.now) flags.now followed state text) (shown_at frame.now) }
{
    let state = with_text(log.allocator(), flags, state, &text)?;
    unless_long(frame, log, flags, followed, state)
}

// With `-` all stays.
#[tactic(auto, unfolding(crate::specs::Substitutions::substituted), using(crate::proofs::Leading::stepping))]
fn substituted<P: Lookups>(
    frame: &Frame<'_, P>,
    log: &mut Log,
    rule: &Rule,
    followed: bool,
    before: Rewritten,
) -> Result<Rewritten, Stop>
    ensures { Takes result log (substituted (context_at frame.now)
        (looks_at P.files P.values frame.now) rule.now.flags followed before rule.now.subst) (shown_at frame.now) }
{
    let Some(template) = &rule.subst else {
        return Ok(before);
    };
    let text = filled(frame, log, &before.state, template)?;
    text_made(frame, log, &rule.flags, followed, before.state, text)
}

#[tactic(auto, unfolding(crate::specs::Substitutions::unless_answered), using(hc_steps::proofs::Going::telling))]
fn unless_answered<P: Lookups>(
    frame: &Frame<'_, P>,
    log: &mut Log,
    rule: &Rule,
    followed: bool,
    before: Rewritten,
) -> Result<Rewritten, Stop>
    ensures { Takes result log (unless_answered (context_at frame.now)
        (looks_at P.files P.values frame.now) rule.now followed before (status_of rule.now.flags))
        (shown_at frame.now) }
{
    match status_of(&rule.flags) {
        Some(status) => Err(Fault::Refused(Outcome::Status(status))),
        None => substituted(frame, log, rule, followed, before),
    }
}

/// What a rule that matches does; `followed` says whether a rule stands behind it.
#[tactic(auto, unfolding(crate::specs::Substitutions::applied), using(crate::proofs::Leading::stepping))]
pub(crate) fn applied<P: Lookups>(
    frame: &Frame<'_, P>,
    log: &mut Log,
    rule: &Rule,
    followed: bool,
    before: Rewritten,
) -> Result<Rewritten, Stop>
    ensures { Takes result log (applied (context_at frame.now)
        (looks_at P.files P.values frame.now) rule.now followed before) (shown_at frame.now) }
{
    let Rewritten { state, substituted } = before;
    let state = variables_set(frame, log, state, rule.flags.sets.as_slice())?;
    let before = Rewritten { state, substituted };
    unless_answered(frame, log, rule, followed, before)
}
