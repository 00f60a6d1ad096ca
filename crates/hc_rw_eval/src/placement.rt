//! Where a text that a substitution left leads: to a path of the server's own, or elsewhere (Apache manual,
//! mod_rewrite: RewriteRule, "Substitution"; RewriteBase; "RewriteRule Flags", R).
ghost use Rattle.std.specs.Prelude.{◌≡◌, IfOk, option_map};
ghost use Rattle.hc_rw_eval.specs.Frames.{context_at, shown_at};
ghost use Rattle.hc_rw_eval.specs.Locations.{own_path};
ghost use Rattle.hc_rw_eval.specs.Substitutions.{base_front, dir_front, front_before, front_of, front_placed};
ghost use Rattle.hc_rw_eval.specs.Substitutions.{told_text};
ghost use Rattle.hc_rw_eval.specs.Substitutions.{location_of, own_unless, path_location, path_placed, redirects, sent};
ghost use Rattle.hc_rw_eval.specs.Substitutions.{status_sent};
ghost use Rattle.hc_rw_eval.specs.Substitutions.{stops, text_placed, unless_long, url_placed, with_front, with_path};
ghost use Rattle.hc_rw_expand.specs.Contexts.{context_of, engine_of};
ghost use Rattle.hc_steps.specs.Ran.{Answers, Takes, Tells};
ghost use Rattle.hc_template.specs.Variables.{origin};

use crate::attempt::Rewritten;
use crate::directories::{url_path, with_slash};
use crate::frame::{Frame, Stop};
use crate::locations::{has_scheme, location, own_path};
use crate::substitution::{FOUND, is_long};
use crate::told::tell_text;
use hc_base::paths::begins_with_slash;
use hc_base::{Fault, NoMemory, Text};
use hc_model::{Caller, Flags, Lookups, Outcome, Reason};
use hc_rw_expand::{Engine, RwContext, RwState};
use hc_steps::Log;
use hc_target::is_url;
use hc_template::push_origin;
use std::alloc::Global;

/// R.
pub fn redirects(flags: &Flags) -> bool
    ensures { result ≡ redirects flags.now }
{
    flags.redirect != 0
}

/// The status of a redirect: 302 where R names none.
pub fn status_sent(flags: &Flags) -> u16
    ensures { result ≡ status_sent flags.now }
{
    if redirects(flags) {
        flags.redirect
    } else {
        FOUND
    }
}

/// L or END.
pub fn stops(flags: &Flags) -> bool
    ensures { result ≡ stops flags.now }
{
    flags.last || flags.end
}

// A rule that sends the request elsewhere ends the list, or no rule follows it.
#[tactic(auto, unfolding(crate::specs::Substitutions::sent), using(hc_steps::proofs::Going::telling))]
fn sent(flags: &Flags, followed: bool, location: Text) -> Result<Rewritten, Stop>
    ensures { Answers result (sent flags.now followed location) }
{
    if followed && !stops(flags) {
        return Err(Fault::Refused(Outcome::Outside(Reason::Scheme)));
    }
    Err(Fault::Refused(Outcome::Redirect {
        status: status_sent(flags),
        location,
    }))
}

// The location that a text is, behind what is not escaped.
fn location_of(
    context: &RwContext<'_>,
    flags: &Flags,
    front: Vec<u8>,
    state: &RwState,
) -> Result<Text, NoMemory>
    ensures { IfOk result (λ location. location
        ≡ location_of (context_of context.now) flags.now front.items state.now) }
{
    location(
        flags.noescape,
        front,
        state.text.as_bytes(),
        context.first_query.as_bytes(),
        state.query.as_bytes(),
    )
}

#[tactic(auto, unfolding(crate::specs::Substitutions::told_text), using(hc_steps::proofs::Going::telling))]
fn told_text(log: &mut Log, state: RwState) -> Result<Rewritten, Stop>
    ensures { Tells result log (told_text state) }
{
    tell_text(log, &state)?;
    Ok(Rewritten {
        state,
        substituted: true,
    })
}

// A URL of the server's own loses its scheme and name.
#[tactic(auto, unfolding(crate::specs::Substitutions::url_placed), using(hc_steps::proofs::Going::telling))]
fn url_placed<P: Lookups>(
    frame: &Frame<'_, P>,
    log: &mut Log,
    flags: &Flags,
    followed: bool,
    state: RwState,
    path: Option<Text>,
) -> Result<Rewritten, Stop>
    ensures { Takes result log (url_placed (context_at frame.now) flags.now followed state path) (shown_at frame.now) }
{
    let Some(text) = path else {
        let front = Vec::new(log.allocator());
        let location = location_of(frame.context, flags, front, &state)?;
        return sent(flags, followed, location);
    };
    told_text(log, RwState { text, ..state })
}

// With R a URL of the server's own is a URL like others.
fn own_unless(
    alloc: Global,
    redirects: bool,
    caller: &Caller,
    text: &[u8],
) -> Result<Option<Text>, NoMemory>
    ensures { IfOk result (λ path. path ≡ own_unless redirects (own_path caller.now text.now)) }
{
    if redirects {
        return Ok(None);
    }
    own_path(alloc, caller, text)
}

fn origin(alloc: Global, caller: &Caller) -> Result<Vec<u8>, NoMemory>
    ensures { IfOk result (λ front. front.items ≡ origin caller.now) }
{
    let mut front = Vec::new(alloc);
    push_origin(&mut front, caller)?;
    Ok(front)
}

// A redirect is put behind RewriteBase; without one it is outside.
fn base_front(alloc: Global, base: Option<&Text>) -> Result<Result<Text, Reason>, NoMemory>
    ensures { IfOk result (λ front. front ≡ base_front (option_map (λ base. base.now) base.entry)) }
{
    match base {
        Some(base) => Ok(Ok(Text::from(with_slash(alloc, base.as_bytes())?))),
        None => Ok(Err(Reason::RelativeRedirect)),
    }
}

// Without RewriteBase a text in a directory that does not come from the document root is outside.
fn dir_front(alloc: Global, engine: &Engine<'_>) -> Result<Result<Text, Reason>, NoMemory>
    ensures { IfOk result (λ front. front ≡ dir_front (engine_of engine.now)) }
{
    if engine.aliased && engine.base.is_none() {
        return Ok(Err(Reason::RelativeUnderAlias));
    }
    Ok(Ok(Text::from(with_slash(alloc, engine.dir.as_bytes())?)))
}

/// What a relative text is put behind, by whether R is there; a reason where that is outside.
pub fn front_of(
    alloc: Global,
    engine: &Option<Engine<'_>>,
    redirected: bool,
) -> Result<Result<Text, Reason>, NoMemory>
    ensures { IfOk result (λ front. front ≡ front_of (option_map engine_of engine.now) redirected) }
{
    match engine {
        Some(engine) if redirected => base_front(alloc, engine.base),
        Some(engine) => dir_front(alloc, engine),
        None if redirected => Ok(Err(Reason::RelativeRedirect)),
        None => Ok(Ok(Text::new(alloc))),
    }
}

fn front_before(
    alloc: Global,
    engine: &Option<Engine<'_>>,
    redirected: bool,
    text: &[u8],
) -> Result<Result<Text, Reason>, NoMemory>
    ensures { IfOk result (λ front.
        front ≡ front_before (option_map engine_of engine.now) redirected text.now) }
{
    if begins_with_slash(text) {
        return Ok(Ok(Text::new(alloc)));
    }
    front_of(alloc, engine, redirected)
}

fn with_front(front: Text, state: RwState) -> Result<RwState, NoMemory>
    ensures { IfOk result (λ left. left ≡ with_front front state) }
{
    if front.as_bytes().is_empty() {
        return Ok(state);
    }
    let mut text = front.into_vec();
    text.extend_from_slice(state.text.as_bytes())?;
    Ok(RwState {
        text: Text::from(text),
        ..state
    })
}

// In a directory the text is a file name.
fn with_path(alloc: Global, context: &RwContext<'_>, state: RwState) -> Result<RwState, NoMemory>
    ensures { IfOk result (λ left. left ≡ with_path (context_of context.now) state) }
{
    let Some(engine) = &context.engine else {
        return Ok(state);
    };
    let text = url_path(alloc, context.root, engine, state.text.as_bytes())?;
    Ok(RwState { text, ..state })
}

// The server's own name and the path.
fn path_location(
    alloc: Global,
    context: &RwContext<'_>,
    flags: &Flags,
    state: RwState,
) -> Result<Text, NoMemory>
    ensures { IfOk result (λ location.
        location ≡ path_location (context_of context.now) flags.now state) }
{
    let front = origin(alloc, context.caller)?;
    let state = with_path(alloc, context, state)?;
    location_of(context, flags, front, &state)
}

#[tactic(auto, unfolding(crate::specs::Substitutions::path_placed), using(hc_steps::proofs::Going::telling))]
fn path_placed<P: Lookups>(
    frame: &Frame<'_, P>,
    log: &mut Log,
    flags: &Flags,
    followed: bool,
    state: RwState,
) -> Result<Rewritten, Stop>
    ensures { Takes result log (path_placed (context_at frame.now) flags.now followed state) (shown_at frame.now) }
{
    if !redirects(flags) {
        return told_text(log, state);
    }
    let location = path_location(log.allocator(), frame.context, flags, state)?;
    sent(flags, followed, location)
}

#[tactic(auto, unfolding(crate::specs::Substitutions::front_placed), using(hc_steps::proofs::Going::telling))]
fn front_placed<P: Lookups>(
    frame: &Frame<'_, P>,
    log: &mut Log,
    flags: &Flags,
    followed: bool,
    state: RwState,
    front: Result<Text, Reason>,
) -> Result<Rewritten, Stop>
    ensures { Takes result log (front_placed (context_at frame.now) flags.now followed state front)
        (shown_at frame.now) }
{
    match front {
        Ok(front) => path_placed(frame, log, flags, followed, with_front(front, state)?),
        Err(reason) => Err(Fault::Refused(Outcome::Outside(reason))),
    }
}

#[tactic(auto, unfolding(crate::specs::Substitutions::text_placed), using(hc_steps::proofs::Going::telling))]
fn text_placed<P: Lookups>(
    frame: &Frame<'_, P>,
    log: &mut Log,
    flags: &Flags,
    followed: bool,
    state: RwState,
) -> Result<Rewritten, Stop>
    ensures { Takes result log (text_placed (context_at frame.now) flags.now followed state) (shown_at frame.now) }
{
    if is_url(state.text.as_bytes()) {
        let caller = frame.context.caller;
        let path = own_unless(
            log.allocator(),
            redirects(flags),
            caller,
            state.text.as_bytes(),
        )?;
        return url_placed(frame, log, flags, followed, state, path);
    }
    if has_scheme(state.text.as_bytes()) {
        return Err(Fault::Refused(Outcome::Outside(Reason::Scheme)));
    }
    let front = front_before(
        log.allocator(),
        &frame.context.engine,
        redirects(flags),
        state.text.as_bytes(),
    )?;
    front_placed(frame, log, flags, followed, state, front)
}

/// Where the text of a state leads, unless it or the query is too long.
#[tactic(auto, unfolding(crate::specs::Substitutions::unless_long), using(hc_steps::proofs::Going::telling))]
pub(crate) fn unless_long<P: Lookups>(
    frame: &Frame<'_, P>,
    log: &mut Log,
    flags: &Flags,
    followed: bool,
    state: RwState,
) -> Result<Rewritten, Stop>
    ensures { Takes result log (unless_long (context_at frame.now) flags.now followed state) (shown_at frame.now) }
{
    if is_long(state.text.as_bytes()) || is_long(state.query.as_bytes()) {
        return Err(Fault::Refused(Outcome::Outside(Reason::LongText)));
    }
    text_placed(frame, log, flags, followed, state)
}
