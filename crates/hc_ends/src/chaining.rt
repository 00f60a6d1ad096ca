//! The chains of the requests of a scope, depth first.
ghost use Rattle.std.specs.Prelude.{◌≡◌, ◌≤◌, ◌-◌, IfOk};
ghost use Rattle.std.specs.List.{list_any};
ghost use Rattle.hc_claim.specs.Ending.{ends_out};
ghost use Rattle.hc_ends.specs.Asking.{methods_behind, next_scope};
ghost use Rattle.hc_ends.specs.Chains.{AreAt, ChainsIn, caller_of, is_outward, is_own, to};
ghost use Rattle.hc_ends.specs.Finding.{AreFurther, AtLeaf, AtStage, Finds, Onward};
ghost use Rattle.hc_ends.specs.Lending.{site_of};
ghost use Rattle.hc_model.specs.declared.request.Caller.{Caller as OwnCaller};
ghost use Rattle.hc_serve.specs.Lent.{Lends, Returns};

use crate::chains::Chains;
use crate::finding::{Before, Found, Halt, TooMany, decided};
use crate::sending::{Sent, sent_at};
use crate::walking::walk;
use hc_abs_leaves::{Leaf, LeafEnd};
use hc_base::{Fault, List, NoMemory, Text};
use hc_claim::{is_left_outside, is_ruled_outside};
use hc_dfa::Dfa;
use hc_follow::{Origin, SEE_OTHER};
use hc_model::{Caller, Overrides};
use hc_scope::Scope;
use hc_sent::{Led, Reach, leads, reached};
use std::alloc::Global;

/// The requests of a scope, behind others of their chains, where so many redirects may still be followed.
#[derive(Clone, Copy)]
pub(crate) struct Stage<'s> {
    pub(crate) chains: Chains<'s>,
    pub(crate) scope: &'s Scope,
    pub(crate) before: Before<'s>,
    pub(crate) left: u32,
}

/// Adds the ends of the chains.
#[cycle(chain)]
pub(crate) fn add_chains<O: Overrides>(
    alloc: Global,
    stage: Stage<'_>,
    over: &mut O,
    found: &mut Found,
) -> Result<(), Halt>
    requires over { Lends O.reading O.size (O.fixed over.old) stage.chains.world.now.files stage.chains.config.now }
    ensures found { AtStage stage.entry (λ levels before. Finds
        (λ cut. ChainsIn (site_of stage.entry.chains) cut levels stage.entry.left stage.entry.scope.now before)
        found.old found.new result) }
    ensures over { Returns O.fixed O.loaded over }
{
    let Some(walked) = walk(alloc, stage.chains, stage.scope, found.left, over)? else {
        return Err(Fault::Refused(TooMany));
    };
    for leaf in walked.leaves.as_slice() {
        add_leaf(alloc, stage, walked.tests.caller(), leaf, over, found)?;
    }
    Ok(())
}

/// Adds those at a leaf.
#[cycle(chain)]
fn add_leaf<O: Overrides>(
    alloc: Global,
    stage: Stage<'_>,
    caller: &Caller,
    leaf: &Leaf,
    over: &mut O,
    found: &mut Found,
) -> Result<(), Halt>
    requires over { Lends O.reading O.size (O.fixed over.old) stage.chains.world.now.files stage.chains.config.now }
    requires caller { caller.now ≡ caller_of (site_of stage.chains) stage.scope.now }
    ensures found { AtLeaf stage.entry caller.now leaf.now (λ levels before own. Finds
        (λ cut. AreAt (site_of stage.entry.chains) cut levels stage.entry.scope.now before own
        (Onward (site_of stage.entry.chains) cut levels stage.entry.left stage.entry.scope.now before own))
        found.old found.new result) }
    ensures over { Returns O.fixed O.loaded over }
{
    match sent_at(alloc, caller, leaf)? {
        None => found.end(alloc, stage.before, leaf, is_out(&leaf.end)),
        Some(sent) => add_sent(alloc, stage, leaf, &sent, over, found),
    }
}

fn is_out(end: &LeafEnd) -> bool
    ensures { result ≡ ends_out end.now }
{
    match end {
        LeafEnd::Stopped(left) => is_left_outside(left),
        LeafEnd::Ruled(next) => is_ruled_outside(next),
    }
}

/// Adds those behind a redirect, and its own.
#[cycle(chain)]
fn add_sent<O: Overrides>(
    alloc: Global,
    stage: Stage<'_>,
    leaf: &Leaf,
    sent: &Sent,
    over: &mut O,
    found: &mut Found,
) -> Result<(), Halt>
    requires over { Lends O.reading O.size (O.fixed over.old) stage.chains.world.now.files stage.chains.config.now }
    ensures found { (caller : OwnCaller) → AtLeaf stage.entry caller leaf.now (λ levels before own. Finds
        (λ cut. Onward (site_of stage.entry.chains) cut levels stage.entry.left stage.entry.scope.now before own
        (to sent.now.status sent.now.parts.items)) found.old found.new result) }
    ensures over { Returns O.fixed O.loaded over }
{
    let parts = sent.parts.as_slice();
    if stage.left == 0 {
        let reached = reached(alloc, stage.chains.hosts, parts)?;
        return found.end(alloc, stage.before, leaf, has_own(reached.as_slice()));
    }
    let leds = leads(alloc, stage.chains.hosts, parts)?;
    let leds = leds.as_slice();
    add_leds(alloc, stage, leaf, sent.status, leds, over, found)?;
    found.end(alloc, stage.before, leaf, has_outward(leds))
}

/// An own server is one of these.
fn has_own(reached: &[Reach]) -> bool
    ensures { result ≡ list_any is_own reached.now }
{
    reached.iter().any(|reach| matches!(reach, Reach::Own))
}

/// One of these is outside.
fn has_outward(leds: &[Led]) -> bool
    ensures { result ≡ list_any is_outward leds.now }
{
    leds.iter().any(|led| matches!(led, Led::Outside))
}

/// Adds those behind what a location leads to.
#[cycle(chain)]
fn add_leds<O: Overrides>(
    alloc: Global,
    stage: Stage<'_>,
    leaf: &Leaf,
    status: u16,
    leds: &[Led],
    over: &mut O,
    found: &mut Found,
) -> Result<(), Halt>
    requires over { Lends O.reading O.size (O.fixed over.old) stage.chains.world.now.files stage.chains.config.now }
    requires left { 1 ≤ stage.left }
    ensures found { (caller : OwnCaller) → AtLeaf stage.entry caller leaf.now (λ levels before own. Finds
        (λ cut. AreFurther (site_of stage.entry.chains) cut levels (stage.entry.left - 1) stage.entry.scope.now before
        own status leds.now) found.old found.new result) }
    ensures over { Returns O.fixed O.loaded over }
{
    let decisions = decided(alloc, stage.before, leaf)?;
    let before = Before {
        decisions: decisions.as_slice(),
        first: Some(stage.before.first_at(leaf)),
    };
    for led in leds {
        let Led::On {
            origin,
            paths,
            queries,
        } = led
        else {
            continue;
        };
        let scope = next_scope(alloc, stage.scope, status, origin, paths, queries)?;
        let next = Stage {
            chains: stage.chains,
            scope: &scope,
            before,
            left: stage.left - 1,
        };
        add_chains(alloc, next, over, found)?;
    }
    Ok(())
}

/// The requests that follow a redirect of this status to an own server, with these paths and queries.
fn next_scope(
    alloc: Global,
    scope: &Scope,
    status: u16,
    origin: &Origin,
    paths: &Dfa,
    queries: &Dfa,
) -> Result<Scope, NoMemory>
    ensures { IfOk result (λ next. next ≡ next_scope scope.now status origin.now paths.now queries.now) }
{
    Ok(Scope {
        scheme: origin.scheme,
        server: scope.server,
        port: origin.port,
        host: origin.host.clone()?,
        client: scope.client,
        methods: methods_behind(alloc, status, scope)?,
        path: paths.clone()?,
        query: queries.clone()?,
    })
}

fn methods_behind(alloc: Global, status: u16, scope: &Scope) -> Result<List<Text>, NoMemory>
    ensures { IfOk result (λ methods. methods ≡ methods_behind status scope.now.methods) }
{
    if status != SEE_OTHER {
        return scope.methods.copy();
    }
    let mut methods = List::new(alloc);
    methods.push(Text::copy_of(alloc, b"GET")?)?;
    Ok(methods)
}
