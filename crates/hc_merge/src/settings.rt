ghost use Rattle.std.specs.Prelude.{◌≡◌, ◌++◌, map, IfOk};
ghost use Rattle.std.specs.List.{fold, list_any};
ghost use Rattle.std.specs.Option.{option_map};
ghost use Rattle.hc_merge.specs.CandidateView.{candidate_of, candidates_of};
ghost use Rattle.hc_merge.specs.Candidates.{servers_merged};
ghost use Rattle.hc_merge.specs.Overriding.{AreLoaded, files_read, wanted_by};
ghost use Rattle.hc_merge.specs.RewritingView.{rules_in};
ghost use Rattle.hc_merge.specs.Settings as definition;
ghost use Rattle.hc_merge.specs.Settings.{event_of, follows, is_among, is_on, merged, on_after, on_at_sections};
ghost use Rattle.hc_merge.specs.Settings.{on_at_servers, redirects_of, require_of, still_on};
ghost use Rattle.hc_model.specs.Joined.{joined_behind};
ghost use Rattle.hc_vhost.specs.Servers.{IsHostOf};

use crate::candidate::Candidate;
use crate::order::ordered_sections;
use crate::reaching::kept_by;
use crate::rewriting::rewriting_of;
use hc_authz::join;
use hc_base::{List, NoMemory, Text};
use hc_model::{
    Config, Effective, Event, HostId, Merging, OptStep, Overrides, Redirect, ReqTree, Requirement,
    Rule, Rules, View, Walk,
};
use hc_table::OptionName;
use hc_vhost::server_at;
use std::alloc::Global;
use std::collections::VecDeque;

/// What is in force for a file name, rewriting too: the sections that apply, merged (Apache manual, "How the
/// sections are merged"). The `.htaccess` of each directory of the walk in which something is allowed has to
/// be loaded.
pub fn effective<O: Overrides>(
    alloc: Global,
    config: &Config,
    host: HostId,
    walk: &Walk,
    view: &View,
    over: &O,
) -> Result<Effective, NoMemory>
    requires host { IsHostOf config.now host }
    requires loaded { AreLoaded (O.loaded over.now) (wanted_by config.now host walk.now.dirs) }
    ensures { IfOk result (λ effective. effective
        ≡ definition.effective config.now host walk.now view.now (files_read (O.reading (O.fixed over.now)))) }
{
    let sections = ordered_sections(alloc, config, host, walk, over)?;
    let kept = kept_by(alloc, view, &sections)?;
    merge_sections(alloc, config, host, &kept)
}

/// What these sections set, one behind another: each Options line, redirects, of which a later section's
/// come first, and what of mod_rewrite is in force behind them.
pub fn merge_sections(
    alloc: Global,
    config: &Config,
    host: HostId,
    kept: &[Candidate<'_>],
) -> Result<Effective, NoMemory>
    requires { IsHostOf config.now host }
    ensures { IfOk result (λ effective. effective ≡ merged config.now host (map candidate_of kept.now)) }
{
    let rewriting = rewriting_of(alloc, kept)?;
    let dir = copied(rewriting.dir)?;
    let base = copied(rewriting.base)?;
    let rules = rules_of(alloc, &rewriting.rules)?;
    let redirects = redirects_of(alloc, kept)?;
    let sections = events_of(alloc, kept)?;
    let require = require_of(alloc, kept)?;
    Ok(Effective {
        follow: follows(config, host, kept),
        require,
        engine: rewriting.engine,
        dir,
        base,
        rules,
        redirects,
        sections,
    })
}

// FollowSymLinks is on at the start.
fn follows(config: &Config, host: HostId, kept: &[Candidate<'_>]) -> bool
    requires { IsHostOf config.now host }
    ensures { result ≡ follows (servers_merged config.now host) (map candidate_of kept.now) }
{
    is_on(OptionName::FollowSymLinks, true, config, host, kept)
        || is_on(OptionName::SymLinksIfOwnerMatch, false, config, host, kept)
}

fn is_on(
    option: OptionName,
    on: bool,
    config: &Config,
    host: HostId,
    kept: &[Candidate<'_>],
) -> bool
    requires { IsHostOf config.now host }
    ensures { result ≡ is_on option on (servers_merged config.now host) (map candidate_of kept.now) }
{
    let on = on_at_servers(option, on, config, host);
    on_at_sections(option, on, kept)
}

fn on_at_servers(option: OptionName, on: bool, config: &Config, host: HostId) -> bool
    requires { IsHostOf config.now host }
    ensures { result ≡ on_at_servers option on (servers_merged config.now host) }
{
    let on = on_after(option, on, config.main.body.options.as_slice());
    match host {
        HostId::Main => on,
        HostId::Nth(_) => on_after(option, on, server_at(config, host).body.options.as_slice()),
    }
}

fn on_at_sections(option: OptionName, on: bool, kept: &[Candidate<'_>]) -> bool
    ensures { result ≡ on_at_sections option on (map candidate_of kept.now) }
{
    let mut on = on;
    for candidate in kept {
        on = on_after(option, on, candidate.body.options.as_slice());
    }
    on
}

fn on_after(option: OptionName, on: bool, steps: &[OptStep]) -> bool
    ensures { result ≡ on_after option on steps.now }
{
    let mut on = on;
    for step in steps {
        on = still_on(option, on, step);
    }
    on
}

fn still_on(option: OptionName, on: bool, step: &OptStep) -> bool
    ensures { result ≡ still_on option on step.now }
{
    is_among(option, step.add.as_slice())
        || (on && !step.replace && !is_among(option, step.take.as_slice()))
}

fn is_among(option: OptionName, options: &[OptionName]) -> bool
    ensures { result ≡ is_among option options.now }
{
    options.iter().any(|other| option == *other)
}

fn require_of(alloc: Global, kept: &[Candidate<'_>]) -> Result<Requirement, NoMemory>
    ensures { IfOk result (λ require. require ≡ require_of (map candidate_of kept.now)) }
{
    let mut require = Requirement::none(alloc);
    for candidate in kept {
        require = joined_behind(require, &candidate.body.require, candidate.body.merging)?;
    }
    Ok(require)
}

// A section without Require changes nothing.
fn joined_behind(
    before: Requirement,
    own: &Option<ReqTree>,
    how: Merging,
) -> Result<Requirement, NoMemory>
    ensures { IfOk result (λ require. require ≡ joined_behind before own.now how) }
{
    match own {
        Some(tree) => join(before, tree.clone()?, how),
        None => Ok(before),
    }
}

// A later section's come first.
fn redirects_of(alloc: Global, kept: &[Candidate<'_>]) -> Result<List<Redirect>, NoMemory>
    ensures { IfOk result (λ redirects. redirects ≡ redirects_of (map candidate_of kept.now)) }
{
    let mut redirects = List::new(alloc);
    for done in 0..kept.len() {
        let body = kept[kept.len() - 1 - done].body;
        redirects = behind(redirects, body.redirects.as_slice())?;
    }
    Ok(redirects)
}

// The rules of lists, one behind another. One list alone is shared.
fn rules_of(alloc: Global, lists: &VecDeque<&Rules>) -> Result<Rules, NoMemory>
    ensures { IfOk result (λ rules. rules ≡ rules_in lists.now.items) }
{
    match lists.len() {
        0 => Ok(Rules::new()),
        1 => lists[0].clone(),
        _ => Rules::shared(alloc, gathered(alloc, lists)?),
    }
}

fn gathered(alloc: Global, lists: &VecDeque<&Rules>) -> Result<List<Rule>, NoMemory>
    ensures { IfOk result (λ rules. rules ≡ rules_in lists.now.items) }
{
    let mut rules = List::new(alloc);
    for list in lists.iter() {
        rules = behind(rules, list.as_slice())?;
    }
    Ok(rules)
}

fn behind<T: Clone + Drop>(mut list: List<T>, more: &[T]) -> Result<List<T>, NoMemory>
    requires { (x y : T) → T.is_clone x y → y ≡ x }
    ensures { IfOk result (λ all. all ≡ list ++ more.now) }
{
    for item in more {
        list.push(item.clone()?)?;
    }
    Ok(list)
}

fn copied(text: Option<&Text>) -> Result<Option<Text>, NoMemory>
    ensures { IfOk result (λ copy. copy ≡ option_map (λ text. text.now) text.entry) }
{
    match text {
        Some(text) => Ok(Some(text.clone()?)),
        None => Ok(None),
    }
}

fn events_of(alloc: Global, kept: &[Candidate<'_>]) -> Result<List<Event>, NoMemory>
    ensures { IfOk result (λ events. events ≡ map event_of (map candidate_of kept.now)) }
{
    let mut events = List::new(alloc);
    for candidate in kept {
        events.push(event_of(alloc, candidate)?)?;
    }
    Ok(events)
}

fn event_of(alloc: Global, candidate: &Candidate<'_>) -> Result<Event, NoMemory>
    ensures { IfOk result (λ event. event ≡ event_of (candidate_of candidate.now)) }
{
    Ok(Event::Section {
        spot: candidate.origin.spot(alloc)?,
    })
}
