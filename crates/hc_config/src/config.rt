ghost use Rattle.std.specs.Prelude.{◌≡◌, ◌==◌, ◌||◌, length, IfOk, OnOk, Err, []};
ghost use Rattle.std.specs.List.{list_any};
ghost use Rattle.hc_base.specs.Gives.{Gives};
ghost use Rattle.hc_base.specs.Rules.{refusal_at};
ghost use Rattle.hc_flat.specs.EntriesView.{entry_of};
ghost use Rattle.hc_config.specs.Configuration.{body_unless_stopped, built, built_override, config_of};
ghost use Rattle.hc_config.specs.Configuration.{gathered_from, has_no_root, is_rootless, no_place};
ghost use Rattle.hc_config.specs.Configuration.{after_entry, rootless, unless_rootless, unless_stopped};
ghost use Rattle.hc_config.specs.LevelViews.{gathered_view, left_by, standing_of};
ghost use Rattle.hc_config.specs.Levels.{nothing_standing};

use crate::among::{Among, place_of};
use crate::effect::Effect;
use crate::gathered::Gathered;
use crate::levels::Standing;
use crate::rules::judge;
use crate::source::Source;
use hc_base::codes::NO_DOCUMENT_ROOT;
use hc_base::{AtByte, Fault, List, NoMemory, Place, Refusal, Text};
use hc_flat::{Entries, EntryView, Flat};
use hc_model::{Allowed, Body, Config, Server};
use std::alloc::Global;
use std::mem::replace;

/// Why a flat list gives no configuration.
pub type BuildFault = Fault<Refusal>;

/// The configuration of a flat list (Apache manual, "Configuration Files").
///
/// The last `DocumentRoot` counts (core), and every alias and redirect in its order (mod_alias). The first
/// entry that breaks a rule is refused, by the smallest (specs/Broken.antt); behind all entries
/// what stopped the reading; and last a list without `DocumentRoot`, at line 0 of the file that
/// reading began with. The order of refusals is our own choice.
#[tactic(auto, unfolding(crate::specs::Configuration::built))]
pub fn build(alloc: Global, flat: &Flat) -> Result<Config, BuildFault>
    ensures { Gives result (built flat.now) }
{
    match gather(alloc, Source::Configuration, &flat.entries) {
        Ok(standing) => finish(alloc, flat, standing.so_far),
        Err(fault) => Err(fault),
    }
}

/// What stands in a `.htaccess` (Apache manual, ".htaccess files"), as in a section of its directory.
///
/// The first entry that breaks a rule is refused, by the smallest (specs/Broken.antt); and behind all
/// entries what stopped the reading. A directive has to be one that may stand in such a file, and its
/// class allowed there (core, AllowOverride).
#[tactic(auto, unfolding(crate::specs::Configuration::built_override))]
pub fn build_override(alloc: Global, flat: &Flat, allowed: Allowed) -> Result<Body, BuildFault>
    ensures { Gives result (built_override flat.now allowed) }
{
    match gather(alloc, Source::Override(allowed), &flat.entries) {
        Ok(standing) => finish_body(flat, standing.so_far),
        Err(fault) => Err(fault),
    }
}

fn finish_body(flat: &Flat, gathered: Gathered) -> Result<Body, BuildFault>
    ensures { Gives result (body_unless_stopped gathered flat.now.stop) }
{
    match &flat.stop {
        Some(refusal) => Err(Fault::Refused(refusal.clone()?)),
        None => Ok(gathered.into_body()),
    }
}

// What stopped the reading comes behind the entries.
fn finish(alloc: Global, flat: &Flat, gathered: Gathered) -> Result<Config, BuildFault>
    ensures { Gives result (unless_stopped flat.now gathered flat.now.stop) }
{
    match &flat.stop {
        Some(refusal) => Err(Fault::Refused(refusal.clone()?)),
        None => finish_rooted(alloc, flat, gathered),
    }
}

// Last comes that there is no document root.
fn finish_rooted(alloc: Global, flat: &Flat, gathered: Gathered) -> Result<Config, BuildFault>
    ensures { Gives result (unless_rootless flat.now gathered) }
{
    if is_rootless(&gathered) {
        return Err(Fault::Refused(rootless(alloc, &flat.file)?));
    }
    Ok(config_of(alloc, flat, gathered)?)
}

fn is_rootless(gathered: &Gathered) -> bool
    ensures { result ≡ is_rootless gathered.now }
{
    gathered.root.is_none() && some_host_lacks_root(gathered.hosts.as_slice())
}

fn some_host_lacks_root(hosts: &[Server]) -> bool
    ensures { result ≡ ((length hosts.now == 0) || list_any has_no_root hosts.now) }
{
    hosts.is_empty() || any_without_root(hosts)
}

fn any_without_root(hosts: &[Server]) -> bool
    ensures { result ≡ list_any has_no_root hosts.now }
{
    hosts.iter().any(|host| host.root.is_none())
}

#[tactic(auto, using(crate::proofs::Places::before_more, crate::proofs::Places::next_place))]
fn gather(alloc: Global, source: Source, entries: &Entries) -> Result<Standing, BuildFault>
    ensures { Gives (gathered_view result) (gathered_from source nothing_standing [] entries.now) }
{
    let mut standing = Standing::nothing(alloc, entries.len());
    for (place, entry) in entries.iter().enumerate() {
        let among = Among {
            alloc,
            source,
            context: standing.context(source),
            container: standing.container(),
            chained: standing.chained,
            wild: standing.is_wild(),
            entries,
            place,
            entry,
        };
        match judge(&among) {
            Ok(effect) => perform(alloc, &mut standing, effect)?,
            Err(Fault::Refused(broken)) => return refused(alloc, entry, broken),
            Err(Fault::NoMemory) => return Err(Fault::NoMemory),
        }
    }
    Ok(standing)
}

// Each entry ends the chain of conditions before it.
fn perform(alloc: Global, standing: &mut Standing, effect: Effect) -> Result<(), BuildFault>
    ensures { Gives (left_by result standing.new) (after_entry (standing_of standing.old) effect) }
{
    standing.chained = false;
    match effect {
        Effect::Nothing => {}
        Effect::Gives(given) => standing.take(given)?,
        Effect::Opens(opening) => standing.open(alloc, opening)?,
        Effect::Closes => standing.close(alloc)?,
        Effect::Holds(holding) => standing.hold(alloc, holding)?,
        Effect::Releases => return standing.release(alloc),
    }
    Ok(())
}

fn refused(alloc: Global, entry: EntryView, broken: AtByte) -> Result<Standing, BuildFault>
    ensures { Gives (gathered_view result) (Err (refusal_at (entry_of entry.entry).spot.place broken)) }
{
    let place = place_of(entry)?;
    Err(Fault::Refused(Refusal::at(alloc, place, broken)))
}

fn rootless(alloc: Global, file: &Text) -> Result<Refusal, NoMemory>
    ensures { IfOk result (λ refusal. refusal ≡ rootless file.now) }
{
    let place = Place {
        file: file.clone()?,
        line: 0,
    };
    Ok(Refusal::at(alloc, place, AtByte::rule(NO_DOCUMENT_ROOT)))
}

#[tactic(auto, unfolding(crate::specs::Configuration::config_of))]
fn config_of(alloc: Global, flat: &Flat, mut gathered: Gathered) -> Result<Config, NoMemory>
    ensures { IfOk result (λ config. config ≡ config_of flat.now gathered) }
{
    let defines = flat.defines.copy()?;
    let modules = flat.modules.copy()?;
    let reads = flat.reads.copy()?;
    let hosts = replace(&mut gathered.hosts, List::new(alloc));
    Ok(Config {
        main: gathered.into_server(alloc, no_place(alloc), List::new(alloc)),
        hosts,
        defines,
        modules,
        reads,
    })
}

fn no_place(alloc: Global) -> Place
    ensures { result ≡ no_place }
{
    Place {
        file: Text::new(alloc),
        line: 0,
    }
}
