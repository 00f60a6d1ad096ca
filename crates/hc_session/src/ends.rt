//! Whether chains of redirects end is decided under the configuration that is kept.
ghost use Rattle.std.specs.Prelude.{◌≡◌, IfOk, None, Ok};
ghost use Rattle.hc_absolute.specs.Absolute.{AreAbsolute};
ghost use Rattle.hc_ends.specs.Asking.{HaveNames};
ghost use Rattle.hc_ends.specs.Deciding.{Answers, Runs};
ghost use Rattle.hc_ends.specs.Holding.{Holds};
ghost use Rattle.hc_json.specs.CommandView.{scope_view};
ghost use Rattle.hc_kept.specs.Files.{AreFilesOf};
ghost use Rattle.hc_kept.specs.Site.{IsSiteOf};
ghost use Rattle.hc_session.specs.Ending.{CountsFollowed, EndsUnder, SaysOfEnds, site_under};
ghost use Rattle.hc_session.specs.Stating.{HasSets, IsConfiguration, Replies, chained_at, chained_in, sets_of_ending};
ghost use Rattle.hc_stated.specs.Stated.{IsScope, bad_pattern};

use crate::deciding::Scene;
use crate::replies::{ended, no_pattern, refusing};
use crate::stepped::Stepped;
use hc_base::{Counter, Fault, NoMemory};
use hc_ends::{Chains, DecidedEnds, decide_ends};
use hc_follow::Origin;
use hc_json::{ClaimForm, ScopeForm};
use hc_kept::{CachedFiles, CachedOverrides, KeptFiles, Site};
use hc_scope::Scope;
use hc_stated::{SetForms, state};
use hc_world::World;
use std::alloc::Global;
use std::sync::ledger::Ledger;

/// The own servers whose redirects are followed, and the scope as it is written, with its sets.
#[derive(Clone, Copy)]
pub(crate) struct Ending<'f> {
    pub(crate) hosts: &'f [Origin],
    pub(crate) scope: ScopeForm<'f>,
    pub(crate) sets: &'f SetForms,
}

/// Decides whether chains end under what the main file was read as.
pub(crate) fn ends_at<E: Ledger, L: Ledger>(
    alloc: Global,
    world: &World,
    site: &mut Site,
    ending: Ending<'_>,
    limit: u32,
    evals: &mut Counter<E>,
    bytes: &mut Counter<L>,
) -> Result<Stepped, NoMemory>
    requires sets { HasSets ending }
    requires named { HaveNames ending.hosts.now }
    requires site { IsSiteOf world.now site.old }
    requires built { IsConfiguration site.old.built }
    ensures says { IfOk result (Replies (EndsUnder (chained_in world.now.files limit ending.entry)
        (sets_of_ending ending.entry) site.old.built)) }
    ensures evals { CountsFollowed (chained_in world.now.files limit ending.entry) site.old.built
        evals.old evals.new }
    ensures site { IsSiteOf world.now site.new }
    ensures main { site.new.main ≡ site.old.main }
{
    match &site.built {
        Ok(config) => {
            let scene = Scene {
                world,
                config,
                lines: &site.lines,
                limit,
            };
            ends_under(alloc, scene, &mut site.files, ending, evals, bytes)
        }
        Err(refusal) => refusing(alloc, refusal),
    }
}

// Under a configuration.
fn ends_under<E: Ledger, L: Ledger>(
    alloc: Global,
    scene: Scene<'_>,
    files: &mut KeptFiles,
    ending: Ending<'_>,
    evals: &mut Counter<E>,
    bytes: &mut Counter<L>,
) -> Result<Stepped, NoMemory>
    requires sets { HasSets ending }
    requires named { HaveNames ending.hosts.now }
    requires absolute { AreAbsolute scene.config.now }
    requires files { AreFilesOf scene.world.now scene.config.now files.old }
    ensures says { IfOk result (Replies (SaysOfEnds (chained_at scene.entry ending.entry) scene.entry.config.now
        (sets_of_ending ending.entry) (bad_pattern (sets_of_ending ending.entry)))) }
    ensures evals { CountsFollowed (chained_at scene.entry ending.entry) (Ok scene.entry.config.now)
        evals.old evals.new }
    ensures files { AreFilesOf scene.entry.world.now scene.entry.config.now files.new }
{
    match state(alloc, ClaimForm::Stops, ending.scope, ending.sets) {
        Ok(stated) => answer(alloc, scene, files, ending, &stated.scope, evals, bytes),
        Err(Fault::Refused(bad)) => no_pattern(alloc, bad),
        Err(Fault::NoMemory) => Err(NoMemory),
    }
}

// With the sets made. The `.htaccess` files that it looks at are read where they are not kept, and kept.
fn answer<E: Ledger, L: Ledger>(
    alloc: Global,
    scene: Scene<'_>,
    files: &mut KeptFiles,
    ending: Ending<'_>,
    scope: &Scope,
    evals: &mut Counter<E>,
    bytes: &mut Counter<L>,
) -> Result<Stepped, NoMemory>
    requires sets { HasSets ending }
    requires scope { IsScope (scope_view ending.scope) (sets_of_ending ending) scope.now }
    requires named { HaveNames ending.hosts.now }
    requires absolute { AreAbsolute scene.config.now }
    requires files { AreFilesOf scene.world.now scene.config.now files.old }
    ensures says { IfOk result (Replies (SaysOfEnds (chained_at scene.entry ending.entry) scene.entry.config.now
        (sets_of_ending ending.entry) None)) }
    ensures evals { CountsFollowed (chained_at scene.entry ending.entry) (Ok scene.entry.config.now)
        evals.old evals.new }
    ensures files { AreFilesOf scene.entry.world.now scene.entry.config.now files.new }
{
    let Scene { world, config, .. } = scene;
    let mut cached = CachedFiles::new(alloc, config, world, files);
    let answer = answer_by(alloc, scene, &mut cached, ending, scope, evals, bytes)?;
    let fresh = cached.into_fresh();
    files.keep(world, fresh)?;
    ended(alloc, &answer)
}

fn answer_by<E: Ledger, L: Ledger>(
    alloc: Global,
    scene: Scene<'_>,
    files: &mut CachedFiles<'_>,
    ending: Ending<'_>,
    scope: &Scope,
    evals: &mut Counter<E>,
    bytes: &mut Counter<L>,
) -> Result<DecidedEnds, NoMemory>
    requires named { HaveNames ending.hosts.now }
    requires absolute { AreAbsolute scene.config.now }
    requires world { files.old.world.files ≡ scene.world.now.files }
    requires config { files.old.config ≡ scene.config.now }
    ensures decided { IfOk result (Answers (site_under (chained_at scene.entry ending.entry) scene.entry.config.now)
        scope.now scene.entry.limit evals.old evals.new) }
    ensures holds { IfOk result (Holds (site_under (chained_at scene.entry ending.entry) scene.entry.config.now)
        scope.now) }
    ensures evals { Runs (site_under (chained_at scene.entry ending.entry) scene.entry.config.now) scope.now
        evals.old evals.new }
    ensures world { files.new.world.files ≡ scene.entry.world.now.files }
    ensures config { files.new.config ≡ scene.entry.config.now }
{
    let mut over = CachedOverrides { files, bytes };
    answer_over(alloc, scene, &mut over, ending, scope, evals)
}

// The same over both references, which stay.
fn answer_over<E: Ledger, L: Ledger>(
    alloc: Global,
    scene: Scene<'_>,
    over: &mut CachedOverrides<'_, '_, L>,
    ending: Ending<'_>,
    scope: &Scope,
    evals: &mut Counter<E>,
) -> Result<DecidedEnds, NoMemory>
    requires named { HaveNames ending.hosts.now }
    requires absolute { AreAbsolute scene.config.now }
    requires world { over.old.files.now.world.files ≡ scene.world.now.files }
    requires config { over.old.files.now.config ≡ scene.config.now }
    ensures decided { IfOk result (Answers (site_under (chained_at scene.entry ending.entry) scene.entry.config.now)
        scope.now scene.entry.limit evals.old evals.new) }
    ensures holds { IfOk result (Holds (site_under (chained_at scene.entry ending.entry) scene.entry.config.now)
        scope.now) }
    ensures evals { Runs (site_under (chained_at scene.entry ending.entry) scene.entry.config.now) scope.now
        evals.old evals.new }
    ensures world { over.new.files.now.world.files ≡ scene.entry.world.now.files }
    ensures config { over.new.files.now.config ≡ scene.entry.config.now }
    ensures same_files { over.new.files.ghost_name ≡ over.old.files.ghost_name }
    ensures same_counter { over.new.bytes.ghost_name ≡ over.old.bytes.ghost_name }
{
    let chains = Chains {
        config: scene.config,
        world: scene.world,
        hosts: ending.hosts,
    };
    decide_ends(alloc, chains, scope, scene.limit, over, evals)
}
