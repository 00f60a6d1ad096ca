//! A claim is decided under the configuration that is kept.
ghost use Rattle.std.specs.Prelude.{◌≡◌, ◌||◌, IfOk, Ok};
ghost use Rattle.hc_broken.specs.Breaking.{has_place};
ghost use Rattle.hc_claim_lines.specs.ClaimLines.{stands_in};
ghost use Rattle.hc_absolute.specs.Absolute.{AreAbsolute};
ghost use Rattle.hc_held.specs.Claims.{Answers, Holds, Runs};
ghost use Rattle.hc_kept.specs.Files.{AreFilesOf};
ghost use Rattle.hc_kept.specs.Site.{IsSiteOf};
ghost use Rattle.hc_session.specs.Deciding.{IsAnswered, SaysOfLine, SaysOfSets, SaysUnder, has_line};
ghost use Rattle.hc_session.specs.Stating.{CountsTries, IsConfiguration, IsRead, Replies, asked_at, claim_in};
ghost use Rattle.hc_session.specs.Stating.{has_line_in, posed_at, posed_in, sets_of_stating};
ghost use Rattle.hc_stated.specs.Stated.{bad_pattern};
ghost use Rattle.hc_stated.specs.Views.{IsStated};

use crate::replies::{decided, no_pattern, refused, refusing};
use crate::stepped::Stepped;
use hc_base::codes::NO_SUCH_PLACE;
use hc_base::{Counter, Fault, NoMemory, Place};
use hc_broken::lacks;
use hc_claim_lines::{ClaimLines, Subject, stands_in};
use hc_held::{Decided, Question, decide};
use hc_json::{ClaimForm, ScopeForm};
use hc_kept::{CachedFiles, CachedOverrides, KeptFiles, Site};
use hc_model::Config;
use hc_scope::Claim;
use hc_stated::{SetForms, Stated, state};
use hc_world::World;
use std::alloc::Global;
use std::sync::ledger::Ledger;

/// A claim and its scope as they are written, with their sets.
#[derive(Clone, Copy)]
pub(crate) struct Stating<'f> {
    pub(crate) claim: ClaimForm<'f>,
    pub(crate) scope: ScopeForm<'f>,
    pub(crate) sets: &'f SetForms,
}

/// What it is decided under.
#[derive(Clone, Copy)]
pub(crate) struct Scene<'s> {
    pub(crate) world: &'s World,
    pub(crate) config: &'s Config,
    pub(crate) lines: &'s ClaimLines,
    /// A claim may have fewer branches than these.
    pub(crate) limit: u32,
}

/// Decides a claim under what the main file was read as.
pub(crate) fn decide_at<E: Ledger, L: Ledger>(
    alloc: Global,
    world: &World,
    site: &mut Site,
    stating: Stating<'_>,
    limit: u32,
    evals: &mut Counter<E>,
    bytes: &mut Counter<L>,
) -> Result<Stepped, NoMemory>
    requires sets { IsRead stating }
    requires site { IsSiteOf world.now site.old }
    requires built { IsConfiguration site.old.built }
    ensures says { IfOk result (Replies (SaysUnder (posed_in world.now.files site.old.lines limit stating.entry)
        (sets_of_stating stating.entry) site.old.built)) }
    ensures evals { CountsTries (posed_in world.now.files site.old.lines limit stating.entry) site.old.built
        evals.old evals.new }
    ensures site { IsSiteOf world.now site.new }
    ensures main { site.new.main ≡ site.old.main }
{
    match &site.built {
        Ok(config) => {
            let scene = Scene {
                world,
                config,
                lines: &site.lines,
                limit,
            };
            decide_under(alloc, scene, &mut site.files, stating, evals, bytes)
        }
        Err(refusal) => refusing(alloc, refusal),
    }
}

// Under a configuration.
fn decide_under<E: Ledger, L: Ledger>(
    alloc: Global,
    scene: Scene<'_>,
    files: &mut KeptFiles,
    stating: Stating<'_>,
    evals: &mut Counter<E>,
    bytes: &mut Counter<L>,
) -> Result<Stepped, NoMemory>
    requires sets { IsRead stating }
    requires absolute { AreAbsolute scene.config.now }
    requires files { AreFilesOf scene.world.now scene.config.now files.old }
    ensures says { IfOk result (Replies (SaysOfSets (posed_at scene.entry stating.entry) scene.entry.config.now
        (sets_of_stating stating.entry) (bad_pattern (sets_of_stating stating.entry)))) }
    ensures evals { CountsTries (posed_at scene.entry stating.entry) (Ok scene.entry.config.now) evals.old evals.new }
    ensures files { AreFilesOf scene.entry.world.now scene.entry.config.now files.new }
{
    match state(alloc, stating.claim, stating.scope, stating.sets) {
        Ok(stated) => decide_stated(alloc, scene, files, stating, &stated, evals, bytes),
        Err(Fault::Refused(bad)) => no_pattern(alloc, bad),
        Err(Fault::NoMemory) => Err(NoMemory),
    }
}

// With the sets made.
fn decide_stated<E: Ledger, L: Ledger>(
    alloc: Global,
    scene: Scene<'_>,
    files: &mut KeptFiles,
    stating: Stating<'_>,
    stated: &Stated,
    evals: &mut Counter<E>,
    bytes: &mut Counter<L>,
) -> Result<Stepped, NoMemory>
    requires sets { IsRead stating }
    requires stated { IsStated stating.claim stating.scope (sets_of_stating stating) stated.now }
    requires absolute { AreAbsolute scene.config.now }
    requires files { AreFilesOf scene.world.now scene.config.now files.old }
    ensures says { IfOk result (Replies (SaysOfLine (posed_at scene.entry stating.entry) scene.entry.config.now
        (sets_of_stating stating.entry)
        (has_line scene.entry.world.now.files scene.entry.lines.now (claim_in stating.entry)))) }
    ensures evals { CountsTries (posed_at scene.entry stating.entry) (Ok scene.entry.config.now) evals.old evals.new }
    ensures files { AreFilesOf scene.entry.world.now scene.entry.config.now files.new }
{
    if has_line(alloc, scene, &stated.claim, bytes)? {
        answer(alloc, scene, files, stated, evals, bytes)
    } else {
        refused(alloc, NO_SUCH_PLACE)
    }
}

// ---- the line that a claim speaks of

pub(crate) fn has_line<L: Ledger>(
    alloc: Global,
    scene: Scene<'_>,
    claim: &Claim,
    bytes: &mut Counter<L>,
) -> Result<bool, NoMemory>
    ensures { IfOk result (λ there. there
        ≡ has_line_in scene.entry.world.now.files scene.entry.lines.now claim.now) }
{
    let Scene { world, lines, .. } = scene;
    match claim {
        Claim::Stops => Ok(true),
        Claim::Shadowed(place) => {
            is_there(
                alloc,
                world,
                lines.rules.as_slice(),
                Subject::Rule,
                place,
                bytes,
            )
        }
        Claim::Guarded { by, .. } => {
            is_there(
                alloc,
                world,
                lines.guards.as_slice(),
                Subject::Require,
                by,
                bytes,
            )
        }
    }
}

// Among these of the configuration's files, or in a `.htaccess` text.
fn is_there<L: Ledger>(
    alloc: Global,
    world: &World,
    places: &[Place],
    subject: Subject,
    place: &Place,
    bytes: &mut Counter<L>,
) -> Result<bool, NoMemory>
    ensures { IfOk result (λ there. there
        ≡ has_place places.now place.now || stands_in world.now.files subject place.now) }
{
    if lacks(places, place) {
        stands_in(alloc, world, subject, place, bytes)
    } else {
        Ok(true)
    }
}

// ---- the answer

// The `.htaccess` files that it looks at are read where they are not kept, and kept.
fn answer<E: Ledger, L: Ledger>(
    alloc: Global,
    scene: Scene<'_>,
    files: &mut KeptFiles,
    stated: &Stated,
    evals: &mut Counter<E>,
    bytes: &mut Counter<L>,
) -> Result<Stepped, NoMemory>
    requires absolute { AreAbsolute scene.config.now }
    requires files { AreFilesOf scene.world.now scene.config.now files.old }
    ensures says { IfOk result (Replies (IsAnswered scene.entry.limit (asked_at scene.entry stated.now))) }
    ensures evals { Runs (asked_at scene.entry stated.now) evals.old evals.new }
    ensures files { AreFilesOf scene.entry.world.now scene.entry.config.now files.new }
{
    let Scene { world, config, .. } = scene;
    let mut cached = CachedFiles::new(alloc, config, world, files);
    let answer = answer_by(alloc, scene, &mut cached, stated, evals, bytes)?;
    let fresh = cached.into_fresh();
    files.keep(world, fresh)?;
    decided(alloc, &answer)
}

fn answer_by<E: Ledger, L: Ledger>(
    alloc: Global,
    scene: Scene<'_>,
    files: &mut CachedFiles<'_>,
    stated: &Stated,
    evals: &mut Counter<E>,
    bytes: &mut Counter<L>,
) -> Result<Decided, NoMemory>
    requires absolute { AreAbsolute scene.config.now }
    requires world { files.old.world.files ≡ scene.world.now.files }
    requires config { files.old.config ≡ scene.config.now }
    ensures decided { IfOk result (Answers (asked_at scene.entry stated.now) scene.entry.limit evals.old evals.new) }
    ensures holds { IfOk result (Holds (asked_at scene.entry stated.now)) }
    ensures evals { Runs (asked_at scene.entry stated.now) evals.old evals.new }
    ensures world { files.new.world.files ≡ scene.entry.world.now.files }
    ensures config { files.new.config ≡ scene.entry.config.now }
{
    let mut over = CachedOverrides { files, bytes };
    answer_over(alloc, scene, &mut over, stated, evals)
}

// The same over both references, which stay.
fn answer_over<E: Ledger, L: Ledger>(
    alloc: Global,
    scene: Scene<'_>,
    over: &mut CachedOverrides<'_, '_, L>,
    stated: &Stated,
    evals: &mut Counter<E>,
) -> Result<Decided, NoMemory>
    requires absolute { AreAbsolute scene.config.now }
    requires world { over.old.files.now.world.files ≡ scene.world.now.files }
    requires config { over.old.files.now.config ≡ scene.config.now }
    ensures decided { IfOk result (Answers (asked_at scene.entry stated.now) scene.entry.limit evals.old evals.new) }
    ensures holds { IfOk result (Holds (asked_at scene.entry stated.now)) }
    ensures evals { Runs (asked_at scene.entry stated.now) evals.old evals.new }
    ensures world { over.new.files.now.world.files ≡ scene.entry.world.now.files }
    ensures config { over.new.files.now.config ≡ scene.entry.config.now }
    ensures same_files { over.new.files.ghost_name ≡ over.old.files.ghost_name }
    ensures same_counter { over.new.bytes.ghost_name ≡ over.old.bytes.ghost_name }
{
    let question = Question {
        config: scene.config,
        world: scene.world,
        scope: &stated.scope,
        claim: &stated.claim,
    };
    decide(alloc, question, scene.limit, over, evals)
}
