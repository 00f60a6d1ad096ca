//! An invariant is checked under the configuration that is kept.
ghost use Rattle.std.specs.Prelude.{◌≡◌, ℕ, IfOk, OnOk};
ghost use Rattle.hc_absolute.specs.Absolute.{AreAbsolute};
ghost use Rattle.hc_held.specs.Verdicts.{IsVerdict};
ghost use Rattle.hc_abs_pass.specs.Walks.{IsListed};
ghost use Rattle.hc_kept.specs.Files.{AreFilesOf};
ghost use Rattle.hc_kept.specs.Site.{IsSiteOf};
ghost use Rattle.hc_model.specs.World.{IsWorld};
ghost use Rattle.hc_session.specs.Deciding.{has_line};
ghost use Rattle.hc_session.specs.Stating.{IsConfiguration, Replies, asked_at, claim_in, posed_at, posed_in};
ghost use Rattle.hc_session.specs.Stating.{sets_of_stating};
ghost use Rattle.hc_session.specs.Verifying.{IsVerified, VerifiesLine, VerifiesSets, VerifiesUnder, bad_of};
ghost use Rattle.hc_stated.specs.CellViews.{cells_view};
ghost use Rattle.hc_stated.specs.Cells.{AreCells, bad_in_cells};
ghost use Rattle.hc_stated.specs.Views.{IsStated};
ghost use Rattle.hc_steps.specs.Shown.{shown_by};

use crate::deciding::{Scene, Stating, has_line};
use crate::replies::{no_pattern, refused, refusing, verified};
use crate::stepped::Stepped;
use hc_base::codes::NO_SUCH_PLACE;
use hc_base::{Counter, Fault, NoMemory};
use hc_held::{Question, Verdict, check};
use hc_invariant::NamedCell;
use hc_kept::{CachedFiles, CachedOverrides, KeptFiles, Site};
use hc_stated::{CellSets, Stated, state, state_cells};
use hc_world::World;
use std::alloc::Global;
use std::sync::ledger::Ledger;

/// A claim and its scope as they are written, and the cells of an invariant with their sets.
#[derive(Clone, Copy)]
pub(crate) struct Verifying<'f> {
    pub(crate) stating: Stating<'f>,
    pub(crate) cells: &'f [CellSets],
}

/// Checks an invariant under what the main file was read as.
pub(crate) fn verify_at<L: Ledger>(
    alloc: Global,
    world: &World,
    site: &mut Site,
    verifying: Verifying<'_>,
    limit: u32,
    bytes: &mut Counter<L>,
) -> Result<Stepped, NoMemory>
    requires site { IsSiteOf world.now site.old }
    requires built { IsConfiguration site.old.built }
    ensures says { IfOk result (Replies (VerifiesUnder
        (posed_in world.now.files site.old.lines limit verifying.entry.stating)
        (sets_of_stating verifying.entry.stating) (cells_view verifying.entry.cells.now) site.old.built)) }
    ensures site { IsSiteOf world.now site.new }
    ensures main { site.new.main ≡ site.old.main }
{
    match &site.built {
        Ok(config) => {
            let scene = Scene {
                world,
                config,
                lines: &site.lines,
                limit,
            };
            verify_under(alloc, scene, &mut site.files, verifying, bytes)
        }
        Err(refusal) => refusing(alloc, refusal),
    }
}

// Under a configuration.
fn verify_under<L: Ledger>(
    alloc: Global,
    scene: Scene<'_>,
    files: &mut KeptFiles,
    verifying: Verifying<'_>,
    bytes: &mut Counter<L>,
) -> Result<Stepped, NoMemory>
    requires absolute { AreAbsolute scene.config.now }
    requires files { AreFilesOf scene.world.now scene.config.now files.old }
    ensures says { IfOk result (Replies (VerifiesSets (posed_at scene.entry verifying.entry.stating)
        (sets_of_stating verifying.entry.stating) (cells_view verifying.entry.cells.now) scene.entry.config.now
        (bad_of (sets_of_stating verifying.entry.stating) (cells_view verifying.entry.cells.now)))) }
    ensures files { AreFilesOf scene.entry.world.now scene.entry.config.now files.new }
{
    let Stating { claim, scope, sets } = verifying.stating;
    match state(alloc, claim, scope, sets) {
        Ok(stated) => verify_cells(alloc, scene, files, verifying, &stated, bytes),
        Err(Fault::Refused(bad)) => no_pattern(alloc, bad),
        Err(Fault::NoMemory) => Err(NoMemory),
    }
}

// With the sets of the claim and the scope made.
fn verify_cells<L: Ledger>(
    alloc: Global,
    scene: Scene<'_>,
    files: &mut KeptFiles,
    verifying: Verifying<'_>,
    stated: &Stated,
    bytes: &mut Counter<L>,
) -> Result<Stepped, NoMemory>
    requires stated { IsStated verifying.stating.claim verifying.stating.scope (sets_of_stating verifying.stating)
        stated.now }
    requires absolute { AreAbsolute scene.config.now }
    requires files { AreFilesOf scene.world.now scene.config.now files.old }
    ensures says { IfOk result (Replies (VerifiesSets (posed_at scene.entry verifying.entry.stating)
        (sets_of_stating verifying.entry.stating) (cells_view verifying.entry.cells.now) scene.entry.config.now
        (bad_in_cells (cells_view verifying.entry.cells.now)))) }
    ensures files { AreFilesOf scene.entry.world.now scene.entry.config.now files.new }
{
    match state_cells(alloc, verifying.cells) {
        Ok(cells) => verify_stated(
            alloc,
            scene,
            files,
            verifying,
            stated,
            cells.as_slice(),
            bytes,
        ),
        Err(Fault::Refused(bad)) => no_pattern(alloc, bad),
        Err(Fault::NoMemory) => Err(NoMemory),
    }
}

// With the cells made, too.
fn verify_stated<L: Ledger>(
    alloc: Global,
    scene: Scene<'_>,
    files: &mut KeptFiles,
    verifying: Verifying<'_>,
    stated: &Stated,
    cells: &[NamedCell],
    bytes: &mut Counter<L>,
) -> Result<Stepped, NoMemory>
    requires stated { IsStated verifying.stating.claim verifying.stating.scope (sets_of_stating verifying.stating)
        stated.now }
    requires cells { AreCells (cells_view verifying.cells.now) cells.now }
    requires absolute { AreAbsolute scene.config.now }
    requires files { AreFilesOf scene.world.now scene.config.now files.old }
    ensures says { IfOk result (Replies (VerifiesLine (posed_at scene.entry verifying.entry.stating)
        (sets_of_stating verifying.entry.stating) (cells_view verifying.entry.cells.now) scene.entry.config.now
        (has_line scene.entry.world.now.files scene.entry.lines.now (claim_in verifying.entry.stating)))) }
    ensures files { AreFilesOf scene.entry.world.now scene.entry.config.now files.new }
{
    if has_line(alloc, scene, &stated.claim, bytes)? {
        checked(alloc, scene, files, stated, cells, bytes)
    } else {
        refused(alloc, NO_SUCH_PLACE)
    }
}

// The `.htaccess` files that it looks at are read where they are not kept, and kept.
fn checked<L: Ledger>(
    alloc: Global,
    scene: Scene<'_>,
    files: &mut KeptFiles,
    stated: &Stated,
    cells: &[NamedCell],
    bytes: &mut Counter<L>,
) -> Result<Stepped, NoMemory>
    requires absolute { AreAbsolute scene.config.now }
    requires files { AreFilesOf scene.world.now scene.config.now files.old }
    ensures says { IfOk result (Replies (IsVerified (asked_at scene.entry stated.now) cells.now)) }
    ensures files { AreFilesOf scene.entry.world.now scene.entry.config.now files.new }
{
    let Scene { world, config, .. } = scene;
    let mut cached = CachedFiles::new(alloc, config, world, files);
    let verdict = checked_by(alloc, scene, &mut cached, stated, cells, bytes)?;
    let fresh = cached.into_fresh();
    files.keep(world, fresh)?;
    verified(alloc, &verdict)
}

fn checked_by<L: Ledger>(
    alloc: Global,
    scene: Scene<'_>,
    files: &mut CachedFiles<'_>,
    stated: &Stated,
    cells: &[NamedCell],
    bytes: &mut Counter<L>,
) -> Result<Verdict, NoMemory>
    requires world { files.old.world.files ≡ scene.world.now.files }
    requires config { files.old.config ≡ scene.config.now }
    ensures verdict { IfOk result (λ verdict. (levels : ℕ) → IsListed levels (shown_by scene.entry.world.now.files)
        → IsVerdict (asked_at scene.entry stated.now) cells.now levels verdict) }
    ensures valid { OnOk result (IsWorld scene.entry.world.now.files) }
    ensures world { files.new.world.files ≡ scene.entry.world.now.files }
    ensures config { files.new.config ≡ scene.entry.config.now }
{
    let mut over = CachedOverrides { files, bytes };
    checked_over(alloc, scene, &mut over, stated, cells)
}

// The same over both references, which stay.
fn checked_over<L: Ledger>(
    alloc: Global,
    scene: Scene<'_>,
    over: &mut CachedOverrides<'_, '_, L>,
    stated: &Stated,
    cells: &[NamedCell],
) -> Result<Verdict, NoMemory>
    requires world { over.old.files.now.world.files ≡ scene.world.now.files }
    requires config { over.old.files.now.config ≡ scene.config.now }
    ensures verdict { IfOk result (λ verdict. (levels : ℕ) → IsListed levels (shown_by scene.entry.world.now.files)
        → IsVerdict (asked_at scene.entry stated.now) cells.now levels verdict) }
    ensures valid { OnOk result (IsWorld scene.entry.world.now.files) }
    ensures world { over.new.files.now.world.files ≡ scene.entry.world.now.files }
    ensures config { over.new.files.now.config ≡ scene.entry.config.now }
    ensures same_files { over.new.files.ghost_name ≡ over.old.files.ghost_name }
    ensures same_counter { over.new.bytes.ghost_name ≡ over.old.bytes.ghost_name }
{
    let question = Question {
        config: scene.config,
        world: scene.world,
        scope: &stated.scope,
        claim: &stated.claim,
    };
    check(alloc, question, cells, over)
}
