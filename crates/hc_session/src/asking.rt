//! What a request receives under the configuration that is kept.
ghost use Rattle.std.specs.Prelude.{◌≡◌, ◌+◌, ◌≤◌, true, IfOk, OnOk};
ghost use Rattle.hc_base.specs.Paths.{begins_with_slash};
ghost use Rattle.hc_kept.specs.Files.{AreFilesOf};
ghost use Rattle.hc_kept.specs.Site.{IsSiteOf};
ghost use Rattle.hc_serve.specs.Costs.{looked};
ghost use Rattle.hc_serve.specs.Request.{way};
ghost use Rattle.hc_session.specs.Session.{answer_of, request_bytes};
ghost use Rattle.hc_session.specs.Sound.{Evaluates, IsFound};

use hc_base::{Counter, NoMemory, Refusal};
use hc_kept::{CachedFiles, CachedOverrides, KeptFiles, Site};
use hc_model::{Config, Request};
use hc_serve::{Answer, evaluate};
use hc_world::World;
use std::alloc::Global;
use std::sync::ledger::Ledger;

/// What a request receives of what the main file was read as, or why that is refused.
pub(crate) fn find_answer<E: Ledger, L: Ledger>(
    alloc: Global,
    world: &World,
    site: &mut Site,
    request: &Request,
    evals: &mut Counter<E>,
    bytes: &mut Counter<L>,
) -> Result<Result<Answer, Refusal>, NoMemory>
    requires slash { begins_with_slash request.now.target ≡ true }
    requires site { IsSiteOf world.now site.old }
    ensures found { IfOk result (IsFound world.now.files site.old.built request.now) }
    ensures evals { Evaluates result evals.old evals.new }
    ensures bytes { OnOk result (bytes.new ≤ bytes.old + request_bytes world.now.files site.old.built request.now) }
    ensures site { IsSiteOf world.now site.new }
    ensures main { site.new.main ≡ site.old.main }
{
    match &site.built {
        Ok(config) => match answer(alloc, config, world, &mut site.files, request, evals, bytes) {
            Ok(answer) => Ok(Ok(answer)),
            Err(NoMemory) => Err(NoMemory),
        },
        Err(refusal) => Ok(Err(refusal.clone()?)),
    }
}

/// Evaluates a request. The `.htaccess` files of its walk are read where they are not kept, and kept.
pub(crate) fn answer<E: Ledger, L: Ledger>(
    alloc: Global,
    config: &Config,
    world: &World,
    files: &mut KeptFiles,
    request: &Request,
    evals: &mut Counter<E>,
    bytes: &mut Counter<L>,
) -> Result<Answer, NoMemory>
    requires slash { begins_with_slash request.now.target ≡ true }
    requires files { AreFilesOf world.now config.now files.old }
    ensures answer { IfOk result (λ answer. answer ≡ answer_of world.now.files config.now request.now) }
    ensures files { AreFilesOf world.now config.now files.new }
    ensures evals { evals.new ≡ evals.old + 1 }
    ensures bytes { OnOk result (bytes.new ≤ bytes.old + looked world.now.files (way config.now request.now)) }
{
    let mut cached = CachedFiles::new(alloc, config, world, files);
    let answer = answer_by(alloc, config, world, &mut cached, request, evals, bytes)?;
    let fresh = cached.into_fresh();
    files.keep(world, fresh)?;
    Ok(answer)
}

fn answer_by<E: Ledger, L: Ledger>(
    alloc: Global,
    config: &Config,
    world: &World,
    files: &mut CachedFiles<'_>,
    request: &Request,
    evals: &mut Counter<E>,
    bytes: &mut Counter<L>,
) -> Result<Answer, NoMemory>
    requires slash { begins_with_slash request.now.target ≡ true }
    requires world { files.old.world.files ≡ world.now.files }
    requires config { files.old.config ≡ config.now }
    ensures answer { IfOk result (λ answer. answer ≡ answer_of world.now.files config.now request.now) }
    ensures world { files.new.world.files ≡ world.now.files }
    ensures config { files.new.config ≡ config.now }
    ensures evals { evals.new ≡ evals.old + 1 }
    ensures bytes { OnOk result (bytes.new ≤ bytes.old + looked world.now.files (way config.now request.now)) }
{
    let mut over = CachedOverrides { files, bytes };
    evaluated(alloc, config, world, &mut over, request, evals)
}

// The same over both references, which stay.
fn evaluated<E: Ledger, L: Ledger>(
    alloc: Global,
    config: &Config,
    world: &World,
    over: &mut CachedOverrides<'_, '_, L>,
    request: &Request,
    evals: &mut Counter<E>,
) -> Result<Answer, NoMemory>
    requires slash { begins_with_slash request.now.target ≡ true }
    requires world { over.old.files.now.world.files ≡ world.now.files }
    requires config { over.old.files.now.config ≡ config.now }
    ensures answer { IfOk result (λ answer. answer ≡ answer_of world.now.files config.now request.now) }
    ensures world { over.new.files.now.world.files ≡ world.now.files }
    ensures config { over.new.files.now.config ≡ config.now }
    ensures same_files { over.new.files.ghost_name ≡ over.old.files.ghost_name }
    ensures same_counter { over.new.bytes.ghost_name ≡ over.old.bytes.ghost_name }
    ensures evals { evals.new ≡ evals.old + 1 }
    ensures bytes { OnOk result
        (over.new.bytes.now ≤ over.old.bytes.now + looked world.now.files (way config.now request.now)) }
{
    evaluate(alloc, config, world, over, request, evals)
}
