ghost use Rattle.std.specs.Prelude.{◌≡◌, Contains, OnOk, map};
ghost use Rattle.hc_merge.specs.Overriding.{AreLoaded, Files_at, no_files, wanted_by};
ghost use Rattle.hc_merge.specs.WantedView.{loaded_of};
ghost use Rattle.hc_serve.specs.Lent.{Counts, Lends, Returns};
ghost use Rattle.hc_serve.specs.Files.{files_left, leaving, stopping, with_reading};
ghost use Rattle.hc_serve.specs.Passing.{file_looked, files_looked};
ghost use Rattle.hc_steps.specs.Ran.{Ran};
ghost use Rattle.hc_steps.specs.Run.{run};
ghost use Rattle.hc_steps.specs.Shown.{shown_by};
ghost use Rattle.hc_steps.specs.Step.{in_order};

use crate::asked::Asked;
use crate::stage::Stop;
use hc_base::Fault;
use hc_merge::{Wanted, htaccess_of, wanted_by};
use hc_model::{Allowed, AtFault, Outcome, Overrides, Walk};
use hc_steps::Log;
use hc_world::text_at;

/// Looks at the `.htaccess` files of a walk, from `/` down, and reads them. The first that is refused ends
/// the request.
#[tactic(auto, unfolding(crate::specs::Passing::files_looked), using(crate::proofs::Stops::stopping))]
pub(crate) fn files_looked<O: Overrides>(
    asked: &Asked<'_>,
    log: &mut Log,
    over: &mut O,
    walk: &Walk,
) -> Result<(), Stop>
    requires over { Lends O.reading O.size (O.fixed over.old) asked.now.world.now.files asked.now.config.now }
    ensures step { Ran (leaving result (files_left (O.reading (O.fixed over.old)) no_files
        (wanted_by asked.now.config.now asked.now.host walk.now.dirs))) log.old log.new
        (run (files_looked asked.now.config.now (wanted_by asked.now.config.now asked.now.host walk.now.dirs))
        (shown_by asked.now.world.now.files)) }
    ensures loads { OnOk result
        (AreLoaded (O.loaded over.new) (wanted_by asked.now.config.now asked.now.host walk.now.dirs)) }
    ensures over { Returns O.fixed O.loaded over }
    ensures counted { Counts result asked.now.world.now.files (files_looked asked.now.config.now
        (wanted_by asked.now.config.now asked.now.host walk.now.dirs)) O.counted over }
{
    let wanted = wanted_by(log.allocator(), asked.config, asked.host, walk)?;
    each_looked(asked, log, over, &wanted)
}

fn each_looked<O: Overrides>(
    asked: &Asked<'_>,
    log: &mut Log,
    over: &mut O,
    wanted: &[Wanted<'_>],
) -> Result<(), Stop>
    requires over { Lends O.reading O.size (O.fixed over.old) asked.now.world.now.files asked.now.config.now }
    ensures step { (files : Files_at) → Ran (leaving result
        (files_left (O.reading (O.fixed over.old)) files (map loaded_of wanted.now))) log.old log.new
        (run (in_order (file_looked asked.now.config.now) files (map loaded_of wanted.now))
        (shown_by asked.now.world.now.files)) }
    ensures loads { OnOk result (AreLoaded (O.loaded over.new) (map loaded_of wanted.now)) }
    ensures over { Returns O.fixed O.loaded over }
    ensures counted { (files : Files_at) → Counts result asked.now.world.now.files
        (in_order (file_looked asked.now.config.now) files (map loaded_of wanted.now))
        O.counted over }
{
    let [each, rest @ ..] = wanted else {
        return Ok(());
    };
    file_looked(asked, log, over, each.dir.as_bytes(), each.allowed)?;
    each_looked(asked, log, over, rest)
}

fn file_looked<O: Overrides>(
    asked: &Asked<'_>,
    log: &mut Log,
    over: &mut O,
    dir: &[u8],
    allowed: Allowed,
) -> Result<(), Stop>
    requires over { Lends O.reading O.size (O.fixed over.old) asked.now.world.now.files asked.now.config.now }
    ensures step { (files : Files_at) → Ran (leaving result
        (with_reading (O.reading (O.fixed over.old)) files (record { dir = dir.now; allowed = allowed })))
        log.old log.new
        (run (file_looked asked.now.config.now files (record { dir = dir.now; allowed = allowed }))
        (shown_by asked.now.world.now.files)) }
    ensures loads { OnOk result (Contains (O.loaded over.new) (record { dir = dir.now; allowed = allowed })) }
    ensures over { Returns O.fixed O.loaded over }
    ensures counted { (files : Files_at) → Counts result asked.now.world.now.files
        (file_looked asked.now.config.now files (record { dir = dir.now; allowed = allowed }))
        O.counted over }
{
    let file = htaccess_of(log.allocator(), dir)?;
    text_at::<Outcome>(asked.world, log, file.as_bytes())?;
    stopping(over.load(dir, allowed))
}

fn stopping(read: Result<(), AtFault>) -> Result<(), Stop>
    ensures { result ≡ stopping read }
{
    match read {
        Ok(()) => Ok(()),
        Err(Fault::Refused(refusal)) => Err(Fault::Refused(Outcome::HtRefused(refusal))),
        Err(Fault::NoMemory) => Err(Fault::NoMemory),
    }
}
