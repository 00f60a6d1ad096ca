//! The `.htaccess` files of a walk (Apache manual, ".htaccess files"; core, AllowOverride).
ghost use Rattle.std.specs.Prelude.{◌≡◌, IfOk, map};
ghost use Rattle.hc_abs_name.specs.Reading.{AreLoadedUnless, IsRefusal, first_refused};
ghost use Rattle.hc_merge.specs.Overriding.{wanted_by};
ghost use Rattle.hc_merge.specs.WantedView.{loaded_of};
ghost use Rattle.hc_serve.specs.Lent.{Returns};
ghost use Rattle.hc_vhost.specs.Servers.{IsHostOf};

use hc_base::{Fault, NoMemory, Refusal};
use hc_merge::{Wanted, wanted_by};
use hc_model::{AtFault, Config, HostId, Overrides, Walk};
use std::alloc::Global;

/// Loads the `.htaccess` files of a walk, from `/` down, up to the first that is refused.
pub fn refused_at<O: Overrides>(
    alloc: Global,
    config: &Config,
    host: HostId,
    over: &mut O,
    walk: &Walk,
) -> Result<Option<Refusal>, NoMemory>
    requires { IsHostOf config.now host }
    ensures refusal { IfOk result (λ refusal. refusal
        ≡ first_refused (O.reading (O.fixed over.old)) (wanted_by config.now host walk.now.dirs)) }
    ensures loads { IfOk result (λ refusal.
        AreLoadedUnless refusal (O.loaded over.new) (wanted_by config.now host walk.now.dirs)) }
    ensures over { Returns O.fixed O.loaded over }
{
    let wanted = wanted_by(alloc, config, host, walk)?;
    let refused = first_refused(over, &wanted)?;
    Ok(refused)
}

fn first_refused<O: Overrides>(
    over: &mut O,
    wanted: &[Wanted<'_>],
) -> Result<Option<Refusal>, NoMemory>
    ensures refusal { IfOk result (λ refusal. refusal
        ≡ first_refused (O.reading (O.fixed over.old)) (map loaded_of wanted.now)) }
    ensures loads { IfOk result (λ refusal.
        AreLoadedUnless refusal (O.loaded over.new) (map loaded_of wanted.now)) }
    ensures over { Returns O.fixed O.loaded over }
{
    let [each, rest @ ..] = wanted else {
        return Ok(None);
    };
    let refused = refusal_of(over.load(each.dir.as_bytes(), each.allowed))?;
    match refused {
        Some(refusal) => Ok(Some(refusal)),
        None => {
            let later = first_refused(over, rest)?;
            Ok(later)
        }
    }
}

/// Whether a file was refused.
fn refusal_of(read: Result<(), AtFault>) -> Result<Option<Refusal>, NoMemory>
    ensures { IfOk result (IsRefusal read) }
{
    match read {
        Ok(()) => Ok(None),
        Err(Fault::Refused(refusal)) => Ok(Some(refusal)),
        Err(Fault::NoMemory) => Err(NoMemory),
    }
}
