ghost use Rattle.hc_serve.specs.Passing.{named};
ghost use Rattle.hc_steps.specs.Ran.{Tells};

use crate::stage::{Named, Pass, Stop};
use hc_alias::Mapped;
use hc_base::Fault;
use hc_model::{Event, Outcome, Reason};
use hc_steps::Log;

/// The pass with the file name that its URL path is mapped to, or the end where it is sent away or has none.
#[tactic(auto, unfolding(crate::specs::Passing::named), using(hc_steps::proofs::Going::telling))]
pub(crate) fn named(log: &mut Log, pass: Pass, mapped: Mapped) -> Result<Named, Stop>
    ensures { Tells result log (named pass mapped) }
{
    match mapped {
        Mapped::Name { name, from } => Ok(Named {
            pass,
            name,
            from,
            own: false,
        }),
        Mapped::Away(away) => {
            log.say(Event::Redirect { spot: away.from })?;
            Err(Fault::Refused(away.outcome))
        }
        Mapped::NoRoot => Err(Fault::Refused(Outcome::Outside(Reason::NoRoot))),
    }
}
