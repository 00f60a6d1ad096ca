ghost use Rattle.std.specs.Prelude.{◌≡◌, ◌≢◌, IfOk, OnOk, Err, Result};
ghost use Rattle.hc_base.specs.Gives.{Gives};
ghost use Rattle.hc_base.specs.declared.place.Refusal.{Refusal};

use hc_base::{Fault, NoMemory, Refusal};

/// What is given, or the refusal, as a value that can be kept.
pub(crate) fn settled<T>(given: Result<T, Fault<Refusal>>) -> Result<Result<T, Refusal>, NoMemory>
    ensures settled { IfOk result (λ settled.
        (wanted : Result T Refusal) → Gives given wanted → settled ≡ wanted) }
    ensures memory { OnOk result (given ≢ Err Fault.NoMemory) }
{
    match given {
        Ok(value) => Ok(Ok(value)),
        Err(Fault::Refused(refusal)) => Ok(Err(refusal)),
        Err(Fault::NoMemory) => Err(NoMemory),
    }
}
