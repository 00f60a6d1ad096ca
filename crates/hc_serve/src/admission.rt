ghost use Rattle.std.specs.Prelude.{◌≡◌};
ghost use Rattle.hc_serve.specs.Passing.{authorized, lets_in, said};

use hc_authz::{Tri, value_of};
use hc_model::{Authorized, Caller, Requirement};

/// The status of a request that may not pass.
pub(crate) const FORBIDDEN: u16 = 403;

/// What authorization gives.
pub(crate) fn authorized(caller: &Caller, require: &Requirement) -> Authorized
    ensures { result ≡ authorized caller.now require.now }
{
    said(value_of(require, caller))
}

fn said(value: Option<Tri>) -> Authorized
    ensures { result ≡ said value }
{
    match value {
        None => Authorized::Unasked,
        Some(Tri::Granted) => Authorized::Granted,
        Some(Tri::Denied) => Authorized::Denied,
        Some(Tri::Neutral) => Authorized::Neutral,
    }
}

/// No tree lets everyone in; one that says nothing lets nobody in.
pub(crate) fn lets_in(value: Authorized) -> bool
    ensures { result ≡ lets_in value }
{
    matches!(value, Authorized::Granted | Authorized::Unasked)
}
