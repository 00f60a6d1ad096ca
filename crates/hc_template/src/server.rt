//! The server's own name in a text.
ghost use Rattle.std.specs.Prelude.{◌≡◌, ◌∷◌, ◌++◌, IfOk, OnOk, decimal};
ghost use Rattle.std.specs.String.{string_bytes};
ghost use Rattle.hc_base.specs.Bytes.{colon};
ghost use Rattle.hc_template.specs.Variables.{default_port, origin, port_part, scheme_name};

use hc_base::NoMemory;
use hc_model::{Caller, Scheme};
use std::alloc::Global;

/// The name of a scheme, as it stands before `://`.
pub fn scheme_name(scheme: Scheme) -> &'static [u8]
    ensures { result.now ≡ scheme_name scheme }
{
    match scheme {
        Scheme::Http => b"http",
        Scheme::Https => b"https",
    }
}

/// The port that is left out where a server is named.
pub fn default_port(scheme: Scheme) -> u16
    ensures { result ≡ default_port scheme }
{
    match scheme {
        Scheme::Http => 80,
        Scheme::Https => 443,
    }
}

// A colon and the port in decimal.
fn written_port(alloc: Global, port: u16) -> Result<String, NoMemory>
    ensures { IfOk result (λ text. string_bytes text ≡ colon ∷ decimal port) }
{
    format!(in alloc; ":{port}")
}

/// Adds a colon and the port in decimal, unless it is the scheme's default. `NoMemory` where memory is
/// refused.
pub fn push_port(out: &mut Vec<u8>, scheme: Scheme, port: u16) -> Result<(), NoMemory>
    ensures { OnOk result (out.new.items ≡ out.old.items ++ port_part scheme port) }
{
    if port == default_port(scheme) {
        return Ok(());
    }
    let text = written_port(*out.allocator(), port)?;
    out.extend_from_slice(text.as_bytes())
}

/// Adds the server's own name with its scheme, and its port unless that is the scheme's default. `NoMemory`
/// where memory is refused.
pub fn push_origin(out: &mut Vec<u8>, caller: &Caller) -> Result<(), NoMemory>
    ensures { OnOk result (out.new.items ≡ out.old.items ++ origin caller.now) }
{
    let request = &caller.request;
    out.extend_from_slice(scheme_name(request.scheme))?;
    out.extend_from_slice(b"://")?;
    out.extend_from_slice(caller.name.as_bytes())?;
    push_port(out, request.scheme, request.port)
}
