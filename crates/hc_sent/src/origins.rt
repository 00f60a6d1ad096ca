//! The origins of own servers.
ghost use Rattle.std.specs.Prelude.{◌≡◌, ◌∷◌, IfOk, decimal, is_some};
ghost use Rattle.std.specs.String.{string_bytes};
ghost use Rattle.hc_base.specs.Bytes.{colon};
ghost use Rattle.hc_dfa.specs.Built.{Accepts};
ghost use Rattle.hc_follow.specs.Next.{behind, front_of};
ghost use Rattle.hc_sent.specs.Origins.{is_port, is_root};
ghost use Rattle.hc_sent.specs.Sets.{is_kind};
ghost use Rattle.hc_sent.specs.Ways.{if_behind};

use crate::rests::{Kind, rests_of};
use hc_base::NoMemory;
use hc_dfa::{Dfa, Keep, product, single};
use hc_follow::Origin;
use hc_pat_lang::concat;
use hc_rw_sets::texts_like;
use hc_template::{default_port, scheme_name};
use std::alloc::Global;

/// The texts that begin with an origin.
pub fn fits(alloc: Global, origin: &Origin) -> Result<Dfa, NoMemory>
    ensures { IfOk result (λ made. Accepts made (λ text. is_some (behind origin.now text))) }
{
    let made = behind(alloc, origin, Kind::Any)?;
    Ok(made)
}

/// The texts that have something of this kind behind an origin.
pub fn behind(alloc: Global, origin: &Origin, kind: Kind) -> Result<Dfa, NoMemory>
    ensures { IfOk result (λ made. Accepts made (λ text. if_behind (is_kind kind) (behind origin.now text))) }
{
    let roots = roots(alloc, origin)?;
    let rests = rests_of(alloc, kind)?;
    let made = concat(alloc, &roots, &rests)?;
    Ok(made)
}

/// What stands in front of the path in URLs of an origin.
pub fn roots(alloc: Global, origin: &Origin) -> Result<Dfa, NoMemory>
    ensures { IfOk result (λ made. Accepts made (is_root origin.now)) }
{
    let front = front(alloc, origin)?;
    let fronts = texts_like(alloc, true, &front)?;
    let ports = ports(alloc, origin)?;
    let made = concat(alloc, &fronts, &ports)?;
    Ok(made)
}

// The scheme and the host.
fn front(alloc: Global, origin: &Origin) -> Result<Vec<u8>, NoMemory>
    ensures { IfOk result (λ front. front.items ≡ front_of origin.now) }
{
    let mut front = Vec::new(alloc);
    front.extend_from_slice(scheme_name(origin.scheme))?;
    front.extend_from_slice(b"://")?;
    front.extend_from_slice(origin.host.as_bytes())?;
    Ok(front)
}

fn ports(alloc: Global, origin: &Origin) -> Result<Dfa, NoMemory>
    ensures { IfOk result (λ made. Accepts made (is_port origin.now)) }
{
    let text = written_port(alloc, origin.port)?;
    let written = single(alloc, text.as_bytes())?;
    if origin.port != default_port(origin.scheme) {
        return Ok(written);
    }
    let nothing = single(alloc, b"")?;
    let made = product(alloc, &written, &nothing, Keep::Either)?;
    Ok(made)
}

// A colon and the port in decimal.
fn written_port(alloc: Global, port: u16) -> Result<String, NoMemory>
    ensures { IfOk result (λ text. string_bytes text ≡ colon ∷ decimal port) }
{
    format!(in alloc; ":{port}")
}
