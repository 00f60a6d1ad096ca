//! Texts of bytes of one kind.
ghost use Rattle.std.specs.Prelude.{◌≡◌, ◌&&◌, IfOk};
ghost use Rattle.std.specs.List.{list_all};
ghost use Rattle.std.proofs.Common.{rules};
ghost use Rattle.hc_dfa.specs.Built.{Accepts};
ghost use Rattle.hc_sent.specs.Sets.{is_of};

use hc_base::NoMemory;
use hc_base::bytes::DELETE;
use hc_dfa::{Dfa, Reading, tested};
use std::alloc::Global;

/// The bytes of normal paths, of targets, or those that are not above the printed ones.
#[derive(Clone, Copy)]
pub enum Bytes {
    Plain,
    Target,
    Low,
}

/// The texts of such bytes.
pub fn texts_of(alloc: Global, bytes: Bytes) -> Result<Dfa, NoMemory>
    ensures { IfOk result (λ made. Accepts made (list_all (is_of bytes))) }
{
    let made = tested(alloc, &bytes, true)?;
    Ok(made)
}

impl Bytes {
    fn has(self, byte: u8) -> bool
        ensures { result ≡ is_of self byte }
    {
        match self {
            Bytes::Plain => byte > b' ' && !matches!(byte, DELETE | b'%' | b'?' | b'#'),
            Bytes::Target => b' ' < byte && byte <= b'~' && byte != b'#',
            Bytes::Low => !(b'~' < byte),
        }
    }
}

/// A key tells whether all that was read are.
impl Reading for Bytes {
    type Key = bool;

    ghost is_key = { λ bytes all. Unit {0} };

    ghost reads = { λ bytes all byte. all && is_of bytes byte };

    ghost holds = { λ bytes all. all };

    fn next(&self, all: bool, byte: u8) -> bool {
        all && self.has(byte)
    }

    fn holds(&self, all: bool) -> bool {
        all
    }

    ghost same = { Prim.search rules };
}
