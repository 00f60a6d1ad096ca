//! How a key is looked up by its parts.
ghost use Rattle.std.proofs.Common.{ap};
ghost use Rattle.std.specs.Hash as fed;
ghost use Rattle.hc_htaccess.proofs.Pairs.{is_for_Decides};
ghost use Rattle.hc_kept.specs.Keys.{is_at, key_same};

use crate::key::FileKey;
use hc_model::Allowed;
use indexmap::Equivalent;

#[derive(Clone, Copy, PartialEq, Eq)]
#[derive_where(Hash)]
pub(crate) struct AskedKey<'d> {
    pub(crate) dir: &'d [u8],
    #[derive_where(skip(Hash))]
    pub(crate) allowed: Allowed,
}

impl<'d> Equivalent<FileKey> for AskedKey<'d> {
    ghost equivalent = { λ asked. is_at asked.dir.now asked.allowed };

    ghost respects_hash = { λ asked key is. ap (fed.slice fed.u8)
        ((is_for_Decides (record { dir = asked.dir.now; allowed = asked.allowed }) key.dir.items key.allowed).0 is).0 };

    ghost respects_eq = { λ asked one other is. key_same asked.dir.now asked.allowed one other is };

    fn equivalent(&self, key: &FileKey) -> bool {
        self.dir == key.dir.as_slice() && self.allowed == key.allowed
    }
}
