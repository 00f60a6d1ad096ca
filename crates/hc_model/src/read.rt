ghost use Rattle.std.proofs.Common.{rules};
ghost use Rattle.std.specs.Cmp.{partial_order_from_own_ties};
ghost use Rattle.std.specs.Cmp.Lexicographic.{pointwise};
ghost use Rattle.std.specs.Cmp.Rules.{comparing, hashing};
ghost use Rattle.std.specs.Hash as fed;
ghost use Rattle.std.specs.Ordering.{as_partial_cmp};
ghost use Rattle.std.specs.Prelude.{◌≡◌, ◌++◌, ◌==◌};
ghost use Rattle.hc_model.specs.Reads.{path_of, rank_of, read_cmp, read_eq};

use hc_base::Text;
use std::cmp::Ordering;
use std::hash::{Hash, Hasher};

/// What an answer rests on: a question to the world about a path. Reads are ordered by the bytes of
/// their paths, and at one path the text comes before the kind and the names. Our own choice.
#[derive(Clone, Drop)]
pub enum Read {
    /// What stands there.
    KindOf(Text),
    /// The text of the file there.
    TextOf(Text),
    /// The names in the directory there.
    NamesOf(Text),
}

impl PartialEq for Read {
    ghost eq = { read_eq };

    ghost laws = { Prim.search (comparing, rules) };

    fn eq(&self, other: &Read) -> bool {
        path_of(self) == path_of(other) && rank_of(self) == rank_of(other)
    }
}

impl Eq for Read {
    ghost laws = { Prim.search (comparing, rules) };
}

impl PartialOrd for Read {
    ghost partial_cmp = { as_partial_cmp read_cmp };

    ghost laws = { partial_order_from_own_ties (Prim.search (comparing, rules)) (Prim.search (comparing, rules)) };

    fn partial_cmp(&self, other: &Read) -> Option<Ordering> {
        Some(self.cmp(other))
    }
}

impl Ord for Read {
    ghost cmp = { read_cmp };

    ghost total = { Prim.search (comparing, rules) };

    ghost matches_partial_cmp = { Prim.search (comparing, rules) };

    ghost matches_eq = { Prim.search (comparing, rules) };

    // The path decides, and at one path the rank.
    fn cmp(&self, other: &Read) -> Ordering {
        path_of(self)
            .cmp(path_of(other))
            .then(rank_of(self).cmp(&rank_of(other)))
    }
}

impl Hash for Read {
    ghost hash_input = { λ read. fed.slice fed.u8 (path_of read) ++ fed.u8 (rank_of read) };

    ghost respects_eq = { Prim.search (hashing, rules) };

    fn hash<H: Hasher>(&self, state: &mut H) {
        path_of(self).hash(state);
        rank_of(self).hash(state);
    }
}

fn path_of(read: &Read) -> &[u8]
    ensures { result.now ≡ path_of read.now }
{
    match read {
        Read::TextOf(path) => path.as_bytes(),
        Read::KindOf(path) => path.as_bytes(),
        Read::NamesOf(path) => path.as_bytes(),
    }
}

fn rank_of(read: &Read) -> u8
    ensures { result ≡ rank_of read.now }
{
    match read {
        Read::TextOf(_) => 0,
        Read::KindOf(_) => 1,
        Read::NamesOf(_) => 2,
    }
}
