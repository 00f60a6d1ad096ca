ghost use Rattle.std.proofs.Common.{rules};
ghost use Rattle.std.specs.Cmp.{partial_order_from_own_ties};
ghost use Rattle.std.specs.Cmp.Rules.{comparing};
ghost use Rattle.std.specs.Ordering.{as_partial_cmp, eq_by_cmp};
ghost use Rattle.std.specs.Prelude.{◌≡◌, IfOk};
ghost use Rattle.std.specs.Str.{str_to_ascii_lowercase};
ghost use Rattle.hc_cells.specs.Cells.{is_variable};
ghost use Rattle.hc_cells.specs.Slots.{name_of, rank_of, slot_cmp};

use hc_base::{NoMemory, Text};
use std::alloc::Global;
use std::cmp::Ordering;

/// What the state of a request holds a text for. Slots are ordered as they stand here, those of a kind
/// by the bytes of their names.
#[derive(Drop)]
pub enum Slot {
    /// The path of the target.
    Origin,
    /// The URL path of the pass.
    Path,
    Query,
    /// The text that is rewritten.
    Text,
    /// The file name.
    Name,
    /// The path information.
    Info,
    /// `1` where END was met, else empty.
    End,
    Method,
    /// The line of the request.
    Request,
    /// The variable of this name.
    Env(Text),
    /// The header of this name, in lower case: `Slot::header` makes it.
    Header(Text),
    /// The query that the request began with.
    FirstQuery,
    /// Where a redirect leads, without what is added in front and without the query.
    Location,
}

impl Slot {
    /// The slot of a header; its name is compared without case.
    pub fn header(alloc: Global, name: &[u8]) -> Result<Slot, NoMemory>
        ensures { IfOk result (λ slot. slot ≡ Slot.Header (str_to_ascii_lowercase name.now)) }
    {
        let bytes: Vec<u8> = name
            .iter()
            .map(|byte| byte.to_ascii_lowercase())
            .collect(alloc)?;
        Ok(Slot::Header(Text::from(bytes)))
    }

    pub(crate) fn is_variable(&self) -> bool
        ensures { result ≡ is_variable self.now }
    {
        match self {
            Slot::Env(_) => true,
            _ => false,
        }
    }
}

impl PartialEq for Slot {
    ghost eq = { eq_by_cmp slot_cmp };

    ghost laws = { Prim.search (comparing, rules) };

    fn eq(&self, other: &Slot) -> bool {
        self.cmp(other) == Ordering::Equal
    }
}

impl Eq for Slot {
    ghost laws = { Prim.search (comparing, rules) };
}

impl PartialOrd for Slot {
    ghost partial_cmp = { as_partial_cmp slot_cmp };

    ghost laws = { partial_order_from_own_ties (Prim.search (comparing, rules)) (Prim.search (comparing, rules)) };

    fn partial_cmp(&self, other: &Slot) -> Option<Ordering> {
        Some(self.cmp(other))
    }
}

impl Ord for Slot {
    ghost cmp = { slot_cmp };

    ghost total = { Prim.search (comparing, rules) };

    ghost matches_partial_cmp = { Prim.search (comparing, rules) };

    ghost matches_eq = { Prim.search (comparing, rules) };

    fn cmp(&self, other: &Slot) -> Ordering {
        rank_of(self)
            .cmp(&rank_of(other))
            .then(name_of(self).cmp(name_of(other)))
    }
}

/// The place of a slot's kind among all kinds.
fn rank_of(slot: &Slot) -> u8
    ensures { result ≡ rank_of slot.now }
{
    match slot {
        Slot::Origin => 0,
        Slot::Path => 1,
        Slot::Query => 2,
        Slot::Text => 3,
        Slot::Name => 4,
        Slot::Info => 5,
        Slot::End => 6,
        Slot::Method => 7,
        Slot::Request => 8,
        Slot::Env(_) => 9,
        Slot::Header(_) => 10,
        Slot::FirstQuery => 11,
        Slot::Location => 12,
    }
}

/// The name of a variable or a header.
fn name_of(slot: &Slot) -> &[u8]
    ensures { result.now ≡ name_of slot.now }
{
    match slot {
        Slot::Env(name) => name.as_bytes(),
        Slot::Header(name) => name.as_bytes(),
        _ => &[],
    }
}

impl Clone for Slot {
    ghost is_clone = { λ slot copy. copy ≡ slot };

    fn clone(&self) -> Result<Slot, NoMemory> {
        match self {
            Slot::Origin => Ok(Slot::Origin),
            Slot::Path => Ok(Slot::Path),
            Slot::Query => Ok(Slot::Query),
            Slot::Text => Ok(Slot::Text),
            Slot::Name => Ok(Slot::Name),
            Slot::Info => Ok(Slot::Info),
            Slot::End => Ok(Slot::End),
            Slot::Method => Ok(Slot::Method),
            Slot::Request => Ok(Slot::Request),
            Slot::Env(name) => Ok(Slot::Env(name.clone()?)),
            Slot::Header(name) => Ok(Slot::Header(name.clone()?)),
            Slot::FirstQuery => Ok(Slot::FirstQuery),
            Slot::Location => Ok(Slot::Location),
        }
    }
}
