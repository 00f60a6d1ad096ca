ghost use Rattle.std.specs.Prelude.{◌≡◌, IfOk};
ghost use Rattle.hc_flat.specs.EntriesView.{entry_of};

use crate::containers::Container;
use crate::source::Source;
use hc_base::{NoMemory, Place};
use hc_flat::{Entries, EntryView};
use hc_model::Spot;
use hc_table::Context;
use std::alloc::Global;

/// An entry among the others of its list: a rule may look at those before it and those behind it.
#[derive(Clone, Copy)]
pub(crate) struct Among<'e> {
    pub alloc: Global,
    /// Whose text it stands in.
    pub source: Source,
    /// The context in which it stands.
    pub context: Context,
    /// The innermost container of Require lines that it stands in.
    pub container: Option<Container>,
    /// An `<If>` or `<ElseIf>` is closed right before it.
    pub chained: bool,
    /// It stands right in a `<Directory>` with wildcards.
    pub wild: bool,
    pub entries: &'e Entries,
    /// Its place among them.
    pub place: usize,
    pub entry: EntryView<'e>,
}

/// The place of an entry.
pub(crate) fn place_of(entry: EntryView) -> Result<Place, NoMemory>
    ensures { IfOk result (λ place. place ≡ (entry_of entry.entry).spot.place) }
{
    Ok(Place {
        file: entry.file.clone()?,
        line: entry.line,
    })
}

/// The place and the span of an entry.
pub(crate) fn spot_of(entry: EntryView) -> Result<Spot, NoMemory>
    ensures { IfOk result (λ spot. spot ≡ (entry_of entry.entry).spot) }
{
    Ok(Spot {
        place: place_of(entry)?,
        span: entry.span,
    })
}
