ghost use Rattle.std.specs.Prelude.{◌≡◌, IfOk};
ghost use Rattle.hc_claim_lines.specs.ClaimLines.{claim_lines, is_line, places_in};
ghost use Rattle.hc_flat.specs.EntriesView.{entry_of};

use crate::subject::Subject;
use hc_base::{List, NoMemory, Place};
use hc_flat::{Entries, EntryView};
use hc_model::EntryForm;
use std::alloc::Global;

/// The places of the lines of a configuration that claims may speak of, in the order of its flat list.
#[derive(Drop)]
pub struct ClaimLines {
    /// The RewriteRule lines.
    pub rules: List<Place>,
    /// The Require lines.
    pub guards: List<Place>,
}

impl ClaimLines {
    /// Those of a flat list.
    #[tactic(auto, unfolding(crate::specs::ClaimLines::claim_lines))]
    pub fn of(alloc: Global, entries: &Entries) -> Result<ClaimLines, NoMemory>
        ensures { IfOk result (λ lines. lines ≡ claim_lines entries.now) }
    {
        Ok(ClaimLines {
            rules: places_in(alloc, Subject::Rule, entries)?,
            guards: places_in(alloc, Subject::Require, entries)?,
        })
    }
}

fn places_in(alloc: Global, subject: Subject, entries: &Entries) -> Result<List<Place>, NoMemory>
    ensures { IfOk result (λ places. places ≡ places_in subject entries.now) }
{
    let mut places = List::new(alloc);
    for entry in entries.iter() {
        if is_line(subject, entry) {
            places.push(place_of(entry)?)?;
        }
    }
    Ok(places)
}

fn is_line(subject: Subject, entry: EntryView<'_>) -> bool
    ensures { result ≡ is_line subject (entry_of entry.entry) }
{
    entry.form == EntryForm::Directive && subject.is_named(entry.name.as_bytes())
}

fn place_of(entry: EntryView<'_>) -> Result<Place, NoMemory>
    ensures { IfOk result (λ place. place ≡ (entry_of entry.entry).spot.place) }
{
    Ok(Place {
        file: entry.file.clone()?,
        line: entry.line,
    })
}
