ghost use Rattle.std.specs.Prelude.{◌≡◌, IfOk};
ghost use Rattle.hc_merge.specs.CandidateView.{candidate_of, spot_from};
ghost use Rattle.hc_merge.specs.Candidates.{at_directory, untested};
ghost use Rattle.hc_merge.specs.Overriding.{htaccess_of, override_of, override_spot};

use hc_base::paths::ends_with_slash;
use hc_base::{NoMemory, Place, Span, Text};
use hc_model::{Body, HtFile, Reach, Section, Spot};
use std::alloc::Global;

/// Where a candidate stands.
#[derive(Clone, Copy)]
pub enum Origin<'c> {
    /// A section, by its opening.
    Section { place: &'c Place, span: Span },
    /// The `.htaccess` of a directory.
    Override { dir: &'c Text },
}

/// A section, or a `.htaccess`, with where it stands in the order in which sections are merged.
#[derive(Clone, Copy)]
pub struct Candidate<'c> {
    pub origin: Origin<'c>,
    /// In the first group the directory at which it applies.
    pub dir: Option<&'c Text>,
    /// In the other groups where it applies.
    pub reach: Option<&'c Reach>,
    /// The place in the list of the section around it.
    pub parent: Option<u32>,
    pub body: &'c Body,
}

impl Origin<'_> {
    /// The place of the opening; that of a `.htaccess` has line 0 and an empty span.
    pub fn spot(self, alloc: Global) -> Result<Spot, NoMemory>
        ensures { IfOk result (λ spot. spot ≡ spot_from self.entry) }
    {
        match self {
            Origin::Section { place, span } => Ok(Spot {
                place: place.clone()?,
                span,
            }),
            Origin::Override { dir } => override_spot(alloc, dir),
        }
    }
}

fn override_spot(alloc: Global, dir: &Text) -> Result<Spot, NoMemory>
    ensures { IfOk result (λ spot. spot ≡ override_spot dir.now) }
{
    Ok(Spot {
        place: Place {
            file: htaccess_of(alloc, dir.as_bytes())?,
            line: 0,
        },
        span: Span { start: 0, end: 0 },
    })
}

/// The path of the `.htaccess` of a directory (Apache manual, ".htaccess files").
pub fn htaccess_of(alloc: Global, dir: &[u8]) -> Result<Text, NoMemory>
    ensures { IfOk result (λ file. file ≡ htaccess_of dir.now) }
{
    let mut file = dir.to_vec(alloc)?;
    if !ends_with_slash(dir) {
        file.push(b'/')?;
    }
    file.extend_from_slice(b".htaccess")?;
    Ok(Text::from(file))
}

pub(crate) fn at_directory<'c>(dir: &'c Text, section: &'c Section) -> Candidate<'c>
    ensures { candidate_of result ≡ at_directory dir.now section.now }
{
    Candidate {
        origin: Origin::Section {
            place: &section.place,
            span: section.span,
        },
        dir: Some(dir),
        reach: None,
        parent: None,
        body: &section.body,
    }
}

pub(crate) fn untested<'c>(parent: Option<u32>, section: &'c Section) -> Candidate<'c>
    ensures { candidate_of result ≡ untested parent section.now }
{
    Candidate {
        origin: Origin::Section {
            place: &section.place,
            span: section.span,
        },
        dir: None,
        reach: Some(&section.reach),
        parent,
        body: &section.body,
    }
}

pub(crate) fn override_of<'c>(dir: &'c Text, file: &'c HtFile) -> Candidate<'c>
    ensures { candidate_of result ≡ override_of dir.now file.now }
{
    Candidate {
        origin: Origin::Override { dir },
        dir: Some(dir),
        reach: None,
        parent: None,
        body: &file.body,
    }
}
