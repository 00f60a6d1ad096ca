ghost use Rattle.std.specs.Prelude.{◌≡◌, IfOk};
ghost use Rattle.hc_match.specs.Settings.{captured, held_over, set_to};
ghost use Rattle.hc_ways.specs.Kept.{nothing_held};

use hc_base::{NoMemory, Span};

/// A group is set to a span.
#[derive(Clone, Copy)]
pub struct Setting {
    pub group: u8,
    pub span: Span,
}

/// What the groups of a pattern hold after a match: those that took part in it their last span.
/// Group 0 is the whole match.
#[derive(Drop)]
pub struct Captures {
    // The newest first.
    settings: Vec<Setting>,
}

impl Setting {
    /// The group is set to what stands between these places.
    pub fn to(group: u8, start: usize, end: usize) -> Result<Setting, NoMemory>
        ensures { IfOk result (λ setting. setting ≡ set_to group start end) }
    {
        let (Ok(start), Ok(end)) = (u32::try_from(start), u32::try_from(end)) else {
            return Err(NoMemory);
        };
        Ok(Setting {
            group,
            span: Span { start, end },
        })
    }
}

impl Clone for Captures {
    ghost is_clone = { λ captures copy. captured copy ≡ captured captures };

    fn clone(&self) -> Result<Captures, NoMemory> {
        Ok(Captures {
            settings: self.settings.clone()?,
        })
    }
}

impl Captures {
    pub(crate) fn of(settings: Vec<Setting>) -> Captures
        ensures { captured result ≡ held_over nothing_held settings.items }
    {
        Captures { settings }
    }

    /// What the group holds: none where it was not set, or is not in the pattern.
    pub fn get(&self, group: u8) -> Option<Span>
        ensures { result ≡ captured self.now group }
    {
        for setting in &self.settings {
            if setting.group == group {
                return Some(setting.span);
            }
        }
        None
    }
}
