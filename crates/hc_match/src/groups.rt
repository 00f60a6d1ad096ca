ghost use Rattle.std.specs.Prelude.{◌≡◌, Some, IfOk, reverse};
ghost use Rattle.hc_ways.specs.Kept.{nothing_held};
ghost use Rattle.hc_match.specs.Settings.{held_over};
ghost use Rattle.hc_match.specs.Program.{closed_at, kept_past, nothing_kept, opened};
ghost use Rattle.hc_match.specs.Pairs.{kept_in};

use crate::captures::Setting;
use crate::program::Step;
use hc_base::{NoMemory, Span};
use std::alloc::Global;

// Where the groups that are open began, the innermost last, and the settings, the newest last.
#[derive(Drop)]
pub struct Groups {
    starts: Vec<u32>,
    settings: Vec<Setting>,
}

impl Groups {
    /// No group is open, and none holds anything.
    pub fn none(alloc: Global) -> Groups
        ensures { kept_in result ≡ nothing_kept }
    {
        Groups {
            starts: Vec::new(alloc),
            settings: Vec::new(alloc),
        }
    }

    /// The settings, the newest last.
    pub fn into_settings(self) -> Vec<Setting>
        ensures { held_over nothing_held (reverse result.items) ≡ (kept_in self).held }
    {
        self.settings
    }

    /// Comes past a step.
    pub fn pass(&mut self, step: Step, at: u32) -> Result<(), NoMemory>
        ensures { IfOk result (λ _. kept_in self.new ≡ kept_past (Some step) at (kept_in self.old)) }
    {
        match step {
            Step::Open { .. } => self.open(at),
            Step::Close { group, .. } => self.close(group, at),
            _ => Ok(()),
        }
    }

    fn open(&mut self, at: u32) -> Result<(), NoMemory>
        ensures { IfOk result (λ _. kept_in self.new ≡ opened at (kept_in self.old)) }
    {
        self.starts.push(at)?;
        Ok(())
    }

    fn close(&mut self, group: u8, at: u32) -> Result<(), NoMemory>
        ensures { IfOk result (λ _. kept_in self.new ≡ closed_at group at (kept_in self.old)) }
    {
        let start = self.starts.pop().unwrap_or(0);
        self.settings.push(Setting {
            group,
            span: Span { start, end: at },
        })?;
        Ok(())
    }
}
