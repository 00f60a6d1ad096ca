ghost use Rattle.std.specs.Prelude.{◌≡◌, ◌+◌, ◌≤◌, true, not, length, IfOk, OnOk, OnErr, option_map};
ghost use Rattle.std.specs.FinMap.{empty, get, insert, retain_keys};
ghost use Rattle.hc_base.specs.Gives.{GivesList};
ghost use Rattle.hc_base.specs.Lines.{pieces};
ghost use Rattle.hc_kept_lines.specs.Edit.{anew, is_range, spliced};
ghost use Rattle.hc_kept_lines.specs.Runs.{AreLinesOf};
ghost use Rattle.hc_lines.specs.Logical.{lines_of};
ghost use Rattle.hc_texts.specs.Texts.{HasLines};
ghost use Rattle.hc_world.specs.Edits.{is_within};

use crate::within::is_within;
use hc_base::{Counter, Fault, NoMemory};
use hc_kept_lines::KeptLines;
use hc_lines::{FileKind, Line, LineFault};
use std::alloc::Global;
use std::collections::BTreeMap;
use std::marker::Model;
use std::sync::ledger::Ledger;

/// What the logical lines of texts were read as, by the paths of their files.
#[derive(Drop)]
pub struct KeptTexts {
    alloc: Global,
    by_path: BTreeMap<Vec<u8>, KeptLines>,
}

impl Model for KeptTexts {
    ghost use Rattle.hc_texts.specs.Texts.{Texts, texts_of};
    ghost use Rattle.std.specs.Coded.{coded_list, coded_ℕ};
    ghost use Rattle.std.specs.FinMap.{code};
    ghost use Rattle.hc_kept_lines.specs.contracts.lines.KeptLines as kept;

    ghost Value = { Texts };

    ghost coded = { code (coded_list coded_ℕ) kept.the_row.coded };

    ghost view = { λ t. texts_of t.by_path.entries };
}

impl KeptTexts {
    /// None yet. It takes no memory.
    pub fn new(alloc: Global) -> KeptTexts
        ensures { result ≡ empty }
    {
        KeptTexts {
            alloc,
            by_path: BTreeMap::new(alloc),
        }
    }

    /// The lines of the text of a file as one of this kind, or its first refusal.
    pub fn lines<'t>(
        &self,
        alloc: Global,
        path: &[u8],
        text: &'t str,
        kind: FileKind,
    ) -> Result<Vec<Line<'t>>, LineFault>
        requires { HasLines self.now path.now text.now }
        ensures { GivesList result (lines_of kind text.now) }
    {
        match self.kept(path) {
            Some(kept) => kept.lines(alloc, text, kind),
            // This can't come: they are kept.
            None => Err(Fault::NoMemory),
        }
    }

    /// What the lines of the text of a file are read as behind an edit, as `KeptLines::edited` says.
    pub fn edited<L: Ledger>(
        &self,
        path: &[u8],
        old: &str,
        from: u32,
        to: u32,
        new: &str,
        bytes: &mut Counter<L>,
    ) -> Result<KeptLines, NoMemory>
        requires lines { HasLines self.now path.now old.now }
        requires range { is_range (length (pieces old.now)) from to ≡ true }
        ensures lines { IfOk result (AreLinesOf (spliced old.now from to new.now)) }
        ensures rise { bytes.old ≤ bytes.new }
        ensures bytes { bytes.new ≤ bytes.old + anew old.now from to new.now }
    {
        match self.kept(path) {
            Some(kept) => kept.edited(self.alloc, old, from, to, new, bytes),
            // This can't come: they are kept.
            None => Err(NoMemory),
        }
    }

    // The lines that are kept for a path.
    fn kept(&self, path: &[u8]) -> Option<&KeptLines>
        ensures { option_map (λ kept. kept.now) result ≡ get self.now path.now }
    {
        self.by_path.get(path)
    }

    /// Keeps the lines of the text of a file, in the place of those that were kept.
    pub fn put(&mut self, path: &[u8], lines: KeptLines) -> Result<(), NoMemory>
        ensures ok { OnOk result (self.new ≡ insert self.old path.now lines) }
        ensures err { OnErr result (self.new ≡ self.old) }
    {
        self.by_path.insert(path.to_vec(self.alloc)?, lines)?;
        Ok(())
    }

    /// Forgets the lines of a file, and of all files below its path.
    pub fn forget(&mut self, path: &[u8])
        ensures { self.new ≡ retain_keys self.old (λ other. not (is_within path.now other)) }
    {
        self.by_path.retain(
            |other: &Vec<u8>, lines: &mut KeptLines| -> bool
                ensures { (result ≡ not (is_within path.entry.now other.now.items)) × (lines.new ≡ lines.old) }
            { !is_within(path, other) },
        );
    }
}
