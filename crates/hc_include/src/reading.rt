ghost use Rattle.std.specs.Prelude.{◌≡◌, IfOk};
ghost use Rattle.hc_flat.specs.EntriesView.{innermost};
ghost use Rattle.hc_include.specs.Flat.{flat_at};
ghost use Rattle.hc_include.specs.Lines.{changed, closed_at, kept_at, opened_at};
ghost use Rattle.hc_include.specs.Lines.{replaced_in, spot_of, stopped_at};

use crate::change::Change;
use hc_base::{AtByte, List, NoMemory, Place, Refusal, Text};
use hc_flat::{Entries, EntryView, Flat, Places};
use hc_lines::{FileKind, Line, skip_blanks};
use hc_model::{EntryForm, Read};
use hc_nodes::split_name;
use hc_says::{Defines, Modules, Says, Utf8, replaced, with_define, with_module, with_root};
use std::alloc::Global;

/// How a text is read.
#[derive(Clone, Copy)]
pub struct Setting {
    pub kind: FileKind,
    /// A directive says something to the lines behind it: Define, LoadModule, ServerRoot, Include.
    pub says: bool,
}

/// What was read so far.
#[derive(Drop)]
pub struct Reading {
    pub setting: Setting,
    pub entries: Entries,
    /// What they say, with what was said before the first.
    pub defines: Defines,
    pub modules: Modules,
    pub root: Option<Utf8>,
    /// The places, among the entries, of the openings that are open, the outermost first.
    pub openings: Places,
    /// In a body that is dropped, how many sections are open from its own on; elsewhere 0.
    pub dropped: u32,
    /// The bytes of the texts.
    pub bytes: u64,
}

/// The first refusal, and what was read before it.
#[derive(Drop)]
pub struct Stopped {
    pub reading: Reading,
    pub refusal: Refusal,
}

impl Reading {
    /// The flat list of a file that was read so far.
    pub(crate) fn into_flat(self, file: Text, reads: List<Read>, stop: Option<Refusal>) -> Flat
        ensures { result ≡ flat_at file reads stop self }
    {
        Flat {
            file,
            entries: self.entries,
            defines: self.defines.into_list(),
            modules: self.modules.into_list(),
            stop,
            reads,
        }
    }

    /// A text with its variables replaced.
    pub(crate) fn replaced(&self, alloc: Global, text: &str) -> Result<Utf8, NoMemory>
        ensures { IfOk result (λ made. made ≡ replaced_in self.now text.now) }
    {
        Ok(Utf8::from(replaced(alloc, text, &self.defines)?))
    }

    /// The same, with room for the entries of these lines and for their texts, where there is memory for it.
    pub(crate) fn with_room(mut self, lines: &[Line]) -> Reading
        ensures { result ≡ self }
    {
        self.entries = self.entries.with_room(lines.len(), bytes_in(lines));
        self
    }

    /// What was read behind a line that changes this.
    pub(crate) fn changed(
        self,
        file: &Text,
        line: &Line,
        change: Change,
    ) -> Result<Reading, NoMemory>
        ensures { IfOk result (λ later. later ≡ changed (spot_of file.now line.now) self change) }
    {
        match change {
            Change::Drops(dropped) => Ok(self.dropping(dropped)),
            Change::Closes => self.closing(file, line),
            Change::Opens { inside, is_kept } => {
                self.opening(file, line, inside.as_str(), is_kept)
            }
            Change::Keeps { text, says } => self.keeping(file, line, text.as_str(), says),
        }
    }

    /// It was stopped at a line of a file.
    pub(crate) fn stopped_at(
        self,
        file: &Text,
        line: u32,
        broken: AtByte,
    ) -> Result<Stopped, NoMemory>
        ensures { IfOk result (λ stopped. stopped ≡ stopped_at file.now line self broken) }
    {
        let file = file.clone()?;
        let refusal = Refusal::at(self.entries.allocator(), Place { file, line }, broken);
        Ok(Stopped {
            reading: self,
            refusal,
        })
    }

    fn dropping(mut self, dropped: u32) -> Reading
        ensures { result ≡ record self { dropped = dropped } }
    {
        self.dropped = dropped;
        self
    }

    // The innermost opening is closed.
    fn closing(mut self, file: &Text, line: &Line) -> Result<Reading, NoMemory>
        ensures { IfOk result (λ later.
            later ≡ closed_at (spot_of file.now line.now) (innermost self.openings) self) }
    {
        let Some(place) = self.openings.last() else {
            return Ok(self);
        };
        let place = place as usize;
        self.entries = self
            .entries
            .with_close(place, file, line.number, line.span)?;
        self.openings = self.openings.without_last();
        self.dropped = 0;
        Ok(self)
    }

    fn opening(
        mut self,
        file: &Text,
        line: &Line,
        inside: &str,
        is_kept: bool,
    ) -> Result<Reading, NoMemory>
        ensures { IfOk result (λ later. later ≡ opened_at (spot_of file.now line.now) inside.now is_kept self) }
    {
        let place = self.entries.len();
        let (name, rest) = split_name(inside);
        self.entries = self.entries.with(EntryView {
            file,
            line: line.number,
            span: line.span,
            form: EntryForm::Opening,
            name,
            rest,
        })?;
        self.openings = self.openings.with(place)?;
        self.dropped = u32::from(!is_kept);
        Ok(self)
    }

    fn keeping(
        mut self,
        file: &Text,
        line: &Line,
        text: &str,
        says: Says,
    ) -> Result<Reading, NoMemory>
        ensures { IfOk result (λ later. later ≡ kept_at (spot_of file.now line.now) text.now says self) }
    {
        let (name, rest) = split_name(skip_blanks(text));
        self.entries = self.entries.with(EntryView {
            file,
            line: line.number,
            span: line.span,
            form: EntryForm::Directive,
            name,
            rest,
        })?;
        self.defines = with_define(self.defines, &says)?;
        self.modules = with_module(self.modules, &says)?;
        self.root = with_root(self.root, says);
        Ok(self)
    }
}

// The bytes of lines.
fn bytes_in(lines: &[Line]) -> usize {
    let mut bytes = 0usize;
    for line in lines {
        bytes = bytes.saturating_add(line.text.as_str().len());
    }
    bytes
}
