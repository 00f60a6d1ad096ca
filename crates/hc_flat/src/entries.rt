ghost use Rattle.std.specs.Prelude.{◌≡◌, ◌+◌, ◌∷◌, ◌++◌, []};
ghost use Rattle.std.specs.Prelude.{◌<◌, drop, length, string_bytes, IfOk};
ghost use Rattle.std.specs.Str.{IsUtf8};
ghost use Rattle.hc_flat.specs.EntriesView.{EndsWith, IsFilled, close_of, entry_of};
ghost use Rattle.hc_flat.specs.EntriesView.{is_last, row_behind, row_seen, spot_at};

use hc_base::{List, NoMemory, Span, Text};
use hc_model::EntryForm;
use std::alloc::Global;
use std::marker::Model;

/// Entries in their order. Each is kept as a row of numbers, and the texts of all stand one behind
/// another, so that a long list needs little more memory than its texts.
#[derive(Drop)]
pub struct Entries {
    /// The files, each once for entries of it that stand behind one another.
    files: List<Text>,
    rows: Vec<EntryRow>,
    /// The name of each entry and what follows it.
    texts: String,
}

/// An entry: the number of its file, its line, its span and form, and where its texts stand.
#[derive(Clone, Copy)]
pub(crate) struct EntryRow {
    file: u32,
    line: u32,
    span: Span,
    form: EntryForm,
    /// Where its name begins, where that ends and `rest` begins, and where `rest` ends.
    name: u32,
    rest: u32,
    end: u32,
}

/// An entry that is lent.
#[derive(Clone, Copy)]
pub struct EntryView<'e> {
    pub file: &'e Text,
    pub line: u32,
    pub span: Span,
    pub form: EntryForm,
    /// The name of the directive or of the section, and what follows it.
    pub name: &'e str,
    pub rest: &'e str,
}

impl Model for Entries {
    ghost use Rattle.std.specs.Prelude.{List, string_bytes};
    ghost use Rattle.hc_flat.specs.EntriesView.{Fit, rows_seen};
    ghost use Rattle.hc_model.specs.declared.entry.Entry as model;

    ghost Value = { List model.Entry };

    ghost view = { λ e. rows_seen e.files (string_bytes e.texts) e.rows.items };

    ghost invariant = { λ e. Fit e.files (string_bytes e.texts) e.rows.items };
}

impl Entries {
    /// No entries.
    pub fn new(alloc: Global) -> Entries
        ensures { result ≡ [] }
    {
        Entries {
            files: List::new(alloc),
            rows: Vec::new(alloc),
            texts: String::new(alloc),
        }
    }

    pub fn allocator(&self) -> Global {
        self.files.allocator()
    }

    /// The same entries, with room for so many more, and for so many bytes of their texts, where there is
    /// memory for it: what grows by doubling leaves holes as large as itself.
    pub fn with_room(self, more: usize, bytes: usize) -> Entries
        ensures { result ≡ self }
    {
        let Entries {
            files,
            mut rows,
            mut texts,
        } = self;
        // Where there is none, each entry asks for its own.
        let _ = rows.reserve(more);
        let _ = texts.reserve(bytes);
        Entries { files, rows, texts }
    }

    /// How many entries there are.
    pub fn len(&self) -> usize
        ensures { result ≡ length self.now }
    {
        self.rows.len()
    }

    /// The entry at a place: the list from there on is this entry and those behind it.
    #[tactic(auto, using(crate::proofs::Rows::filled_at))]
    pub fn entry(&self, at: usize) -> EntryView<'_>
        requires { at < length self.now }
        ensures { drop at self.now ≡ entry_of result ∷ drop (at + 1) self.now }
    {
        lent(self.files.as_slice(), &self.texts, self.rows[at])
    }

    /// The entries and one more.
    pub fn with(self, entry: EntryView<'_>) -> Result<Entries, NoMemory>
        ensures { IfOk result (λ later. later ≡ self ++ entry_of entry.entry ∷ []) }
    {
        let Entries { files, rows, texts } = self;
        let files = with_file(files, entry.file)?;
        let row = row_of(files.as_slice(), &texts, entry)?;
        Ok(Entries {
            files,
            rows: with_row(rows, row)?,
            texts: with_text(with_text(texts, entry.name)?, entry.rest)?,
        })
    }
}

impl Entries {
    /// The entries and the close of the opening at a place, if there is one.
    pub fn with_close(
        self,
        place: usize,
        file: &Text,
        line: u32,
        span: Span,
    ) -> Result<Entries, NoMemory>
        ensures { IfOk result (λ later. later ≡ self ++ close_of (spot_at file.now line span) (drop place self)) }
    {
        if place >= self.len() {
            return Ok(self);
        }
        let alloc = self.allocator();
        let opening = self.entry(place);
        let name = String::from_str(alloc, opening.name)?;
        let rest = String::from_str(alloc, opening.rest)?;
        self.with(EntryView {
            file,
            line,
            span,
            form: EntryForm::Close,
            name: &name,
            rest: &rest,
        })
    }
}

impl Clone for Entries {
    ghost is_clone = { λ entries copy. copy ≡ entries };

    fn clone(&self) -> Result<Entries, NoMemory> {
        Ok(Entries {
            files: self.files.copy()?,
            rows: self.rows.clone()?,
            texts: self.texts.clone()?,
        })
    }
}

#[tactic(auto, using(crate::proofs::Rows::boundary))]
fn lent<'e>(files: &'e [Text], texts: &'e str, row: EntryRow) -> EntryView<'e>
    requires { IsFilled files.now texts.now row }
    ensures { entry_of result ≡ row_seen files.now texts.now row }
{
    EntryView {
        file: &files[row.file as usize],
        line: row.line,
        span: row.span,
        form: row.form,
        name: &texts[row.name as usize..row.rest as usize],
        rest: &texts[row.rest as usize..row.end as usize],
    }
}

// The row of an entry of the last file, behind these texts.
fn row_of(files: &[Text], texts: &str, entry: EntryView<'_>) -> Result<EntryRow, NoMemory>
    requires { 0 < length files.now }
    ensures { IfOk result (λ row. row ≡ row_behind (length files.now) (length texts.now) (entry_of entry.entry)) }
{
    let name = counted(texts.len())?;
    let rest = behind(name, entry.name.len())?;
    Ok(EntryRow {
        file: counted(files.len() - 1)?,
        line: entry.line,
        span: entry.span,
        form: entry.form,
        name,
        rest,
        end: behind(rest, entry.rest.len())?,
    })
}

fn behind(start: u32, len: usize) -> Result<u32, NoMemory>
    ensures { IfOk result (λ end. end ≡ start + len) }
{
    let Some(end) = start.checked_add(counted(len)?) else {
        return Err(NoMemory);
    };
    Ok(end)
}

fn with_row(mut rows: Vec<EntryRow>, row: EntryRow) -> Result<Vec<EntryRow>, NoMemory>
    ensures { IfOk result (λ later. later.items ≡ rows.items ++ row ∷ []) }
{
    rows.push(row)?;
    Ok(rows)
}

fn with_text(mut texts: String, text: &str) -> Result<String, NoMemory>
    ensures more { IfOk result (λ later. string_bytes later ≡ string_bytes texts ++ text.now) }
    ensures utf8 { IsUtf8 text.now }
{
    texts.push_str(text)?;
    Ok(texts)
}

// The files with this one at the end.
#[tactic(auto, using(crate::proofs::Rows::same_files, crate::proofs::Rows::one_more_file))]
fn with_file(mut files: List<Text>, file: &Text) -> Result<List<Text>, NoMemory>
    ensures { IfOk result (EndsWith file.now files) }
{
    if is_last(files.as_slice(), file) {
        return Ok(files);
    }
    files.push(file.clone()?)?;
    Ok(files)
}

fn is_last(files: &[Text], file: &Text) -> bool
    ensures { result ≡ is_last files.now file.now }
{
    match files.last() {
        Some(last) => last.as_bytes() == file.as_bytes(),
        None => false,
    }
}

/// More than a `u32` counts find no memory.
pub(crate) fn counted(count: usize) -> Result<u32, NoMemory>
    ensures { IfOk result (λ number. number ≡ count) }
{
    if count > u32::MAX as usize {
        return Err(NoMemory);
    }
    Ok(count as u32)
}
