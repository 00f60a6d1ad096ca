ghost use Rattle.std.specs.Prelude.{◌≡◌, OnOk, IsSome};
ghost use Rattle.std.specs.FinMap.{empty, get};
ghost use Rattle.hc_world.specs.Changes.{changes_at, last_change};
ghost use Rattle.hc_world.specs.Rows.{KeepsRows, SameRows, adjusted, made_in, numbers_of, with_all, with_names};
ghost use Rattle.hc_world.specs.Rows.{with_text};

use hc_base::NoMemory;
use hc_model::Read;
use std::alloc::Global;
use std::collections::BTreeMap;
use std::marker::Model;

/// The numbers of the last edits that changed what stands at a path, the text that is there, and the
/// names in it; 0 where none did.
#[derive(Clone, Copy, Drop)]
struct Changes {
    kind: u64,
    text: u64,
    names: u64,
}

const NEVER: Changes = Changes {
    kind: 0,
    text: 0,
    names: 0,
};

/// What is said of each path that has a row.
#[derive(Drop)]
pub(crate) struct Rows {
    entries: BTreeMap<Vec<u8>, Changes>,
}

impl Model for Rows {
    ghost use Rattle.hc_world.specs.Changes.{ChangeMap, change_map_code};
    ghost use Rattle.hc_world.specs.Rows.{rows_of};

    ghost Value = { ChangeMap };

    ghost coded = { change_map_code };

    ghost view = { λ r. rows_of r.entries.entries };
}

impl Rows {
    pub(crate) fn none(alloc: Global) -> Rows
        ensures { result ≡ empty }
    {
        Rows {
            entries: BTreeMap::new(alloc),
        }
    }

    /// The number of the last edit that changed what a read shows.
    pub(crate) fn last_change(&self, read: &Read) -> u64
        ensures { result ≡ last_change self.now read.now }
    {
        match read {
            Read::KindOf(path) => self.changes_at(path.as_bytes()).kind,
            Read::TextOf(path) => self.changes_at(path.as_bytes()).text,
            Read::NamesOf(path) => self.changes_at(path.as_bytes()).names,
        }
    }

    // What a path's row says, where it has one.
    fn changes_at(&self, path: &[u8]) -> Changes
        ensures { numbers_of result ≡ changes_at self.now path.now }
    {
        match self.entries.get(path) {
            Some(row) => *row,
            None => NEVER,
        }
    }

    /// Makes a path's row, where it has none, so that no mark needs memory. It says that nothing was
    /// ever changed.
    pub(crate) fn make_row(&mut self, alloc: Global, path: &[u8]) -> Result<(), NoMemory>
        ensures same { SameRows self.old self.new }
        ensures kept { KeepsRows self.old self.new }
        ensures there { OnOk result (IsSome (get self.new path.now)) }
    {
        if !self.entries.contains_key(path) {
            self.entries.insert(path.to_vec(alloc)?, NEVER)?;
        }
        Ok(())
    }

    /// Makes the rows of a directory and of a path in it, as `make_row` does.
    pub(crate) fn make_rows(
        &mut self,
        alloc: Global,
        directory: &[u8],
        path: &[u8],
    ) -> Result<(), NoMemory>
        ensures same { SameRows self.old self.new }
        ensures kept { KeepsRows self.old self.new }
        ensures directory { OnOk result (IsSome (get self.new directory.now)) }
        ensures path { OnOk result (IsSome (get self.new path.now)) }
    {
        self.make_row(alloc, directory)?;
        self.make_row(alloc, path)
    }

    /// Marks that something else stands at a path. A directory's names are others then.
    pub(crate) fn mark_all(&mut self, path: &[u8], is_dir: bool, number: u64)
        ensures { self.new ≡ adjusted self.old path.now (with_all is_dir number) }
    {
        let Some(row) = self.entries.get_mut(path) else {
            return;
        };
        *row = with_all(*row, is_dir, number);
    }

    /// Marks that a file has another text.
    pub(crate) fn mark_text(&mut self, path: &[u8], number: u64)
        ensures { self.new ≡ adjusted self.old path.now (with_text number) }
    {
        let Some(row) = self.entries.get_mut(path) else {
            return;
        };
        row.text = number;
    }

    /// Marks that a directory has other names.
    pub(crate) fn mark_names(&mut self, path: &[u8], number: u64)
        ensures { self.new ≡ adjusted self.old path.now (with_names number) }
    {
        let Some(row) = self.entries.get_mut(path) else {
            return;
        };
        row.names = number;
    }

    /// Marks what was made in a directory.
    pub(crate) fn mark_made(&mut self, directory: &[u8], path: &[u8], is_dir: bool, number: u64)
        ensures { self.new ≡ made_in self.old directory.now path.now is_dir number }
    {
        self.mark_all(path, is_dir, number);
        self.mark_names(directory, number);
    }
}

// The row of what is made or taken away.
fn with_all(row: Changes, is_dir: bool, number: u64) -> Changes
    ensures { numbers_of result ≡ with_all is_dir number (numbers_of row) }
{
    Changes {
        kind: number,
        text: number,
        names: if is_dir { number } else { row.names },
    }
}
