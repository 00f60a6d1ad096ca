ghost use Rattle.std.specs.Prelude.{◌≡◌, ◌<◌, ◌≤◌, ◌-◌, ◌^◌, IfOk};
ghost use Rattle.std.specs.FinMap.{empty, get};
ghost use Rattle.std.specs.Option.{option_map};
ghost use Rattle.hc_model.specs.Node.{kind_of, text_of};
ghost use Rattle.hc_model.specs.World.{IsWorld, names_in, new_world, put as put_in};
ghost use Rattle.hc_model.specs.Walking.{walk as walk_in};
ghost use Rattle.hc_world.specs.Edits.{Edits, EditsFiles, IsEdit, changed_at, dropped, lines_edited, listed};
ghost use Rattle.hc_world.specs.Marks.{FilesMarked};
ghost use Rattle.hc_world.specs.Places.{HasUtf8, paths_of};

use crate::changes::Rows;
use crate::drop::drop_path;
use crate::entries::{Files, make_dir, put_file};
use crate::lines::edit_lines;
use crate::names::names;
use crate::nodes::{Entry, Nodes};
use crate::walk::follow;
use hc_base::{Fault, List, NoMemory, Text};
use hc_model::{Kind, Read, Texts, Walk};
use hc_steps::Log;
use std::alloc::Global;
use std::marker::Model;

/// Why an edit was not made: its number is that of the broken rule.
pub type WorldFault = Fault<u8>;

/// Files and directories by their absolute paths. The root is always there, and what is above a
/// path is a directory.
#[derive(Drop)]
pub struct World {
    files: Files,
    edits: u64,
}

/// What `World::list` makes, and `World::paths` lists.
#[derive(Clone, Copy, PartialEq, Eq)]
pub enum ListKind {
    File,
    Dir,
}

impl Model for World {
    ghost use Rattle.hc_model.specs.World as model;
    ghost use Rattle.hc_world.specs.Edits.{Edited, edited_code};

    ghost Value = { Edited };

    ghost coded = { edited_code };

    ghost use Rattle.hc_world.specs.Rows.{IsNoLater, seen_rows};

    ghost view = { λ w. record { files = w.files.nodes; edits = w.edits; changes = seen_rows w.files.rows } };

    ghost invariant = { λ w. model.IsWorld w.files.nodes × IsNoLater w.edits w.files.rows };
}

impl World {
    /// The world that has the root alone.
    pub fn new(alloc: Global) -> Result<World, NoMemory>
        ensures new { IfOk result (λ world. world ≡ record { files = new_world; edits = 0; changes = empty }) }
        ensures valid { IfOk result (λ world. IsWorld world.files) }
    {
        let files = Files {
            alloc,
            nodes: Nodes::root(alloc)?,
            rows: Rows::none(alloc),
        };
        Ok(World { files, edits: 0 })
    }

    /// What stands at a path.
    pub fn kind(&self, path: &[u8]) -> Kind
        ensures { result ≡ kind_of (get self.now.files path.now) }
    {
        self.files.nodes.kind(path)
    }

    /// The text of the file at a path.
    pub fn text(&self, path: &[u8]) -> Option<&str>
        ensures { option_map (λ text. text.now) result ≡ text_of (get self.now.files path.now) }
    {
        self.files.nodes.text(path)
    }

    /// How many edits were accepted.
    pub fn edits(&self) -> u64
        ensures count { result ≡ self.now.edits }
        ensures last { (read : Read) → changed_at self.now read ≤ result }
    {
        self.edits
    }

    /// The names in a directory, in byte order; none where there is no directory.
    pub fn names(&self, directory: &[u8]) -> Result<List<Text>, NoMemory>
        ensures { IfOk result (λ names. names ≡ names_in self.now.files directory.now) }
    {
        names(self.files.alloc, &self.files.nodes, directory)
    }

    /// The paths of the files, or of the directories, in byte order.
    pub fn paths(&self, kind: ListKind) -> Result<List<Text>, NoMemory>
        ensures paths { IfOk result (λ paths. paths ≡ paths_of self.now.files kind) }
        ensures valid { IsWorld self.now.files }
        ensures texts { HasUtf8 self.now.files }
    {
        self.files.nodes.paths(self.files.alloc, kind)
    }

    /// Makes or replaces the file at a path, with this text, and makes its missing parents.
    /// Refusals, the first that holds: 41 the path's form, 42 a parent is a file, 47 a directory is
    /// there.
    pub fn put(&mut self, path: &[u8], text: &str) -> Result<(), WorldFault>
        requires { self.old.edits < 2 ^ 64 - 1 }
        ensures edit { Edits result self.old self.new (put_in self.old.files path.now text.now) }
        ensures kept { IsEdit path.now self.old.files self.new.files }
    {
        let text = String::from_str(self.files.alloc, text)?;
        let number = self.edits + 1;
        match put_file(&mut self.files, path, Entry::Text(text), number) {
            Ok(()) => {
                self.edits = number;
                Ok(())
            }
            Err(fault) => Err(fault),
        }
    }

    /// Makes a directory at a path, where one that is there stays, or a file without a text, which
    /// replaces a file; and makes its missing parents. Refusals, the first that holds: 41 the path's
    /// form, 42 a parent is a file or a directory would replace a file, 47 a file would replace a
    /// directory.
    pub fn list(&mut self, path: &[u8], kind: ListKind) -> Result<(), WorldFault>
        requires { self.old.edits < 2 ^ 64 - 1 }
        ensures edit { Edits result self.old self.new (listed self.old.files path.now kind) }
        ensures kept { IsEdit path.now self.old.files self.new.files }
    {
        let number = self.edits + 1;
        match list(&mut self.files, path, kind, number) {
            Ok(()) => {
                self.edits = number;
                Ok(())
            }
            Err(fault) => Err(fault),
        }
    }

    /// Takes a path and all below it away. Refusals, the first that holds: 41 the path's form, or the
    /// root; 40 nothing is there.
    pub fn drop_path(&mut self, path: &[u8]) -> Result<(), WorldFault>
        requires { self.old.edits < 2 ^ 64 - 1 }
        ensures edit { Edits result self.old self.new (dropped self.old.files path.now) }
        ensures valid { IsWorld self.new.files }
    {
        let number = self.edits + 1;
        match drop_path(&mut self.files, path, number) {
            Ok(()) => {
                self.edits = number;
                Ok(())
            }
            Err(fault) => Err(fault),
        }
    }

    /// Replaces the physical lines `from` to `to` of a file with a text, counted from 1, with their LFs, by a
    /// text as it stands; where `to` is one less than `from`, it is put before that line. Refusals, the first
    /// that holds: 41 the path's form, 40 there is no file with a text, 43 there are no such lines.
    pub fn edit_lines(
        &mut self,
        path: &[u8],
        from: u32,
        to: u32,
        text: &str,
    ) -> Result<(), WorldFault>
        requires { self.old.edits < 2 ^ 64 - 1 }
        ensures edit { Edits result self.old self.new (lines_edited self.old.files path.now from to text.now) }
        ensures kept { IsEdit path.now self.old.files self.new.files }
    {
        let number = self.edits + 1;
        match edit_lines(
            &mut self.files,
            path,
            from as usize,
            to as usize,
            text,
            number,
        ) {
            Ok(()) => {
                self.edits = number;
                Ok(())
            }
            Err(fault) => Err(fault),
        }
    }

    /// The number of the last edit that changed what a read shows; 0 where none did.
    pub fn changed_at(&self, read: &Read) -> u64
        ensures { result ≡ changed_at self.now read.now }
    {
        self.files.rows.last_change(read)
    }

    /// Follows a name through the directories.
    #[tactic(auto, using(crate::proofs::Walks::walk_is))]
    pub fn walk(&self, name: &[u8]) -> Result<Walk, NoMemory>
        ensures { IfOk result (λ w. w ≡ walk_in self.now.files name.now) }
    {
        let mut log = Log::new(self.files.alloc, Some(0));
        match follow(self, &mut log, name) {
            Ok(walk) => Ok(walk),
            Err(_) => Err(NoMemory),
        }
    }
}

fn list(files: &mut Files, path: &[u8], kind: ListKind, number: u64) -> Result<(), WorldFault>
    requires { IsWorld files.old.nodes }
    ensures edit { EditsFiles result files.old.nodes files.new.nodes
        (listed files.old.nodes path.now kind) }
    ensures kept { IsEdit path.now files.old.nodes files.new.nodes }
    ensures marked { FilesMarked result number files.old.nodes files.new.nodes files.old.rows files.new.rows }
{
    match kind {
        ListKind::File => put_file(files, path, Entry::File, number),
        ListKind::Dir => make_dir(files, path, number),
    }
}

impl Texts for World {
    ghost texts = { λ w path. text_of (get w.files path) };

    fn text(&self, path: &[u8]) -> Option<&str> {
        World::text(self, path)
    }
}
