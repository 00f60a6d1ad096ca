ghost use Rattle.std.specs.Prelude.{◌≡◌, ◌∷◌, ◌++◌, [], IfNone, IfOk, IfSome, OnErr, OnOk, option_map};
ghost use Rattle.std.specs.FinMap.{get, insert, remove};
ghost use Rattle.std.specs.List.{filter};
ghost use Rattle.std.specs.Option.{option_eq};
ghost use Rattle.std.specs.Str.{bytes_eq};
ghost use Rattle.hc_model.specs.Node.{is_dir, is_file, kind_of, text_of};
ghost use Rattle.hc_model.specs.World.{new_world};
ghost use Rattle.hc_world.specs.Entries.{node_of};
ghost use Rattle.hc_world.specs.Places.{HasUtf8, IsFirstFrom, is_listed, keys_from, paths_of};

use crate::world::ListKind;
use hc_base::{List, NoMemory, Text};
use hc_model::Kind;
use std::alloc::Global;
use std::collections::BTreeMap;
use std::marker::Model;

/// What the world has at a path.
#[derive(Drop)]
pub(crate) enum Entry {
    Dir,
    /// A file without a text.
    File,
    Text(String),
}

/// What stands at each path.
#[derive(Drop)]
pub(crate) struct Nodes {
    entries: BTreeMap<Vec<u8>, Entry>,
}

impl Model for Nodes {
    ghost use Rattle.hc_model.specs.World.{World, world_code};
    ghost use Rattle.hc_world.specs.Entries.{world_of};

    ghost Value = { World };

    ghost coded = { world_code };

    ghost view = { λ n. world_of n.entries.entries };
}

impl Nodes {
    /// The root alone.
    pub(crate) fn root(alloc: Global) -> Result<Nodes, NoMemory>
        ensures { IfOk result (λ nodes. nodes ≡ new_world) }
    {
        let mut entries = BTreeMap::new(alloc);
        entries.insert(b"/".to_vec(alloc)?, Entry::Dir)?;
        Ok(Nodes { entries })
    }

    /// What stands at a path.
    pub(crate) fn kind(&self, path: &[u8]) -> Kind
        ensures { result ≡ kind_of (get self.now path.now) }
    {
        match self.entries.get(path) {
            None => Kind::Absent,
            Some(Entry::Dir) => Kind::Dir,
            Some(Entry::File) => Kind::File,
            Some(Entry::Text(_)) => Kind::File,
        }
    }

    pub(crate) fn is_dir(&self, path: &[u8]) -> bool
        ensures { result ≡ is_dir (get self.now path.now) }
    {
        match self.kind(path) {
            Kind::Dir => true,
            Kind::File => false,
            Kind::Absent => false,
        }
    }

    fn is_file(&self, path: &[u8]) -> bool
        ensures { result ≡ is_file (get self.now path.now) }
    {
        match self.kind(path) {
            Kind::Dir => false,
            Kind::File => true,
            Kind::Absent => false,
        }
    }

    fn is_listed(&self, kind: ListKind, path: &[u8]) -> bool
        ensures { result ≡ is_listed kind (get self.now path.now) }
    {
        match kind {
            ListKind::File => self.is_file(path),
            ListKind::Dir => self.is_dir(path),
        }
    }

    /// The paths of the files, or of the directories, in byte order.
    pub(crate) fn paths(&self, alloc: Global, kind: ListKind) -> Result<List<Text>, NoMemory>
        ensures paths { IfOk result (λ paths. paths ≡ paths_of self.now kind) }
        ensures texts { HasUtf8 self.now }
    {
        let mut paths = List::new(alloc);
        for path in self.entries.keys() {
            self.push_listed(alloc, kind, path, &mut paths)?;
        }
        Ok(paths)
    }

    fn push_listed(
        &self,
        alloc: Global,
        kind: ListKind,
        path: &[u8],
        paths: &mut List<Text>,
    ) -> Result<(), NoMemory>
        ensures { OnOk result (paths.new
            ≡ paths.old ++ filter (λ path. is_listed kind (get self.now path)) (path.now ∷ [])) }
    {
        if self.is_listed(kind, path) {
            paths.push(Text::copy_of(alloc, path)?)?;
        }
        Ok(())
    }

    /// The text of the file at a path.
    pub(crate) fn text(&self, path: &[u8]) -> Option<&str>
        ensures { option_map (λ text. text.now) result ≡ text_of (get self.now path.now) }
    {
        match self.entries.get(path) {
            Some(entry) => text_in(entry),
            None => None,
        }
    }

    /// Whether an entry has the text that is at a path.
    pub(crate) fn has_text(&self, path: &[u8], entry: &Entry) -> bool
        ensures { result ≡ option_eq bytes_eq (text_of (get self.now path.now)) (text_of (Some (node_of entry.now))) }
    {
        self.text(path) == text_in(entry)
    }

    /// The first path that is at this place or behind it.
    pub(crate) fn first_from(&self, place: &Vec<u8>) -> Option<&[u8]>
        ensures none { IfNone result (keys_from place.now.items self.now ≡ []) }
        ensures some { IfSome result (λ path. IsFirstFrom place.now.items path.now self.now) }
    {
        match self.entries.range(place..).next() {
            Some((path, _)) => Some(path.as_slice()),
            None => None,
        }
    }

    pub(crate) fn insert(
        &mut self,
        alloc: Global,
        path: &[u8],
        entry: Entry,
    ) -> Result<(), NoMemory>
        ensures put { OnOk result (self.new ≡ insert self.old path.now (node_of entry)) }
        ensures same { OnErr result (self.new ≡ self.old) }
    {
        self.entries.insert(path.to_vec(alloc)?, entry)?;
        Ok(())
    }

    pub(crate) fn remove(&mut self, path: &[u8])
        ensures { self.new ≡ remove self.old path.now }
    {
        self.entries.remove(path);
    }
}

pub(crate) fn is_dir(entry: &Entry) -> bool
    ensures { result ≡ is_dir (Some (node_of entry.now)) }
{
    match entry {
        Entry::Dir => true,
        Entry::File => false,
        Entry::Text(_) => false,
    }
}

fn text_in(entry: &Entry) -> Option<&str>
    ensures { option_map (λ text. text.now) result ≡ text_of (Some (node_of entry.now)) }
{
    match entry {
        Entry::Dir => None,
        Entry::File => None,
        Entry::Text(text) => Some(text.as_str()),
    }
}
