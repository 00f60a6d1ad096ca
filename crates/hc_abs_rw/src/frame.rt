ghost use Rattle.std.specs.Prelude.{◌≡◌, ℕ, List, Option, Some, IfOk};
ghost use Rattle.hc_dfa.specs.Automata.{accepts};
ghost use Rattle.hc_dfa.specs.Built.{Accepts};
ghost use Rattle.hc_dfa.specs.Texts.{IsText};
ghost use Rattle.hc_map.specs.Images.{IsImageOf};
ghost use Rattle.hc_model.specs.declared.walk.Kind.{Kind};
ghost use Rattle.hc_abs_rw.specs.Conditions.{stands};
ghost use Rattle.hc_rw_eval.specs.Conditions.{dir_named, is_dir, is_file, path_named};

use hc_addr::Addr;
use hc_base::{NoMemory, Text};
use hc_dfa::Dfa;
use hc_map::ImageSet;
use hc_rw_expand::Engine;
use hc_rw_sets::TextTests;
use std::alloc::Global;

/// What rules look at besides the request.
pub trait Surroundings {
    /// What stands at a path.
    ghost kind: { Self → List ℕ → Kind };

    /// What a map gives for a key, by the map's name.
    ghost values: { Self → List ℕ → List ℕ → Option (List ℕ) };

    /// The texts that name a file.
    fn files(&self) -> &Dfa
        ensures { Accepts result.now (λ text. stands (kind self.now) is_file (path_named text)) };

    /// The texts that name a directory.
    fn dirs(&self) -> &Dfa
        ensures { Accepts result.now (λ text. stands (kind self.now) is_dir (dir_named text)) };

    fn value(&self, name: &[u8], key: &[u8]) -> Result<Option<Text>, NoMemory>
        ensures { IfOk result (λ value. value ≡ values self.now name.now key.now) };

    /// What a map gives for the keys of a set.
    fn image(&self, alloc: Global, name: &[u8], keys: &Dfa) -> Result<ImageSet, NoMemory>
        ensures { IfOk result (IsImageOf (values self.now name.now) (accepts keys.now)) };

    /// What maps give for keys of bytes is of bytes.
    ghost bytes: { (around : Self) (name key value : List ℕ) → IsText key → values around name key ≡ Some value
        → IsText value };
}

/// What all requests of a set have in common while a rule is tried.
#[derive(Drop)]
pub struct Frame<'f, S> {
    /// The scheme, the server's address, port and name, and the Host header, with what is asked of texts there.
    pub tests: &'f TextTests,
    /// The document root.
    pub root: Option<&'f Text>,
    /// None where the rules of a server run.
    pub engine: Option<Engine<'f>>,
    /// The address of the client, where all have one.
    pub client: Option<Addr>,
    pub around: &'f S,
    /// How many states the cells may have together that are found.
    pub room: u64,
}
