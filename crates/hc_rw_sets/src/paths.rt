ghost use Rattle.std.specs.Prelude.{◌≡◌, ◌++◌, IfOk};
ghost use Rattle.std.specs.Option.{option_map};
ghost use Rattle.hc_dfa.specs.Automata.{accepts};
ghost use Rattle.hc_pat_lang.specs.Sets.{AcceptsOnly};
ghost use Rattle.hc_rw_eval.specs.Directories.{in_base, url_path, without_root};
ghost use Rattle.hc_rw_expand.specs.Contexts.{engine_of};
ghost use Rattle.hc_rw_sets.specs.Joins.{with_front};
ghost use Rattle.hc_rw_sets.specs.Made.{MadeOf};

use hc_base::{NoMemory, Text};
use hc_dfa::{Between, Dfa, Keep, between, product, single};
use hc_pat_lang::concat;
use hc_rw_eval::with_slash;
use hc_rw_expand::Engine;
use std::alloc::Global;

/// The texts of a set behind a text.
pub fn put_behind(alloc: Global, front: &[u8], set: &Dfa) -> Result<Dfa, NoMemory>
    ensures { IfOk result (AcceptsOnly (MadeOf (λ text. front.now ++ text) (accepts set.now))) }
{
    let only = single(alloc, front)?;
    let made = concat(alloc, &only, set)?;
    Ok(made)
}

/// The texts of a set, with one front in place of another where they begin with that.
fn with_fronts(alloc: Global, from: &[u8], to: &[u8], set: &Dfa) -> Result<Dfa, NoMemory>
    ensures { IfOk result (AcceptsOnly (MadeOf (with_front from.now to.now) (accepts set.now))) }
{
    let around = Between {
        before: from,
        skip: 0,
        after: b"",
    };
    let rest = between(alloc, set, around)?;
    let fronted = put_behind(alloc, from, &rest)?;
    let others = product(alloc, set, &fronted, Keep::FirstOnly)?;
    let placed = put_behind(alloc, to, &rest)?;
    let made = product(alloc, &placed, &others, Keep::Either)?;
    Ok(made)
}

// RewriteBase in place of the directory and a slash.
fn in_base(alloc: Global, base: &[u8], dir: &[u8], set: &Dfa) -> Result<Dfa, NoMemory>
    ensures { IfOk result (AcceptsOnly (MadeOf (in_base base.now dir.now) (accepts set.now))) }
{
    let from = with_slash(alloc, dir)?;
    let to = with_slash(alloc, base)?;
    let made = with_fronts(alloc, &from, &to, set)?;
    Ok(made)
}

// A document root is taken off, where a slash follows it.
fn without_root(alloc: Global, root: Option<&Text>, set: &Dfa) -> Result<Dfa, NoMemory>
    ensures { IfOk result (AcceptsOnly
        (MadeOf (without_root (option_map (λ root. root.now) root.entry)) (accepts set.now))) }
{
    let Some(root) = root else {
        let same = set.clone()?;
        return Ok(same);
    };
    let mut front = root.as_bytes().to_vec(alloc)?;
    front.push(b'/')?;
    let made = with_fronts(alloc, &front, b"/", set)?;
    Ok(made)
}

/// The URL paths of file names in a directory's rules.
pub fn url_paths(
    alloc: Global,
    root: Option<&Text>,
    engine: &Engine<'_>,
    set: &Dfa,
) -> Result<Dfa, NoMemory>
    ensures { IfOk result (AcceptsOnly (MadeOf
        (url_path (option_map (λ root. root.now) root.entry) (engine_of engine.now)) (accepts set.now))) }
{
    match engine.base {
        Some(base) => in_base(alloc, base.as_bytes(), engine.dir.as_bytes(), set),
        None => without_root(alloc, root, set),
    }
}
