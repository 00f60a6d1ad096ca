//! The texts that name files and directories, as conditions read them (Apache manual, mod_rewrite, RewriteCond).
ghost use Rattle.std.specs.Prelude.{◌≡◌, ◌+◌, ◌<◌, ◌^◌, ◌∷◌, ◌++◌, [], IfOk, true};
ghost use Rattle.hc_base.specs.Bytes.{slash};
ghost use Rattle.hc_base.specs.Paths.{merge_slashes};
ghost use Rattle.hc_dfa.specs.Built.{Accepts};
ghost use Rattle.hc_dfa.specs.Lists.{has_byte, text_at};
ghost use Rattle.hc_dfa.specs.Singles.{is_among};
ghost use Rattle.hc_rw_eval.specs.Conditions.{dir_named, path_named};
ghost use Rattle.hc_rw_sets.specs.Naming.{ArePaths, either_way, merging_graph, names};
ghost use Rattle.std.proofs.Common.{rules};

use hc_base::{NoMemory, Text};
use hc_dfa::{Choice, Dfa, Graph, Move, automaton};
use std::alloc::Global;

/// The texts that name one of these paths, as `-f` reads them.
pub fn files_named(alloc: Global, paths: &[Text]) -> Result<Dfa, NoMemory>
    requires { ArePaths paths.now }
    ensures { IfOk result (λ made. Accepts made (λ text. names (is_among paths.now) (path_named text))) }
{
    let made = merged_to(alloc, paths)?;
    Ok(made)
}

/// The texts that name one of these paths, as `-d` reads them.
pub fn dirs_named(alloc: Global, paths: &[Text]) -> Result<Dfa, NoMemory>
    requires { ArePaths paths.now }
    ensures { IfOk result (λ made. Accepts made (λ text. names (is_among paths.now) (dir_named text))) }
{
    let both = either_way(alloc, paths)?;
    let made = merged_to(alloc, &both)?;
    Ok(made)
}

/// Each path, and behind it the same with a slash.
fn either_way(alloc: Global, paths: &[Text]) -> Result<Vec<Text>, NoMemory>
    ensures { IfOk result (λ made. made.items ≡ either_way paths.now) }
{
    let mut made = Vec::new(alloc);
    for path in paths {
        made.push(path.clone()?)?;
        made.push(slash_behind(alloc, path.as_bytes())?)?;
    }
    Ok(made)
}

fn slash_behind(alloc: Global, path: &[u8]) -> Result<Text, NoMemory>
    ensures { IfOk result (λ made. made ≡ path.now ++ slash ∷ []) }
{
    let mut made = path.to_vec(alloc)?;
    made.push(b'/')?;
    Ok(Text::from(made))
}

/// The texts that are one of these once their slashes are merged.
fn merged_to(alloc: Global, texts: &[Text]) -> Result<Dfa, NoMemory>
    ensures { IfOk result (λ made. Accepts made (λ text. is_among texts.now (merge_slashes text))) }
{
    let first = Spot {
        text: 0,
        place: 0,
        behind_slash: false,
    };
    let made = automaton(alloc, &Merging { texts }, first)?;
    Ok(made)
}

/// A text's number and a place in it, and whether a slash was read last.
#[derive(Clone, Copy, PartialEq, Eq, Hash, Drop)]
pub struct Spot {
    pub text: usize,
    pub place: usize,
    pub behind_slash: bool,
}

/// A list of texts, read so that a run of slashes counts as one.
#[derive(Clone, Copy)]
struct Merging<'a> {
    texts: &'a [Text],
}

impl<'a> Merging<'a> {
    fn text(&self, number: usize) -> &[u8]
        ensures { result.now ≡ text_at self.now.texts.now number }
    {
        match self.texts.get(number) {
            Some(text) => text.as_bytes(),
            None => &[],
        }
    }

    fn has(&self, spot: Spot, byte: u8) -> bool
        ensures value { result ≡ has_byte self.now.texts.now (spot.text, spot.place) byte }
        ensures within { result ≡ true → spot.place + 1 < 2 ^ 64 }
    {
        self.text(spot.text).get(spot.place) == Some(&byte)
    }
}

impl<'a> Graph for Merging<'a> {
    type Key = Spot;

    ghost is_key = { λ merging spot. Unit {0} };

    ghost graph = { λ merging. merging_graph merging.texts.now };

    fn step(&self, spot: Spot, choice: Choice) -> Option<Move<Spot>> {
        match choice {
            Choice::Byte(byte) if spot.behind_slash && byte == b'/' => Some(Move {
                byte: Some(byte),
                to: spot,
            }),
            Choice::Byte(byte) if self.has(spot, byte) => Some(Move {
                byte: Some(byte),
                to: Spot {
                    text: spot.text,
                    place: spot.place + 1,
                    behind_slash: byte == b'/',
                },
            }),
            Choice::One if spot.place == 0 && spot.text < self.texts.len() => Some(Move {
                byte: None,
                to: Spot {
                    text: spot.text + 1,
                    place: 0,
                    ..spot
                },
            }),
            _ => None,
        }
    }

    fn is_final(&self, spot: Spot) -> bool {
        spot.text < self.texts.len() && self.text(spot.text).len() <= spot.place
    }

    ghost same = { Prim.search rules };
}
