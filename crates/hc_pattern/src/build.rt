//! The tree of a pattern, built from its last token on.
ghost use Rattle.std.specs.Prelude.{◌≡◌, [], IfOk, OnOk, map, option_map, reverse};
ghost use Rattle.hc_pattern.specs.Tokens.{bars, closes, opens};
ghost use Rattle.hc_pattern.specs.Building.{body_known, counted_known, new_known, token_known, whole_known};
ghost use Rattle.hc_pattern.specs.KnownParts.{known};
ghost use Rattle.hc_pattern.specs.BuildViews.{level_view, levels_view, part_view, place_view};
ghost use Rattle.hc_pattern.specs.Syntax.{syntax_of};
ghost use Rattle.hc_pattern.specs.TokenViews.{placed_view, token_view};

use crate::count::Count;
use crate::part::{TreePart, either, group_part, leaf_part, nothing, put_before, turns_part};
use crate::token::{Placed, Token};
use hc_base::NoMemory;
use std::alloc::Global;
use std::mem::replace;

/// What is read of the inside of a group, from its end: the alternative that is being read, the ones
/// behind it, and a quantifier whose body is still to come.
#[derive(Drop)]
pub struct Level {
    pub sequence: TreePart,
    pub others: Option<TreePart>,
    pub count: Option<(u32, Count)>,
}

/// A level, and those around it, the innermost last.
#[derive(Drop)]
pub struct Levels {
    pub inner: Level,
    pub outer: Vec<Level>,
}

fn new_level() -> Level
    ensures { level_view result ≡ new_known }
{
    Level {
        sequence: nothing(),
        others: None,
        count: None,
    }
}

fn whole(alloc: Global, level: Level) -> Result<TreePart, NoMemory>
    ensures { IfOk result (λ part. part_view part ≡ whole_known (level_view level)) }
{
    let Level {
        sequence,
        others,
        ..
    } = level;
    match others {
        None => Ok(sequence),
        Some(others) => either(alloc, sequence, others),
    }
}

fn counted(alloc: Global, count: Option<(u32, Count)>, body: TreePart) -> Result<TreePart, NoMemory>
    ensures { IfOk result (λ part. part_view part ≡ counted_known (option_map place_view count) (part_view body)) }
{
    match count {
        None => Ok(body),
        Some((at, count)) => turns_part(alloc, at, count, body),
    }
}

impl Level {
    // Puts a part in front, with the turns that the quantifier behind it says.
    fn put(&mut self, alloc: Global, body: TreePart) -> Result<(), NoMemory>
        ensures { OnOk result (level_view self.new ≡ body_known (part_view body) (level_view self.old)) }
    {
        let body = counted(alloc, self.count.take(), body)?;
        put_before(alloc, body, &mut self.sequence)
    }
}

impl Levels {
    fn new(alloc: Global) -> Levels
        ensures { levels_view result ≡ (new_known, []) }
    {
        Levels {
            inner: new_level(),
            outer: Vec::new(alloc),
        }
    }

    // A group begins: what was read of its inside is a part of the level around it.
    fn open(&mut self, alloc: Global, number: Option<u8>) -> Result<(), NoMemory>
        ensures { OnOk result (levels_view self.new ≡ token_known 0 (opens number) (levels_view self.old)) }
    {
        let around = match self.outer.pop() {
            Some(level) => level,
            None => new_level(),
        };
        let inner = replace(&mut self.inner, around);
        let body = group_part(alloc, number, whole(alloc, inner)?)?;
        self.inner.put(alloc, body)
    }

    // A group ends, so its inside comes now.
    fn close(&mut self) -> Result<(), NoMemory>
        ensures { OnOk result (levels_view self.new ≡ token_known 0 closes (levels_view self.old)) }
    {
        let around = replace(&mut self.inner, new_level());
        self.outer.push(around)?;
        Ok(())
    }

    fn next_alternative(&mut self, alloc: Global) -> Result<(), NoMemory>
        ensures { OnOk result (levels_view self.new ≡ token_known 0 bars (levels_view self.old)) }
    {
        let inner = replace(&mut self.inner, new_level());
        self.inner.others = Some(whole(alloc, inner)?);
        Ok(())
    }

    fn with_token(&mut self, alloc: Global, placed: &Placed) -> Result<(), NoMemory>
        ensures { OnOk result (levels_view self.new
            ≡ token_known placed.now.at (token_view placed.now.token) (levels_view self.old)) }
    {
        match placed.token {
            Token::Item(leaf) => self.inner.put(alloc, leaf_part(leaf)),
            Token::Opens(None) => self.open(alloc, None),
            Token::Opens(Some(number)) => {
                // Only a pattern of over 32 groups has such a number, and that is refused before.
                let Ok(number) = u8::try_from(number) else {
                    return Err(NoMemory);
                };
                self.open(alloc, Some(number))
            }
            Token::Closes => self.close(),
            Token::Bars => self.next_alternative(alloc),
            Token::Counts(count) => {
                self.inner.count = Some((placed.at, count));
                Ok(())
            }
            Token::Unclosed | Token::Broken(_) => Ok(()),
        }
    }
}

/// The part that all tokens make, where their form is not refused.
pub fn build(alloc: Global, tokens: &[Placed]) -> Result<TreePart, NoMemory>
    ensures { IfOk result (λ part. part_view part ≡ known (syntax_of (map placed_view tokens.now))) }
{
    let mut levels = Levels::new(alloc);
    let mut rest = tokens;
    'tokens: while let Some((last, front)) = rest.split_last() {
        levels.with_token(alloc, last)?;
        rest = front;
    }
    Ok(whole(alloc, levels.inner)?)
}
