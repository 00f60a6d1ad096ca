//! Parts of a pattern, with what is known of each while its tree is built.
ghost use Rattle.std.specs.Prelude.{◌≡◌, ◌+◌, ◌≤◌, ◌&&◌, ◌||◌, ◌==◌, if◌then◌else◌};
ghost use Rattle.std.specs.Prelude.{Some, None, IfOk, OnOk};
ghost use Rattle.hc_pattern.specs.Building.{before_known, capped, either_known, group_known, group_pattern};
ghost use Rattle.hc_pattern.specs.Building.{kept, leaf_known, nothing_known, turns_known, turns_nodes};
ghost use Rattle.hc_pattern.specs.BuildViews.{part_view};
ghost use Rattle.hc_pattern.specs.Pattern.{alt, pattern_of, repeat};
ghost use Rattle.hc_pattern.specs.Refusals.{most_nodes};
ghost use Rattle.hc_pattern.specs.Syntax.{is_many, is_place, times};
ghost use Rattle.hc_pattern.specs.TokenViews.{count_view, leaf_view};

use crate::Pat;
use crate::count::Count;
use crate::glob::cat;
use crate::pat::MOST_NODES;
use crate::token::Leaf;
use hc_base::NoMemory;
use std::alloc::Global;
use std::mem::replace;

/// A part of a pattern: the pattern, but `Empty` where it has too many nodes; its nodes, of which one
/// too many are as many as any more; whether it can match the empty text; and the first quantifier
/// whose turns may be many and empty.
#[derive(Drop)]
pub struct TreePart {
    pub pat: Pat,
    pub nodes: u32,
    pub can_be_empty: bool,
    pub looping: Option<u32>,
    pub is_nothing: bool,
}

fn capped(nodes: u32) -> u32
    ensures value { result ≡ capped nodes }
    ensures small { result ≤ most_nodes + 1 }
{
    nodes.min(MOST_NODES + 1)
}

// Of what has too many nodes the pattern isn't kept, so that none is nested too deep.
fn kept(nodes: u32, pat: Pat) -> Pat
    ensures { pattern_of result ≡ kept nodes (pattern_of pat) }
{
    if nodes > MOST_NODES { Pat::Empty } else { pat }
}

pub fn nothing() -> TreePart
    ensures { part_view result ≡ nothing_known }
{
    TreePart {
        pat: Pat::Empty,
        nodes: 0,
        can_be_empty: true,
        looping: None,
        is_nothing: true,
    }
}

fn leaf_pat(leaf: Leaf) -> Pat
    ensures { pattern_of result ≡ leaf_view leaf }
{
    match leaf {
        Leaf::Byte(byte) => Pat::Byte(byte),
        Leaf::Class(set) => Pat::Class(set),
        Leaf::Start => Pat::Start,
        Leaf::Finish => Pat::Finish,
    }
}

fn is_place(leaf: Leaf) -> bool
    ensures { result ≡ is_place (leaf_view leaf) }
{
    matches!(leaf, Leaf::Start | Leaf::Finish)
}

pub fn leaf_part(leaf: Leaf) -> TreePart
    ensures { part_view result ≡ leaf_known (leaf_view leaf) }
{
    TreePart {
        pat: leaf_pat(leaf),
        nodes: 1,
        can_be_empty: is_place(leaf),
        looping: None,
        is_nothing: false,
    }
}

fn alt(alloc: Global, first: Pat, second: Pat) -> Result<Pat, NoMemory>
    ensures { IfOk result (λ pat. pattern_of pat ≡ alt (pattern_of first) (pattern_of second)) }
{
    Ok(Pat::Alt(Box::new(alloc, first)?, Box::new(alloc, second)?))
}

pub fn either(alloc: Global, first: TreePart, second: TreePart) -> Result<TreePart, NoMemory>
    ensures { IfOk result (λ part. part_view part ≡ either_known (part_view first) (part_view second)) }
{
    let nodes = capped(first.nodes.saturating_add(second.nodes).saturating_add(1));
    let pat = alt(alloc, first.pat, second.pat)?;
    Ok(TreePart {
        pat: kept(nodes, pat),
        nodes,
        can_be_empty: first.can_be_empty || second.can_be_empty,
        looping: first.looping.or(second.looping),
        is_nothing: false,
    })
}

// A group keeps what it spans where it has a number, which is one of 32 or refused.
fn group_pat(alloc: Global, number: Option<u8>, body: Pat) -> Result<Pat, NoMemory>
    ensures { IfOk result (λ pat. pattern_of pat ≡ group_pattern number (pattern_of body)) }
{
    match number {
        None => Ok(body),
        Some(number) => Ok(Pat::Group(number, Box::new(alloc, body)?)),
    }
}

pub fn group_part(alloc: Global, number: Option<u8>, body: TreePart) -> Result<TreePart, NoMemory>
    ensures { IfOk result (λ part. part_view part ≡ group_known number (part_view body)) }
{
    let nodes = capped(body.nodes.saturating_add(1));
    let pat = group_pat(alloc, number, body.pat)?;
    Ok(TreePart {
        pat: kept(nodes, pat),
        nodes,
        can_be_empty: body.can_be_empty,
        looping: body.looping,
        is_nothing: false,
    })
}

fn repeat(alloc: Global, body: Pat, count: Count) -> Result<Pat, NoMemory>
    ensures { IfOk result (λ pat. pattern_of pat ≡ repeat (pattern_of body) count.least count.most count.greedy) }
{
    let body = Box::new(alloc, body)?;
    let least = u16::from(count.least);
    match count.most {
        None => Ok(Pat::Repeat(body, least, None, count.greedy)),
        Some(most) => Ok(Pat::Repeat(body, least, Some(u16::from(most)), count.greedy)),
    }
}

fn times(count: Count) -> u32
    ensures value { result ≡ times (count_view count) }
    ensures small { result ≤ 255 }
{
    match count.most {
        Some(most) => u32::from(most.max(1)),
        None => u32::from(count.least.max(1)),
    }
}

fn is_many(most: Option<u8>) -> bool
    ensures { result ≡ is_many most }
{
    match most {
        Some(most) => most > 1,
        None => true,
    }
}

fn turns_nodes(count: Count, nodes: u32) -> u32
    ensures { result ≡ turns_nodes (count_view count) nodes }
{
    if count.is_sign {
        capped(nodes.saturating_add(1))
    } else {
        capped(times(count).saturating_mul(nodes))
    }
}

fn turns_loop(at: u32, many: bool, can_be_empty: bool) -> Option<u32>
    ensures { result ≡ (if many && can_be_empty then Some at else None) }
{
    if !many {
        return None;
    }
    if can_be_empty { Some(at) } else { None }
}

fn turns_empty(least: u8, can_be_empty: bool) -> bool
    ensures { result ≡ ((least == 0) || can_be_empty) }
{
    least == 0 || can_be_empty
}

pub fn turns_part(
    alloc: Global,
    at: u32,
    count: Count,
    body: TreePart,
) -> Result<TreePart, NoMemory>
    ensures { IfOk result (λ part. part_view part ≡ turns_known at (count_view count) (part_view body)) }
{
    let nodes = turns_nodes(count, body.nodes);
    let pat = repeat(alloc, body.pat, count)?;
    Ok(TreePart {
        pat: kept(nodes, pat),
        nodes,
        can_be_empty: turns_empty(count.least, body.can_be_empty),
        looping: body
            .looping
            .or(turns_loop(at, is_many(count.most), body.can_be_empty)),
        is_nothing: false,
    })
}

/// Puts a part in front of another.
pub fn put_before(alloc: Global, first: TreePart, second: &mut TreePart) -> Result<(), NoMemory>
    ensures { OnOk result (part_view second.new ≡ before_known (part_view first) (part_view second.old)) }
{
    if second.is_nothing {
        *second = first;
        return Ok(());
    }
    let nodes = capped(first.nodes.saturating_add(second.nodes));
    let pat = cat(alloc, first.pat, replace(&mut second.pat, Pat::Empty))?;
    *second = TreePart {
        pat: kept(nodes, pat),
        nodes,
        can_be_empty: first.can_be_empty && second.can_be_empty,
        looping: first.looping.or(second.looping),
        is_nothing: false,
    };
    Ok(())
}
