ghost use Rattle.std.specs.Prelude.{◌≡◌, IfOk, length, map, option_map};
ghost use Rattle.hc_nodes.specs.Openings.{opening_lines, earlier_of, unclosed};
ghost use Rattle.hc_nodes.specs.Tree.{rule_broken, closes_innermost, first_of_all, open_behind, refusal_of, refused_at};

use crate::section::{Opening, inside_brackets, is_close, is_complete, is_opening, split_name};
use crate::stack::Stack;
use hc_base::codes::{NESTED_TOO_DEEP, UNCLOSED_SECTION, UNMATCHED_CLOSE};
use hc_base::{AtLine, NoMemory};
use hc_lines::Line;
use std::alloc::Global;

// The most sections that are open at a place.
const MOST_OPEN: usize = 64;

/// The first rule that lines break, by its line and then by its number, if they break one.
pub fn first_refusal<'l, 't>(
    alloc: Global,
    lines: &'l [Line<'t>],
) -> Result<Option<AtLine>, NoMemory>
    ensures { IfOk result (λ refusal. refusal ≡ refusal_of lines.now) }
{
    let mut openings = Stack::new(alloc);
    let mut first = None;
    for line in lines {
        first = earlier(first, refusal_at(&openings, line));
        pass_line(&mut openings, line)?;
    }
    Ok(with_unclosed(openings, first))
}

// The rule that a line breaks behind these openings.
fn refusal_at(openings: &Stack<Opening>, line: &Line) -> Option<AtLine>
    ensures { result ≡ option_map (refused_at line.now) (rule_broken (opening_lines openings.now) line.now) }
{
    let code = rule_broken(openings, line)?;
    Some(AtLine {
        code,
        line: line.number,
    })
}

fn rule_broken(openings: &Stack<Opening>, line: &Line) -> Option<u8>
    ensures { result ≡ rule_broken (opening_lines openings.now) line.now }
{
    if is_close(line) {
        if closes_innermost(openings, line) {
            None
        } else {
            Some(UNMATCHED_CLOSE)
        }
    } else if !is_opening(line) {
        None
    } else if !is_complete(line) {
        Some(UNCLOSED_SECTION)
    } else if openings.len() >= MOST_OPEN {
        Some(NESTED_TOO_DEEP)
    } else {
        None
    }
}

fn closes_innermost(openings: &Stack<Opening>, line: &Line) -> bool
    ensures { result ≡ closes_innermost (opening_lines openings.now) line.now }
{
    match openings.top() {
        Some(opening) => opening.is_closed_by(line),
        None => false,
    }
}

// Makes the openings those that are open behind the line.
fn pass_line<'l, 't>(
    openings: &mut Stack<Opening<'l, 't>>,
    line: &'l Line<'t>,
) -> Result<(), NoMemory>
    ensures { IfOk result (λ _. opening_lines openings.new ≡ open_behind (opening_lines openings.old) line.now) }
{
    if is_close(line) {
        if closes_innermost(openings, line) {
            openings.pop();
        }
    } else if is_complete(line) {
        let (name, _) = split_name(inside_brackets(line));
        openings.push(Opening { line, name })?;
    }
    Ok(())
}

// The openings that are open at the end are unclosed.
fn with_unclosed(mut openings: Stack<Opening>, mut first: Option<AtLine>) -> Option<AtLine>
    ensures { result ≡ earlier_of first (first_of_all (map unclosed (opening_lines openings.entry))) }
{
    while let Some(opening) = openings.pop() {
        let unclosed = AtLine {
            code: UNCLOSED_SECTION,
            line: opening.line.number,
        };
        first = earlier(first, Some(unclosed));
    }
    first
}

// The one that comes first; the left one of two that are equal.
fn earlier(left: Option<AtLine>, right: Option<AtLine>) -> Option<AtLine>
    ensures { result ≡ earlier_of left right }
{
    match (left, right) {
        (None, _) => right,
        (Some(_), None) => left,
        (Some(a), Some(b)) => {
            if a.line < b.line || (a.line == b.line && a.code <= b.code) {
                left
            } else {
                right
            }
        }
    }
}
