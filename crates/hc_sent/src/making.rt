//! The parts of locations.
ghost use Rattle.std.specs.Prelude.{◌≡◌, ◌∷◌, [], IfOk};
ghost use Rattle.hc_alias.specs.Locations.{absolute as absolute_target};
ghost use Rattle.hc_dfa.specs.Automata.{accepts};
ghost use Rattle.hc_pat_lang.specs.Sets.{AcceptsOnly};
ghost use Rattle.hc_rw_sets.specs.Made.{MadeOf};
ghost use Rattle.hc_sent.specs.Making.{AreDirected, AreRuled, Follows, MayBe, MayFill, MayHold};
ghost use Rattle.hc_sent.specs.Making.{AreBytes, is_of_bytes, query_writing, text_writing};
ghost use Rattle.hc_sent.specs.Targets.{AreSetsOf, IsIfSome, MayAskBehind, fronted};
ghost use Rattle.hc_sent.specs.declared.parts.Writing.TheVariants.{AsIs, Escaped, QueryAsIs};
ghost use Rattle.hc_dfa.specs.Texts.{IsText};
ghost use Rattle.hc_template.specs.Variables.{origin};

use crate::parts::{Part, Writing};
use hc_base::NoMemory;
use hc_dfa::{Dfa, Keep, least, listed, product, single};
use hc_model::{Caller, PathTest, Piece, Redirect};
use hc_pat_lang::{behind, concat_all, group_texts};
use hc_rw_sets::{absolute, put_behind, with_question};
use hc_template::push_origin;
use std::alloc::Global;

/// The parts of the location that a rule leads to, for these texts and queries; `front` stands before them.
pub fn ruled_parts(
    alloc: Global,
    front: &[u8],
    noescape: bool,
    locations: &Dfa,
    queries: &Dfa,
) -> Result<Vec<Part>, NoMemory>
    ensures { IfOk result (λ parts. AreRuled front.now noescape
        (accepts locations.now) (accepts queries.now) parts.items) }
{
    let start = single(alloc, front)?;
    let locations = locations.clone()?;
    let queries = queries.clone()?;
    let parts = ruled(alloc, start, locations, queries, noescape)?;
    Ok(parts)
}

/// What stands in front, the location, and the query.
fn ruled(
    alloc: Global,
    start: Dfa,
    locations: Dfa,
    queries: Dfa,
    noescape: bool,
) -> Result<Vec<Part>, NoMemory>
    ensures { IfOk result (λ parts. parts.items ≡ record { set = start; writing = AsIs }
        ∷ record { set = locations; writing = text_writing noescape }
        ∷ record { set = queries; writing = query_writing noescape } ∷ []) }
{
    let text = Part {
        set: locations,
        writing: text_writing(noescape),
    };
    let query = Part {
        set: queries,
        writing: query_writing(noescape),
    };
    three(alloc, as_it_is(start), text, query)
}

/// The parts of the location that a redirect of a section leads to, for these URL paths, all of which it takes, and
/// these queries.
pub fn redirect_parts(
    alloc: Global,
    caller: &Caller,
    redirect: &Redirect,
    paths: &Dfa,
    queries: &Dfa,
) -> Result<Vec<Part>, NoMemory>
    ensures { IfOk result (λ parts. AreDirected caller.now redirect.now
        (accepts paths.now) (accepts queries.now) parts.items) }
{
    let filled = filled(alloc, &redirect.from, redirect.to.as_slice(), paths)?;
    let target = absolute_targets(alloc, caller, &filled)?;
    let follows = following(alloc, &redirect.from, paths)?;
    let asks = asking(alloc, &filled, queries)?;
    let parts = directed(alloc, target, follows, asks)?;
    Ok(parts)
}

/// The target, what follows a prefix, and the query.
fn directed(alloc: Global, target: Dfa, follows: Dfa, asks: Dfa) -> Result<Vec<Part>, NoMemory>
    ensures { IfOk result (λ parts. parts.items ≡ record { set = target; writing = AsIs }
        ∷ record { set = follows; writing = Escaped } ∷ record { set = asks; writing = QueryAsIs } ∷ []) }
{
    let rest = Part {
        set: follows,
        writing: Writing::Escaped,
    };
    let query = Part {
        set: asks,
        writing: Writing::QueryAsIs,
    };
    three(alloc, as_it_is(target), rest, query)
}

fn as_it_is(set: Dfa) -> Part
    ensures { result ≡ record { set = set; writing = AsIs } }
{
    Part {
        set,
        writing: Writing::AsIs,
    }
}

fn three(alloc: Global, one: Part, two: Part, last: Part) -> Result<Vec<Part>, NoMemory>
    ensures { IfOk result (λ parts. parts.items ≡ one ∷ two ∷ last ∷ []) }
{
    let mut parts = Vec::new(alloc);
    parts.push(one)?;
    parts.push(two)?;
    parts.push(last)?;
    Ok(parts)
}

fn text_writing(noescape: bool) -> Writing
    ensures { result ≡ text_writing noescape }
{
    if noescape {
        Writing::AsIs
    } else {
        Writing::Escaped
    }
}

fn query_writing(noescape: bool) -> Writing
    ensures { result ≡ query_writing noescape }
{
    if noescape {
        Writing::QueryAsIs
    } else {
        Writing::Query
    }
}

/// The target with its groups, each of which may hold whatever it holds in some path.
fn filled(alloc: Global, from: &PathTest, pieces: &[Piece], paths: &Dfa) -> Result<Dfa, NoMemory>
    ensures { IfOk result (λ made. AcceptsOnly (MayFill (accepts paths.now) from.now pieces.now) made
        × AreBytes pieces.now) }
{
    let sets = piece_sets(alloc, from, pieces, paths)?;
    let made = concat_all(alloc, sets.as_slice())?;
    Ok(made)
}

fn piece_sets(
    alloc: Global,
    from: &PathTest,
    pieces: &[Piece],
    paths: &Dfa,
) -> Result<Vec<Dfa>, NoMemory>
    ensures { IfOk result (λ sets. AreSetsOf (accepts paths.now) from.now pieces.now sets.items) }
{
    let mut sets = Vec::new(alloc);
    for piece in pieces {
        sets.push(piece_set(alloc, from, piece, paths)?)?;
    }
    Ok(sets)
}

fn piece_set(alloc: Global, from: &PathTest, piece: &Piece, paths: &Dfa) -> Result<Dfa, NoMemory>
    ensures { IfOk result (λ made. AcceptsOnly (MayBe (accepts paths.now) from.now piece.now) made
        × is_of_bytes piece.now) }
{
    match piece {
        Piece::Bytes(bytes) => bytes_set(alloc, bytes.as_bytes()),
        Piece::Group(number) => group_set(alloc, from, *number, paths),
        Piece::CondGroup(_) => single(alloc, b""),
        Piece::Var(_) => single(alloc, b""),
        Piece::Lookup { .. } => single(alloc, b""),
    }
}

fn bytes_set(alloc: Global, bytes: &[u8]) -> Result<Dfa, NoMemory>
    ensures { IfOk result (λ made. AcceptsOnly (λ text. text ≡ bytes.now) made × IsText bytes.now) }
{
    let made = single(alloc, bytes)?;
    Ok(made)
}

/// What a group may hold in some path; a prefix has none.
fn group_set(alloc: Global, from: &PathTest, number: u8, paths: &Dfa) -> Result<Dfa, NoMemory>
    ensures { IfOk result (AcceptsOnly (MayHold (accepts paths.now) from.now number)) }
{
    match from {
        PathTest::Prefix(_) => single(alloc, b""),
        PathTest::Search(pattern) => group_texts(alloc, pattern.as_pat(), paths, number),
    }
}

/// Those that begin with a slash have the origin of the server in front.
fn absolute_targets(alloc: Global, caller: &Caller, filled: &Dfa) -> Result<Dfa, NoMemory>
    ensures { IfOk result (λ made. AcceptsOnly (MadeOf (absolute_target caller.now) (accepts filled.now)) made
        × IsText (origin caller.now)) }
{
    let mut front = Vec::new(alloc);
    push_origin(&mut front, caller)?;
    let made = fronted(alloc, &front, filled)?;
    Ok(made)
}

/// Those that begin with a slash have this in front.
fn fronted(alloc: Global, front: &[u8], filled: &Dfa) -> Result<Dfa, NoMemory>
    ensures { IfOk result (λ made. AcceptsOnly (MadeOf (fronted front.now) (accepts filled.now)) made
        × IsText front.now) }
{
    let slashed = absolute(alloc)?;
    let paths = product(alloc, filled, &slashed, Keep::Both)?;
    let others = product(alloc, filled, &slashed, Keep::FirstOnly)?;
    let own = put_behind(alloc, front, &paths)?;
    let made = product(alloc, &own, &others, Keep::Either)?;
    Ok(made)
}

/// What follows a prefix.
fn following(alloc: Global, from: &PathTest, paths: &Dfa) -> Result<Dfa, NoMemory>
    ensures { IfOk result (AcceptsOnly (Follows (accepts paths.now) from.now)) }
{
    match from {
        PathTest::Prefix(from) => behind(alloc, paths, from.as_bytes().len()),
        PathTest::Search(_) => single(alloc, b""),
    }
}

/// The query, where the target has none.
fn asking(alloc: Global, filled: &Dfa, queries: &Dfa) -> Result<Dfa, NoMemory>
    ensures { IfOk result (AcceptsOnly (MayAskBehind (accepts filled.now) (accepts queries.now))) }
{
    let asked = with_question(alloc)?;
    let with = product(alloc, filled, &asked, Keep::Both)?;
    let without = product(alloc, filled, &asked, Keep::FirstOnly)?;
    let kept = if_some(alloc, &without, queries)?;
    let none = single(alloc, b"")?;
    let dropped = if_some(alloc, &with, &none)?;
    let made = product(alloc, &kept, &dropped, Keep::Either)?;
    Ok(made)
}

/// The set, where the other one has a text.
fn if_some(alloc: Global, other: &Dfa, set: &Dfa) -> Result<Dfa, NoMemory>
    ensures { IfOk result (AcceptsOnly (IsIfSome (accepts other.now) (accepts set.now))) }
{
    match least(alloc, other)? {
        None => listed(alloc, &[]),
        Some(_text) => set.clone(),
    }
}
