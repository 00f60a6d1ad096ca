//! URLs, and those of the server's own (Apache manual, mod_rewrite, RewriteRule, "Substitution").
ghost use Rattle.std.specs.Prelude.{◌≡◌, ◌&&◌, ℕ, IfOk, IsTrue, List, Some, is_some};
ghost use Rattle.std.proofs.Common.{rules};
ghost use Rattle.hc_dfa.specs.Automata.{accepts};
ghost use Rattle.hc_dfa.specs.Built.{Accepts};
ghost use Rattle.hc_dfa.specs.Texts.{IsText};
ghost use Rattle.hc_pat_lang.specs.Sets.{AcceptsOnly};
ghost use Rattle.hc_rw_eval.specs.Locations.{has_scheme, is_scheme_byte, or_slash, own_front, own_path};
ghost use Rattle.hc_rw_sets.specs.Made.{MadeOf};
ghost use Rattle.hc_rw_sets.specs.Roots.{begins_before, is_behind, is_root};
ghost use Rattle.hc_rw_sets.specs.Schemes.{is_whole, next_part};
ghost use Rattle.hc_target.specs.Urls.{is_url};

use crate::fronts::{beginning_with, beginning_without_case, texts_like};
use crate::ports::port_texts;
use hc_base::NoMemory;
use hc_dfa::{Dfa, Keep, Reading, listed, product, single, tested};
use hc_model::{Caller, Scheme};
use hc_pat_lang::{concat, prefix_quotient};
use std::alloc::Global;

/// `http://` and `https://` texts.
pub fn urls(alloc: Global) -> Result<Dfa, NoMemory>
    ensures { IfOk result (λ made. Accepts made is_url) }
{
    let plain = beginning_without_case(alloc, b"http://")?;
    let secure = beginning_without_case(alloc, b"https://")?;
    let made = product(alloc, &plain, &secure, Keep::Either)?;
    Ok(made)
}

/// The texts with a scheme.
pub fn schemes(alloc: Global) -> Result<Dfa, NoMemory>
    ensures { IfOk result (λ made. Accepts made has_scheme) }
{
    let made = tested(alloc, &SchemeReading, Part::Begin)?;
    Ok(made)
}

/// The URLs of the server's own.
pub fn own_urls(alloc: Global, caller: &Caller) -> Result<Dfa, NoMemory>
    ensures { IfOk result (λ made. Accepts made (λ text. is_some (own_path caller.now text))) }
{
    let roots = own_roots(alloc, caller)?;
    let rests = rests(alloc)?;
    let made = concat(alloc, &roots, &rests)?;
    Ok(made)
}

/// What is left of own URLs: their paths, `/` for none.
pub fn own_paths(alloc: Global, caller: &Caller, set: &Dfa) -> Result<Dfa, NoMemory>
    ensures { IfOk result (AcceptsOnly (λ x.
        (y : List ℕ) × IsText y × IsTrue (accepts set.now y) × (own_path caller.now y ≡ Some x))) }
{
    let roots = own_roots(alloc, caller)?;
    let rest = prefix_quotient(alloc, set, &roots)?;
    let made = with_slash(alloc, &rest)?;
    Ok(made)
}

/// What stands in front of the paths of own URLs: none where the name holds a slash.
fn own_roots(alloc: Global, caller: &Caller) -> Result<Dfa, NoMemory>
    ensures { IfOk result (λ made. Accepts made (is_root caller.now)) }
{
    let name = caller.name.as_bytes();
    if name.contains(&b'/') {
        let none = listed(alloc, &[])?;
        return Ok(none);
    }
    let scheme = caller.request.scheme;
    let ports = port_texts(alloc, scheme, caller.request.port)?;
    let authorities = begun(alloc, name, &ports)?;
    let made = begun(alloc, own_front(scheme), &authorities)?;
    Ok(made)
}

fn own_front(scheme: Scheme) -> &'static [u8]
    ensures { result.now ≡ own_front scheme }
{
    match scheme {
        Scheme::Http => b"http://",
        Scheme::Https => b"https://",
    }
}

/// The texts that begin so without case, with one of the set behind.
fn begun(alloc: Global, front: &[u8], rest: &Dfa) -> Result<Dfa, NoMemory>
    ensures { IfOk result (λ made. Accepts made (begins_before front.now rest.now)) }
{
    let first = texts_like(alloc, true, front)?;
    let made = concat(alloc, &first, rest)?;
    Ok(made)
}

/// What may stand behind a root: a path, or nothing.
fn rests(alloc: Global) -> Result<Dfa, NoMemory>
    ensures { IfOk result (λ made. Accepts made is_behind) }
{
    let none = single(alloc, b"")?;
    let paths = beginning_with(alloc, b"/")?;
    let made = product(alloc, &none, &paths, Keep::Either)?;
    Ok(made)
}

/// The texts of a set that begin with a slash, and `/` for the empty one.
fn with_slash(alloc: Global, set: &Dfa) -> Result<Dfa, NoMemory>
    ensures { IfOk result (AcceptsOnly (MadeOf or_slash (λ text. accepts set.now text && is_behind text))) }
{
    let slash = beginning_with(alloc, b"/")?;
    let paths = product(alloc, set, &slash, Keep::Both)?;
    if !set.accepts(b"") {
        return Ok(paths);
    }
    let root = single(alloc, b"/")?;
    let made = product(alloc, &paths, &root, Keep::Either)?;
    Ok(made)
}

/// Reads a scheme and `://`.
#[derive(Clone, Copy)]
struct SchemeReading;

/// How much of a scheme was read.
#[derive(Clone, Copy, PartialEq, Eq, Hash, Drop)]
pub enum Part {
    Begin,
    Scheme,
    Colon,
    Slash,
    Whole,
    /// Another text.
    Other,
}

fn is_scheme_byte(byte: u8) -> bool
    ensures { result ≡ is_scheme_byte byte }
{
    byte.is_ascii_alphanumeric() || matches!(byte, b'+' | b'-' | b'.')
}

impl Reading for SchemeReading {
    type Key = Part;

    ghost is_key = { λ schemes part. Unit {0} };

    ghost reads = { λ schemes. next_part };

    ghost holds = { λ schemes. is_whole };

    fn next(&self, part: Part, byte: u8) -> Part {
        match (part, byte) {
            (Part::Begin, _) if byte.is_ascii_alphabetic() => Part::Scheme,
            (Part::Scheme, b':') => Part::Colon,
            (Part::Scheme, _) if is_scheme_byte(byte) => Part::Scheme,
            (Part::Colon, b'/') => Part::Slash,
            (Part::Slash, b'/') | (Part::Whole, _) => Part::Whole,
            _ => Part::Other,
        }
    }

    fn holds(&self, part: Part) -> bool {
        matches!(part, Part::Whole)
    }

    ghost same = { Prim.search rules };
}
