//! What the groups of a pattern may hold in the texts of a set, as tables of cases.

use crate::languages::found_in;
use hc_base::NoMemory;
use hc_dfa::{Dfa, first_members, single};
use hc_pat_lang::group_texts;
use hc_pattern::parse_pattern;
use std::alloc::Global;
use std::process::Abort;

/// The first texts of a set, at most so many, each behind a `|`.
pub fn listed(alloc: Global, set: &Dfa, most: usize) -> Result<Vec<u8>, NoMemory> {
    let first = first_members(alloc, set, most)?;
    let mut texts = Vec::new(alloc);
    for text in first.as_slice() {
        texts.push(b'|')?;
        texts.extend_from_slice(text.as_bytes())?;
    }
    Ok(texts)
}

/// What a group of a pattern may hold in the texts of a set, each behind a `|`.
fn held(
    rt: &impl Abort,
    alloc: Global,
    pattern: &str,
    set: &Dfa,
    number: u8,
) -> Result<Vec<u8>, NoMemory> {
    let Ok(pat) = parse_pattern(alloc, pattern.as_bytes(), false) else {
        panic!(rt; "{pattern} is no pattern");
    };
    let texts = group_texts(alloc, &pat, set, number)?;
    listed(alloc, &texts, 9)
}

/// Repeats of 18 groups in each other.
const NESTED: &str = "((((((((((((((((((a)+)+)+)+)+)+)+)+)+)+)+)+)+)+)+)+)+)+b";

/// A pattern, the one text of the set, a group, and what it may hold, the shortest first.
static HELD: &[(&str, &str, u8, &str)] = &[
    ("(a|ab)(c|bcd)?", "abcd", 1, "|a|ab"),
    ("(a|ab)(c|bcd)?", "abcd", 2, "||c|bcd"),
    ("(a|ab)(c|bcd)?", "abcd", 0, "|a|ab|abc|abcd"),
    ("(a|ab)(c|bcd)?", "abcd", 3, "|"),
    ("(a|ab)(c|bcd)?", "xyz", 1, ""),
    ("(a|ab)(c|bcd)?", "xyz", 3, ""),
    ("^(a|b)+$", "ab", 1, "|a|b"),
    ("^(a|b)+$", "abx", 1, ""),
    ("^((a)|(b))+$", "ab", 2, "|a"),
    ("^((a)|(b))+$", "aa", 3, "|"),
    ("^((a)|(b))+$", "ab", 3, "|b"),
    ("^(x(y)|a)$", "a", 2, "|"),
    ("^(a(b)?)$", "ab", 1, "|ab"),
    ("^(a(b)?)$", "a", 2, "|"),
    ("^(a(b)?)$", "ab", 2, "|b"),
    ("^$", "", 0, "|"),
    ("^$", "a", 0, ""),
    ("$^", "", 0, "|"),
    ("$^", "a", 0, ""),
    ("()$^()", "", 1, "|"),
    ("a^b", "ab", 0, ""),
    ("(^a|b)$", "a", 1, "|a"),
    ("(^a|b)$", "xa", 1, ""),
    ("(^a|b)$", "xb", 1, "|b"),
    ("(^|x)a", "a", 1, "|"),
    ("(^|x)a", "yxa", 1, "|x"),
    ("(^|x)a", "xa", 1, "|x"),
    ("(^|x)a", "ya", 1, ""),
    ("a(x|$)", "a", 1, "|"),
    ("a(x|$)", "ax", 1, "|x"),
    ("a(x|$)", "ay", 1, ""),
    ("(a*)(a*)", "aa", 1, "||a|aa"),
    ("^(a*)(a*)$", "aa", 2, "||a|aa"),
    ("(a*)(a*)", "aa", 0, "||a|aa"),
    ("^(a{2,3})", "aaaa", 1, "|aa|aaa"),
    ("^(a{2,3}?)", "aaaa", 1, "|aa|aaa"),
    ("^(ab?){2,3}$", "abaab", 1, "|a|ab"),
    ("^(ab?){2,3}$", "a", 1, ""),
    ("^(ab?){2,3}?$", "aaa", 1, "|a"),
    ("^(x|a){0,2}", "b", 1, "|"),
    ("^(ab*)*$", "abba", 1, "|a|abb"),
    ("^(ab*)*?$", "abba", 1, "|a|abb"),
    ("^(a|b+)*c$", "abbc", 1, "|a|b|bb"),
    ("^(a(b|c)*)*$", "abcab", 2, "|b|c"),
    ("^(a(b|c)*)*$", "abcab", 1, "|ab|abc"),
    ("^(a(b|c)*)*$", "aa", 2, "|"),
    ("^(^a|b)*$", "abb", 1, "|a|b"),
    ("^(a*|b)(c|)$", "aa", 2, "|"),
    ("^(a|bb|ccc){2,}$", "abbccc", 1, "|a|bb|ccc"),
    ("^(a|bb|ccc){3,}?$", "abbccc", 1, "|a|bb|ccc"),
    ("^(a|bb|ccc){4,}$", "abbccc", 1, ""),
    (NESTED, "aab", 1, "|a|aa"),
    (NESTED, "aab", 18, "|a"),
];

#[test]
fn a_group_may_hold_these_texts(rt: HostRuntime) -> Result<(), NoMemory> {
    for &(pattern, text, number, texts) in HELD {
        let set = single(rt.alloc(), text.as_bytes())?;
        let found = held(&rt, rt.alloc(), pattern, &set, number)?;
        assert!(rt;
            found.as_slice() == texts.as_bytes(),
            "{number} of {pattern} in {text}"
        );
    }
    Ok(())
}

/// A pattern, another one in whose texts it is looked for, a group, and what it may hold.
static HELD_AMONG: &[(&str, &str, u8, &str)] = &[
    ("()", "a^b", 0, ""),
    ("()", "a^b", 1, ""),
    ("()", "a^b", 2, ""),
    ("^/(.*/)?x$", "^/([ab]/)?[^/]x?$", 1, "||a/|b/"),
    ("^/(.*/)?x$", "^/a/x$", 1, "|a/"),
];

#[test]
fn a_group_holds_what_its_set_allows(rt: HostRuntime) -> Result<(), NoMemory> {
    for &(pattern, among, number, texts) in HELD_AMONG {
        let set = found_in(&rt, rt.alloc(), among)?;
        let found = held(&rt, rt.alloc(), pattern, &set, number)?;
        assert!(rt;
            found.as_slice() == texts.as_bytes(),
            "{number} of {pattern} in {among}"
        );
    }
    Ok(())
}
