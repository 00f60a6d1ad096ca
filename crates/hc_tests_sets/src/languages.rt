use crate::groups::listed;
use hc_base::NoMemory;
use hc_dfa::{
    Dfa, Inclusion, Keep, byte_image, complement, included, least, product, reduce, single,
};
use hc_pat_lang::{
    behind, concat, concat_all, matched, merge_slashes, prefix_quotient, suffix_quotient,
};
use hc_pattern::{Pat, parse_pattern};
use std::alloc::Global;
use std::process::Abort;

/// The set of the texts that a pattern is found in.
pub(crate) fn found_in(rt: &impl Abort, alloc: Global, pattern: &str) -> Result<Dfa, NoMemory> {
    let Ok(pat) = parse_pattern(alloc, pattern.as_bytes(), false) else {
        panic!(rt; "{pattern} is no pattern");
    };
    matched(alloc, &pat)
}

static FOUND: &[(&str, &str, bool)] = &[
    ("^$", "", true),
    ("^$", "a", false),
    ("$^", "", true),
    ("$^", "a", false),
    ("a^b", "ab", false),
    ("a$b", "ab", false),
    ("(^a|b)$", "a", true),
    ("(^a|b)$", "xa", false),
    ("(^a|b)$", "xb", true),
    ("(^|x)a", "a", true),
    ("(^|x)a", "yxa", true),
    ("(^|x)a", "ya", false),
    ("^(a|b)+$", "abba", true),
    ("^(a|b)+$", "", false),
    ("^(a|b)+$", "abc", false),
    ("^a{2,3}$", "a", false),
    ("^a{2,3}$", "aa", true),
    ("^a{2,3}$", "aaa", true),
    ("^a{2,3}$", "aaaa", false),
    ("^a{2,3}?$", "aaa", true),
    ("^a{2,3}?$", "aaaa", false),
    ("^(a*)(a*)$", "aa", true),
    ("^(ab*)*$", "abbaab", true),
    ("^(ab*)*$", "ba", false),
    ("^(^a|b)*$", "abb", true),
    ("^(^a|b)*$", "aa", false),
    ("^(a$|b)*$", "bba", true),
    ("^(a$|b)*$", "ab", false),
    ("(a|ab)(c|bcd)?$", "abcd", true),
];

#[test]
fn a_pattern_is_found_in_these_texts(rt: HostRuntime) -> Result<(), NoMemory> {
    for &(pattern, text, found) in FOUND {
        let set = found_in(&rt, rt.alloc(), pattern)?;
        assert!(rt;
            set.accepts(text.as_bytes()) == found,
            "{pattern} in {text}"
        );
    }
    Ok(())
}

#[test]
fn a_late_byte_needs_many_states(rt: HostRuntime) -> Result<(), NoMemory> {
    let set = found_in(&rt, rt.alloc(), "^.*a.{12}$")?;
    assert!(rt; set.accepts(b"bbabcdefghijklm"));
    assert!(rt; !set.accepts(b"bbbbcdefghijklm"));
    Ok(())
}

// Repeats in one another.
fn nested(alloc: Global, depth: usize, close: &str) -> Result<String, NoMemory> {
    let mut pattern = "(?:".repeat(alloc, depth)?;
    pattern.push_str("a")?;
    pattern.push_str(close.repeat(alloc, depth)?.as_str())?;
    pattern.push_str("b")?;
    Ok(pattern)
}

static NESTED: &[(usize, &str)] = &[(20, ")+"), (20, ")+?"), (1000, ")+"), (1000, ")+?")];

#[test]
fn nested_repeats_take_a_moment(rt: HostRuntime) -> Result<(), NoMemory> {
    for &(depth, close) in NESTED {
        let pattern = nested(rt.alloc(), depth, close)?;
        let set = found_in(&rt, rt.alloc(), pattern.as_str())?;
        assert!(rt;
            set.accepts(b"xaab") && !set.accepts(b"aaxb"),
            "{depth} of {close}"
        );
    }
    Ok(())
}

#[test]
fn the_first_texts_of_a_pattern(rt: HostRuntime) -> Result<(), NoMemory> {
    let set = found_in(&rt, rt.alloc(), "^ab*c$")?;
    let texts = listed(rt.alloc(), &set, 3)?;
    assert!(rt; texts.as_slice() == b"|ac|abc|abbc".as_slice());
    Ok(())
}

// That this is the least text that the first set has more, or that it has none.
fn check_more(
    rt: &impl Abort,
    alloc: Global,
    a: &Dfa,
    b: &Dfa,
    more: Option<&[u8]>,
) -> Result<(), NoMemory> {
    match included(alloc, a, b)? {
        Inclusion::Yes => assert!(rt; more.is_none()),
        Inclusion::No(text) => assert!(rt; Some(text.as_bytes()) == more),
    }
    Ok(())
}

#[test]
fn an_anchor_leaves_texts_out(rt: HostRuntime) -> Result<(), NoMemory> {
    static ROWS: &[(&str, &str, Option<&[u8]>)] = &[
        ("a", "^a$", Some(b"\x00a")),
        ("^a$", "a", None),
    ];
    for &(first, second, more) in ROWS {
        let a = found_in(&rt, rt.alloc(), first)?;
        let b = found_in(&rt, rt.alloc(), second)?;
        check_more(&rt, rt.alloc(), &a, &b, more)?;
    }
    Ok(())
}

// The texts that are not in the set.
fn others(alloc: Global, set: &Dfa) -> Result<Dfa, NoMemory> {
    reduce(alloc, &complement(alloc, set)?)
}

#[test]
fn an_empty_pattern_is_found_everywhere(rt: HostRuntime) -> Result<(), NoMemory> {
    let alloc = rt.alloc();
    let none = others(alloc, &matched(alloc, &Pat::Empty)?)?;
    assert!(rt; least(alloc, &none)?.is_none());
    Ok(())
}

fn is_within(alloc: Global, a: &Dfa, b: &Dfa) -> Result<bool, NoMemory> {
    Ok(matches!(included(alloc, a, b)?, Inclusion::Yes))
}

// That a text is the only one of the set.
fn check_only(rt: &impl Abort, alloc: Global, set: &Dfa, text: &str) -> Result<(), NoMemory> {
    let one = single(alloc, text.as_bytes())?;
    assert!(rt; is_within(alloc, set, &one)?, "more than {text}");
    assert!(rt; is_within(alloc, &one, set)?, "{text} is no member");
    Ok(())
}

// How a set is made of two.
enum Cut {
    Front,
    Back,
    Joined,
}

fn made_of(alloc: Global, cut: &Cut, a: &Dfa, b: &Dfa) -> Result<Dfa, NoMemory> {
    match cut {
        Cut::Front => prefix_quotient(alloc, a, b),
        Cut::Back => suffix_quotient(alloc, a, b),
        Cut::Joined => concat(alloc, a, b),
    }
}

fn made_of_texts(alloc: Global, cut: &Cut, first: &str, second: &str) -> Result<Dfa, NoMemory> {
    let a = single(alloc, first.as_bytes())?;
    let b = single(alloc, second.as_bytes())?;
    made_of(alloc, cut, &a, &b)
}

#[test]
fn sets_are_cut_and_joined(rt: HostRuntime) -> Result<(), NoMemory> {
    static ROWS: &[(Cut, &str, &str, &str)] = &[
        (Cut::Front, "abc", "a", "bc"),
        (Cut::Back, "abc", "c", "ab"),
        (Cut::Joined, "a", "b", "ab"),
    ];
    for (cut, first, second, text) in ROWS {
        let made = made_of_texts(rt.alloc(), cut, first, second)?;
        check_only(&rt, rt.alloc(), &made, text)?;
    }
    Ok(())
}

fn made_of_patterns(
    rt: &impl Abort,
    alloc: Global,
    cut: &Cut,
    first: &str,
    second: &str,
) -> Result<Dfa, NoMemory> {
    let a = found_in(rt, alloc, first)?;
    let b = found_in(rt, alloc, second)?;
    made_of(alloc, cut, &a, &b)
}

// That a set has just the texts that a pattern is found in.
fn check_same(rt: &impl Abort, alloc: Global, set: &Dfa, pattern: &str) -> Result<(), NoMemory> {
    let wanted = found_in(rt, alloc, pattern)?;
    assert!(rt; is_within(alloc, set, &wanted)?, "more than {pattern}");
    assert!(rt; is_within(alloc, &wanted, set)?, "less than {pattern}");
    Ok(())
}

#[test]
fn sets_of_many_states_are_cut_in_a_moment(rt: HostRuntime) -> Result<(), NoMemory> {
    static ROWS: &[(Cut, &str, &str, &str)] = &[
        (Cut::Front, "^.*a.{10}$", "^a$", "^(.*a)?.{10}$"),
        (Cut::Back, "^.*a.{10}$", "^a$", "^.*a.{9}$"),
        (Cut::Back, "^.{250}$", "^(ab)*$", "^(..){0,125}$"),
    ];
    for (cut, first, second, wanted) in ROWS {
        let made = made_of_patterns(&rt, rt.alloc(), cut, first, second)?;
        check_same(&rt, rt.alloc(), &made, wanted)?;
    }
    Ok(())
}

fn joined_of_patterns(rt: &impl Abort, alloc: Global, patterns: &[&str]) -> Result<Dfa, NoMemory> {
    let mut sets = Vec::new(alloc);
    for pattern in patterns {
        sets.push(found_in(rt, alloc, pattern)?)?;
    }
    concat_all(alloc, &sets)
}

#[test]
fn many_sets_are_joined(rt: HostRuntime) -> Result<(), NoMemory> {
    static ROWS: &[(&[&str], &str)] = &[
        (&[], "^$"),
        (&["^a|b$"], "^a|b$"),
        (&["^ab$", "^$", "^c?$", "^$"], "^abc?$"),
        (&["^a*$", "^(ab)?$", "^b+$"], "^a*b+$"),
        (&["a$", "^b", "c"], "ab.*c"),
        (&["^a$", "a^", "^b$"], "a^"),
    ];
    for &(patterns, wanted) in ROWS {
        let made = joined_of_patterns(&rt, rt.alloc(), patterns)?;
        check_same(&rt, rt.alloc(), &made, wanted)?;
    }
    Ok(())
}

// A set so many times, one behind the other.
fn repeated(alloc: Global, set: &Dfa, count: usize) -> Result<Dfa, NoMemory> {
    let mut sets = Vec::new(alloc);
    for _ in 0..count {
        sets.push(set.clone()?)?;
    }
    concat_all(alloc, &sets)
}

#[test]
fn thousands_of_sets_are_joined_in_a_moment(rt: HostRuntime) -> Result<(), NoMemory> {
    let set = found_in(&rt, rt.alloc(), "^(a|bc)?d$")?;
    let made = repeated(rt.alloc(), &set, 2700)?;
    let text = "bcd".repeat(rt.alloc(), 2699)?;
    assert!(rt; !made.accepts(text.as_bytes()));
    let text = "bcd".repeat(rt.alloc(), 2700)?;
    assert!(rt; made.accepts(text.as_bytes()));
    Ok(())
}

fn behind_of_pattern(
    rt: &impl Abort,
    alloc: Global,
    pattern: &str,
    count: usize,
) -> Result<Dfa, NoMemory> {
    let set = found_in(rt, alloc, pattern)?;
    behind(alloc, &set, count)
}

#[test]
fn the_first_bytes_are_left_out(rt: HostRuntime) -> Result<(), NoMemory> {
    static ROWS: &[(&str, usize, &str)] = &[
        ("^abc$", 0, "^abc$"),
        ("^abc$", 2, "^c$"),
        ("^abc$", 3, "^$"),
        ("^abc$", 1000, "^$"),
        ("^(a|bcd)$", 1, "^(cd)?$"),
        ("^a*b$", 2, "^(a*b)?$"),
        ("^(ab)*$", 5, "^(b(ab)*)?$"),
        ("^.*a.{10}$", 3, "^(.*a.{10}|.{8,10})$"),
        ("b", 1, ""),
        ("a^", 1, "a^"),
    ];
    for &(pattern, count, wanted) in ROWS {
        let made = behind_of_pattern(&rt, rt.alloc(), pattern, count)?;
        check_same(&rt, rt.alloc(), &made, wanted)?;
    }
    Ok(())
}

#[test]
fn slashes_are_merged(rt: HostRuntime) -> Result<(), NoMemory> {
    static ROWS: &[(&str, &str)] = &[("/a//b", "/a/b"), ("///a////", "/a/")];
    for &(text, merged) in ROWS {
        let made = merge_slashes(rt.alloc(), &single(rt.alloc(), text.as_bytes())?)?;
        check_only(&rt, rt.alloc(), &made, merged)?;
    }
    Ok(())
}

#[test]
fn bytes_are_replaced(rt: HostRuntime) -> Result<(), NoMemory> {
    let mut table = [0u8; 256];
    for (byte, entry) in table.iter_mut().enumerate() {
        *entry = byte as u8;
    }
    table[b'a' as usize] = b'A';
    let set = single(rt.alloc(), b"ab")?;
    let image = byte_image(rt.alloc(), &set, &table)?;
    check_only(&rt, rt.alloc(), &image, "Ab")
}

static USUAL: &[&str] = &[
    r"^/index\.php$",
    "^/(wp-admin|wp-includes|wp-content)/",
    r"\.(css|js|png|jpg|gif|ico|svg|woff2)$",
    "^/([a-z0-9_-]+)/([0-9]{4})/([0-9]{2})(/.*)?$",
    "^/.*secret",
    r"^/(.*/)?\.ht[^/]*$",
    "^/(a|b|ab|ba)*c(d|e){1,12}",
];

// Whether two sets have nothing of what is kept of them.
fn is_nothing(alloc: Global, a: &Dfa, b: &Dfa, keep: Keep) -> Result<bool, NoMemory> {
    let made = product(alloc, a, b, keep)?;
    Ok(least(alloc, &made)?.is_none())
}

// Compares what is told of two sets: their inclusion, the first without the second, and both.
fn compare(rt: &impl Abort, alloc: Global, a: &Dfa, b: &Dfa) -> Result<(), NoMemory> {
    let is_within = is_within(alloc, a, b)?;
    assert!(rt; is_within == is_nothing(alloc, a, b, Keep::FirstOnly)?);
    let is_apart = is_nothing(alloc, a, b, Keep::Both)?;
    assert!(rt; !is_within || !is_apart);
    Ok(())
}

// Both are compiled anew.
fn compare_patterns(
    rt: &impl Abort,
    alloc: Global,
    first: &str,
    second: &str,
) -> Result<(), NoMemory> {
    let a = found_in(rt, alloc, first)?;
    let b = found_in(rt, alloc, second)?;
    compare(rt, alloc, &a, &b)
}

#[test]
fn usual_patterns_are_compared_a_hundred_times(rt: HostRuntime) -> Result<(), NoMemory> {
    for _ in 0..100 {
        for first in USUAL {
            for second in USUAL {
                compare_patterns(&rt, rt.alloc(), first, second)?;
            }
        }
    }
    Ok(())
}
