//! The first match: the way that comes first, and what its groups hold.

use hc_base::{NoMemory, Span};
use hc_match::{Captures, first_match};
use hc_pattern::{Pat, parse_pattern};
use std::alloc::Global;
use std::fmt::Write as _;
use std::process::Abort;
use std::test::Fail;

/// What groups 0 to 3 hold, as pairs of places; `-` for a group that holds nothing.
pub fn show_groups(alloc: Global, found: Option<Captures>) -> Result<String, NoMemory> {
    let mut shown = String::new(alloc);
    let Some(captures) = found else {
        shown.push_str("none")?;
        return Ok(shown);
    };
    for group in 0..4u8 {
        if group > 0 {
            shown.push_str(" ")?;
        }
        match captures.get(group) {
            Some(span) => write!(shown, "{}-{}", span.start, span.end)?,
            None => shown.push_str("-")?,
        }
    }
    Ok(shown)
}

/// A pattern that is one.
pub fn read(rt: &impl Abort, alloc: Global, pattern: &[u8], nocase: bool) -> Pat {
    let Ok(pat) = parse_pattern(alloc, pattern, nocase) else {
        panic!(rt; "a pattern");
    };
    pat
}

// The pattern, without case or not, a text, and what groups 0 to 3 hold. The values are those of
// Python's `re`, or follow from the rules where it has other signs.
static MATCHES: &[(&str, bool, &str, &str)] = &[
    ("(a|ab)(c|bcd)?", false, "abcd", "0-4 0-1 1-4 -"),
    ("(a|ab)(c|bcd)?", false, "abc", "0-1 0-1 - -"),
    ("(a|ab)(c|bcd)?", false, "--ab", "2-3 2-3 - -"),
    ("(a|ab)(c|bcd)?", false, "bcd", "none"),
    ("(x+?)(x*)", false, "xxx", "0-3 0-1 1-3 -"),
    ("x+?$", false, "xxx", "0-3 - - -"),
    ("((a)|b)+", false, "ab", "0-2 1-2 0-1 -"),
    ("((a)|b)+", false, "b", "0-1 0-1 - -"),
    ("(a)b|ac", false, "ac", "0-2 - - -"),
    ("a{2,3}", false, "aaaa", "0-3 - - -"),
    ("a{2,3}?", false, "aaaa", "0-2 - - -"),
    ("a{2,}", false, "aaaa", "0-4 - - -"),
    ("a{2,}?", false, "aaaa", "0-2 - - -"),
    ("a{0}", false, "a", "0-0 - - -"),
    ("a{3,}", false, "aa", "none"),
    ("(a?){1}", false, "b", "0-0 0-0 - -"),
    ("[^0-9]", false, "12x", "2-3 - - -"),
    ("[^0-9]", false, "12", "none"),
    ("^b", false, "bb", "0-1 - - -"),
    ("^b", false, "ab", "none"),
    ("b$", false, "bb", "1-2 - - -"),
    ("b$", false, "ba", "none"),
    ("^$", false, "", "0-0 - - -"),
    ("", false, "ab", "0-0 - - -"),
    ("a|", false, "b", "0-0 - - -"),
    ("(|a)b", false, "ab", "0-2 0-1 - -"),
    ("(a)|b", false, "b", "0-1 - - -"),
    ("(?:a|)$", true, "bA", "1-2 - - -"),
    ("^/(a|ab)(c|bcd)?", false, "/abcd", "0-5 1-2 2-5 -"),
    ("x{2,3}?y", false, "xxxy", "0-4 - - -"),
    ("x{007,}", false, "xxxxxxxx", "0-8 - - -"),
    ("[]^a-c-]+", false, "d]^b-", "1-5 - - -"),
    ("\\x41\\.", false, "A.", "0-2 - - -"),
    ("[^a]b", true, "AbxB", "2-4 - - -"),
    ("[\\x5b]", true, "{[", "1-2 - - -"),
    ("[^\\]]", false, "]x", "1-2 - - -"),
    ("[\\d_-]+", false, "a-_7", "1-4 - - -"),
    ("(a+)(b+)?c", false, "aaacaabc", "0-4 0-3 - -"),
    ("(ab)*c", false, "ababc", "0-5 2-4 - -"),
    ("(a|b)*?b", false, "aab", "0-3 1-2 - -"),
    ("((a{2})|b){2}", false, "aab", "0-3 2-3 0-2 -"),
    ("(.*)(\\d+)", false, "page 2024", "0-9 0-8 8-9 -"),
    ("(.*?)(\\d+)", false, "page 2024", "0-9 0-5 5-9 -"),
    ("^(.*/)?([^/]*)$", false, "a/b/c", "0-5 0-4 4-5 -"),
    ("(^|/)x", false, "a/x", "1-3 1-2 - -"),
    ("a.c", false, "a\nc", "0-3 - - -"),
    ("(a(b(c)?)?)?$", false, "ab", "0-2 0-2 1-2 -"),
    ("(?:(a)|(b)|(c))+", false, "abc", "0-3 0-1 1-2 2-3"),
    ("\\S+\\s\\S", false, "ab cd", "0-4 - - -"),
    ("\\W\\D", false, "a1-x", "2-4 - - -"),
    ("(x)?(y)?z", false, "yz", "0-2 - 0-1 -"),
    ("(a{2}){2}", false, "aaaaa", "0-4 2-4 - -"),
    // a count over 255 is no count, and a name that there is not is no name
    ("a{256}", false, "a{256}", "0-6 - - -"),
    ("[[:foo:]]", false, ":]", "0-2 - - -"),
    ("[^[:alpha:]_]\\d", false, "a_.7", "2-4 - - -"),
];

#[test]
fn the_first_way_is_found(rt: HostRuntime) -> Result<(), NoMemory> {
    let alloc = rt.alloc();
    for &(pattern, nocase, hay, wanted) in MATCHES {
        let pat = read(&rt, alloc, pattern.as_bytes(), nocase);
        let shown = show_groups(alloc, first_match(alloc, &pat, hay.as_bytes())?)?;
        assert!(rt; shown.as_str() == wanted, "{pattern} in {hay}");
    }
    Ok(())
}

fn boxed(alloc: Global, pat: Pat) -> Result<Box<Pat>, NoMemory> {
    Ok(Box::new(alloc, pat)?)
}

// `(a?)*`, of which each turn takes a byte.
fn any_turns(alloc: Global) -> Result<Pat, NoMemory> {
    let once = Pat::Repeat(boxed(alloc, Pat::Byte(b'a'))?, 0, Some(1), true);
    let turn = Pat::Group(1, boxed(alloc, once)?);
    Ok(Pat::Repeat(boxed(alloc, turn)?, 0, None, true))
}

#[test]
fn turns_take_a_byte(rt: HostRuntime) -> Result<(), NoMemory> {
    let pat = any_turns(rt.alloc())?.clone()?;
    let shown = show_groups(rt.alloc(), first_match(rt.alloc(), &pat, b"aab")?)?;
    assert!(rt; shown.as_str() == "0-2 1-2 - -");
    Ok(())
}

#[test]
fn fewer_turns_than_have_to_be_are_none(rt: HostRuntime) -> Result<(), NoMemory> {
    let pat = Pat::Repeat(boxed(rt.alloc(), Pat::Byte(b'a'))?, 3, Some(2), true);
    assert!(rt; first_match(rt.alloc(), &pat, b"aaaa")?.is_none());
    Ok(())
}

#[test]
fn a_group_may_have_a_high_number(rt: HostRuntime) -> Result<(), Fail> {
    let pat = Pat::Group(255, boxed(rt.alloc(), Pat::Byte(b'a'))?);
    let captures = first_match(rt.alloc(), &pat, b"ba")?
        .ok_or("a match")?
        .clone()?;
    assert!(rt; captures.get(255) == Some(Span { start: 1, end: 2 }));
    assert!(rt; captures.get(254).is_none());
    Ok(())
}
