//! Patterns and globs as they are read: sets of bytes, refusals with their byte, the limits.

use hc_base::codes::{EMPTY_LOOP, PATTERN_SYNTAX, PATTERN_TOO_LARGE, PATTERN_UNSUPPORTED};
use hc_base::{AtByte, Fault, NoMemory};
use hc_match::first_match;
use hc_pattern::{ByteSet, Pat, PatFault, glob_pattern, has_wildcard, parse_pattern};
use std::alloc::Global;
use std::process::Abort;
use std::test::Fail;

#[test]
fn sets_have_their_bytes(rt: HostRuntime) {
    let digits = ByteSet::empty().with_range(b'0', b'9');
    static ROWS: &[(u8, bool)] = &[(b'/', false), (b'0', true), (b'9', true), (b':', false)];
    for &(byte, wanted) in ROWS {
        assert!(rt; digits.has(byte) == wanted, "{byte}");
        assert!(rt; digits.complement().has(byte) == !wanted, "{byte}");
    }
    let far = digits.union(ByteSet::empty().with(255).with_range(127, 128));
    static FAR: &[(u8, bool)] = &[
        (0, false),
        (b'5', true),
        (126, false),
        (127, true),
        (128, true),
        (129, false),
        (255, true),
    ];
    for &(byte, wanted) in FAR {
        assert!(rt; far.has(byte) == wanted, "{byte}");
    }
    assert!(rt; !ByteSet::empty().with_range(9, 8).has(8));
}

// What one sign meets: how many bytes, and the sum of their values.
static SETS: &[(&str, u32, u32)] = &[
    ("[[:alpha:]]", 52, 4862),
    ("[[:digit:]]", 10, 525),
    ("[[:alnum:]]", 62, 5387),
    ("[[:upper:]]", 26, 2015),
    ("[[:lower:]]", 26, 2847),
    ("[[:space:]]", 6, 87),
    ("[[:blank:]]", 2, 41),
    ("[[:punct:]]", 32, 2086),
    ("[[:print:]]", 95, 7505),
    ("[[:graph:]]", 94, 7473),
    ("[[:cntrl:]]", 33, 623),
    ("[[:xdigit:]]", 22, 1527),
    ("[[:word:]]", 63, 5482),
    ("\\d", 10, 525),
    ("\\D", 246, 32115),
    ("\\w", 63, 5482),
    ("\\W", 193, 27158),
    ("\\s", 6, 87),
    ("\\S", 250, 32553),
    (".", 256, 32640),
    ("[^a]", 255, 32543),
    ("\\x80", 1, 128),
];

fn met(alloc: Global, pat: &Pat) -> Result<(u32, u32), NoMemory> {
    let mut count = 0u32;
    let mut sum = 0u32;
    for byte in 0..=255u8 {
        if first_match(alloc, pat, &[byte])?.is_some() {
            count = count.saturating_add(1);
            sum = sum.saturating_add(u32::from(byte));
        }
    }
    Ok((count, sum))
}

#[test]
fn signs_meet_their_bytes(rt: HostRuntime) -> Result<(), Fail> {
    let alloc = rt.alloc();
    for &(sign, count, sum) in SETS {
        let Ok(pat) = parse_pattern(alloc, sign.as_bytes(), false) else {
            panic!(rt; "{sign}");
        };
        assert!(rt; met(alloc, &pat)? == (count, sum), "{sign}");
    }
    Ok(())
}

fn refusal(read: Result<Pat, PatFault>) -> Option<AtByte> {
    match read {
        Err(Fault::Refused(refusal)) => Some(refusal),
        _ => None,
    }
}

static REFUSED: &[(&str, u8, u32)] = &[
    ("a\\q", PATTERN_UNSUPPORTED, 1),
    ("\\1", PATTERN_UNSUPPORTED, 0),
    ("\\b", PATTERN_UNSUPPORTED, 0),
    ("x[a\\Q]", PATTERN_UNSUPPORTED, 3),
    ("(?=a)", PATTERN_UNSUPPORTED, 0),
    ("a(?<n>a)", PATTERN_UNSUPPORTED, 1),
    ("(?i)a", PATTERN_UNSUPPORTED, 0),
    ("a*+", PATTERN_UNSUPPORTED, 2),
    ("a++", PATTERN_UNSUPPORTED, 2),
    ("a?+", PATTERN_UNSUPPORTED, 2),
    ("a{2}+", PATTERN_UNSUPPORTED, 4),
    ("a{,3}", PATTERN_UNSUPPORTED, 1),
    ("[[:^alpha:]]", PATTERN_UNSUPPORTED, 1),
    ("\\x4", PATTERN_UNSUPPORTED, 0),
    ("\\xg0", PATTERN_UNSUPPORTED, 0),
    ("\\q(", PATTERN_UNSUPPORTED, 0),
    ("((a", PATTERN_SYNTAX, 0),
    ("a[b", PATTERN_SYNTAX, 1),
    ("a[]", PATTERN_SYNTAX, 1),
    ("(a[b-a", PATTERN_SYNTAX, 3),
    ("a)", PATTERN_SYNTAX, 1),
    ("*", PATTERN_SYNTAX, 0),
    ("a|*", PATTERN_SYNTAX, 2),
    ("(*a)", PATTERN_SYNTAX, 1),
    ("{2}", PATTERN_SYNTAX, 0),
    ("a**", PATTERN_SYNTAX, 2),
    ("a{2}{3}", PATTERN_SYNTAX, 4),
    ("a*?+", PATTERN_SYNTAX, 3),
    ("a{3,2}", PATTERN_SYNTAX, 1),
    ("[b-a]", PATTERN_SYNTAX, 1),
    ("a\\", PATTERN_SYNTAX, 1),
    ("[a\\", PATTERN_SYNTAX, 2),
    ("(a{255}){17}", PATTERN_TOO_LARGE, 0),
    ("(a{255}){255}", PATTERN_TOO_LARGE, 0),
    ("(a*)*(a{255}){17}", PATTERN_TOO_LARGE, 0),
    ("^(a*)*", EMPTY_LOOP, 5),
    ("^*", EMPTY_LOOP, 1),
    ("(a?)+", EMPTY_LOOP, 4),
    ("(|a){2,}", EMPTY_LOOP, 4),
    ("(?:a?){2}(b*)+", EMPTY_LOOP, 6),
];

#[test]
fn patterns_are_refused(rt: HostRuntime) {
    let alloc = rt.alloc();
    for &(pattern, code, at) in REFUSED {
        let read = parse_pattern(alloc, pattern.as_bytes(), false);
        assert!(rt; refusal(read) == Some(AtByte { code, at }), "{pattern}");
    }
}

// That a pattern is read, or refused with this code.
fn check_code(rt: &impl Abort, alloc: Global, pattern: &str, code: Option<u8>) {
    let refused = refusal(parse_pattern(alloc, pattern.as_bytes(), false));
    assert!(rt; refused.map(|broken| broken.code) == code, "{pattern}");
}

static LIMITS: &[(&str, usize, Option<u8>)] = &[
    ("(a)", 32, None),
    ("(a)", 33, Some(PATTERN_TOO_LARGE)),
    ("(?:a)", 33, None),
    ("a", 4096, None),
    ("a", 4097, Some(PATTERN_TOO_LARGE)),
    ("a{3}?", 1365, None),
    ("a{3}?", 1366, Some(PATTERN_TOO_LARGE)),
];

#[test]
fn patterns_have_limits(rt: HostRuntime) -> Result<(), Fail> {
    let alloc = rt.alloc();
    for &(part, count, code) in LIMITS {
        check_code(&rt, alloc, &part.repeat(alloc, count)?, code);
    }
    Ok(())
}

// So many groups within each other.
fn nested(alloc: Global, depth: usize) -> Result<String, NoMemory> {
    let mut pattern = "(?:".repeat(alloc, depth)?;
    pattern.push_str("a")?;
    pattern.push_str(&")".repeat(alloc, depth)?)?;
    Ok(pattern)
}

#[test]
fn groups_stand_within_each_other(rt: HostRuntime) -> Result<(), NoMemory> {
    static ROWS: &[(usize, Option<u8>)] = &[(4095, None), (4096, Some(PATTERN_TOO_LARGE))];
    for &(depth, code) in ROWS {
        check_code(&rt, rt.alloc(), &nested(rt.alloc(), depth)?, code);
    }
    Ok(())
}

static GLOBS: &[(&str, bool, &str, bool)] = &[
    ("*.conf", true, "a.conf", true),
    ("*.conf", true, "a/b.conf", false),
    ("*.conf", false, "a/b.conf", true),
    ("a?c", true, "a/c", false),
    ("a?c", false, "a/c", true),
    ("[!a-c]", false, "d", true),
    ("[!a-c]", false, "b", false),
    ("[^a-c]", true, "/", false),
    ("[^a-c]", false, "/", true),
    ("[^]a]", false, "]", false),
    ("[^]a]", false, "b", true),
    ("[]-_]x", false, "^x", true),
    ("[", false, "[", true),
    ("x[!", false, "x[!", true),
    ("[a[b", false, "[a[b", true),
    ("[!][?", false, "[!][x", true),
    ("[![]", false, "[", false),
    ("[[a]", false, "[", true),
    ("\\*", false, "*", true),
    ("\\*", false, "a", false),
    ("\\*[ab", false, "*[ab", true),
    ("a\\", false, "a\\", true),
    ("[\\]x]", false, "]", true),
    ("", false, "", true),
    ("a", false, "ab", false),
    ("a", false, "A", false),
    ("a|b", false, "a", false),
];

#[test]
fn globs_are_read(rt: HostRuntime) -> Result<(), Fail> {
    let alloc = rt.alloc();
    for &(glob, keeps_slash, hay, wanted) in GLOBS {
        let Ok(pat) = glob_pattern(alloc, glob.as_bytes(), keeps_slash) else {
            panic!(rt; "{glob}");
        };
        let found = first_match(alloc, &pat, hay.as_bytes())?.is_some();
        assert!(rt; found == wanted, "{glob} on {hay}");
    }
    Ok(())
}

#[test]
fn globs_are_refused(rt: HostRuntime) -> Result<(), Fail> {
    let alloc = rt.alloc();
    let falls = AtByte {
        code: PATTERN_SYNTAX,
        at: 3,
    };
    assert!(rt; refusal(glob_pattern(alloc, b"x[az-b]", false)) == Some(falls));
    for (part, count, is_large) in [
        ("?", 4096, false),
        ("?", 4097, true),
        ("[", 4096, false),
        ("[", 100_000, true),
    ] {
        let glob = part.repeat(alloc, count)?;
        let large = AtByte {
            code: PATTERN_TOO_LARGE,
            at: 0,
        };
        let wanted = if is_large { Some(large) } else { None };
        assert!(rt;
            refusal(glob_pattern(alloc, glob.as_bytes(), true)) == wanted,
            "{count} of {part}"
        );
    }
    Ok(())
}

// A part, how many of it stand in the text, what stands behind them, and whether there is a wildcard.
static WILDCARDS: &[(&str, usize, &str, bool)] = &[
    ("", 1, "", false),
    ("a", 1, "?", true),
    ("\\*", 1, "", false),
    ("[]", 1, "", false),
    ("[]]", 1, "", true),
    ("[!]", 1, "", false),
    ("[!]", 1, "*", true),
    ("[!]]", 1, "", true),
    ("[![", 1, "", false),
    ("[![", 1, "]", true),
    ("[", 3000, "]", true),
    ("[", 100_000, "", false),
    ("[", 100_000, "\\]", false),
    ("[", 100_000, "*", true),
    ("[", 100_000, "]", true),
];

#[test]
fn wildcards_are_found(rt: HostRuntime) -> Result<(), Fail> {
    let alloc = rt.alloc();
    for &(part, count, behind, wanted) in WILDCARDS {
        let mut text = part.repeat(alloc, count)?;
        text.push_str(behind)?;
        assert!(rt;
            has_wildcard(alloc, text.as_bytes())? == wanted,
            "{count} of {part} and {behind}"
        );
    }
    Ok(())
}
