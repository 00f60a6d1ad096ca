//! Matches that take a moment, on hostile texts and on usual ones.

use crate::matches::{read, show_groups};
use hc_base::NoMemory;
use hc_match::first_match;
use std::alloc::Global;

// The pattern, a part, how many of it stand in the text, and what groups 0 to 3 hold.
static LONG: &[(&str, &str, usize, &str)] = &[
    ("(a)*", "a", 8190, "0-8190 8189-8190 - -"),
    ("^(.*)$", "a", 8190, "0-8190 0-8190 - -"),
    ("(a|a)*b", "a", 8000, "none"),
    ("^(a|a)*$", "a", 8000, "0-8000 7999-8000 - -"),
    ("(a|b|ab)*c", "ab", 8000, "none"),
    ("^(a|b|ab)*$", "ab", 8000, "0-16000 15999-16000 - -"),
    ("(x+x+)+y", "x", 4000, "none"),
    ("(.*)(.*)(.*)(.*)y", "x", 400, "none"),
    ("(?:a?){1}(?:(?:a|b)(?:a|b)?){255}c", "ab", 4000, "none"),
    ("^(?:(a)|b){3,}$", "a", 8190, "0-8190 8189-8190 - -"),
    ("^(?:(a)|b){3,}?$", "a", 8190, "0-8190 8189-8190 - -"),
];

#[test]
fn hostile_texts_take_a_moment(rt: HostRuntime) -> Result<(), NoMemory> {
    let alloc = rt.alloc();
    for &(pattern, part, count, wanted) in LONG {
        let hay = part.repeat(alloc, count)?;
        let pat = read(&rt, alloc, pattern.as_bytes(), false);
        let shown = show_groups(alloc, first_match(alloc, &pat, hay.as_bytes())?)?;
        assert!(rt; shown.as_str() == wanted, "{pattern} on {count} of {part}");
    }
    Ok(())
}

// Repeats in each other: how many, and what each begins and ends with.
static NESTED: &[(usize, &str, &str)] = &[
    (20, "(?:", ")+"),
    (20, "(?:", ")+?"),
    (1000, "(?:", ")+"),
    (1000, "(?:", ")+?"),
    (18, "(", ")+"),
];

fn nested(alloc: Global, depth: usize, open: &str, close: &str) -> Result<String, NoMemory> {
    let mut pattern = open.repeat(alloc, depth)?;
    pattern.push_str("a")?;
    let closes = close.repeat(alloc, depth)?;
    pattern.push_str(closes.as_str())?;
    pattern.push_str("b")?;
    Ok(pattern)
}

#[test]
fn nested_repeats_take_a_moment(rt: HostRuntime) -> Result<(), NoMemory> {
    let alloc = rt.alloc();
    let hay = "a".repeat(alloc, 8190)?;
    for &(depth, open, close) in NESTED {
        let pattern = nested(alloc, depth, open, close)?;
        let pat = read(&rt, alloc, pattern.as_bytes(), false);
        assert!(rt;
            first_match(alloc, &pat, hay.as_bytes())?.is_none(),
            "{open} {depth}"
        );
    }
    Ok(())
}

// A pattern of 4,096 nodes.
fn large_pattern(alloc: Global) -> Result<String, NoMemory> {
    let mut pattern = "(?:a|ab?)".repeat(alloc, 682)?;
    pattern.push_str("aaac")?;
    Ok(pattern)
}

#[test]
fn a_large_pattern_takes_a_moment(rt: HostRuntime) -> Result<(), NoMemory> {
    let alloc = rt.alloc();
    let pattern = large_pattern(alloc)?;
    let pat = read(&rt, alloc, pattern.as_bytes(), false);
    let hay = "a".repeat(alloc, 8190)?;
    assert!(rt; first_match(alloc, &pat, hay.as_bytes())?.is_none());
    Ok(())
}

static USUAL: &[(&str, &str, bool)] = &[
    (
        "^/index\\.php$",
        "/index.php/archives/2024/11/post-of-day1",
        false,
    ),
    (
        "^/(wp-admin|wp-includes|wp-content)/",
        "/wp-content/themes/plain/styles/main.css",
        true,
    ),
    (
        "\\.(css|js|png|jpg|gif|ico|svg|woff2)$",
        "/wp-content/themes/plain/style/mains.css",
        true,
    ),
    (
        "^/([a-z0-9_-]+)/([0-9]{4})/([0-9]{2})(/.*)?$",
        "/news/2024/11/a-title-of-a-long-article/",
        true,
    ),
    (
        "^/.*secret",
        "/public/files/reports/2024/overview.html",
        false,
    ),
    (
        "^/(.*/)?\\.ht[^/]*$",
        "/public/files/reports/2024/.htpasswd-old",
        true,
    ),
    (
        "^/x/(.*)$",
        "/x/public/files/reports/2024/overview.ht",
        true,
    ),
    (
        "^/blog/([^/]+)/?$",
        "/shop/public/files/reports/2024/a-title/",
        false,
    ),
    (
        "^/api/v[0-9]+/users",
        "/app/v2/users/1234567/settings/profile-1",
        false,
    ),
    ("/$", "/public/files/reports/2024/overview.html", false),
];

#[test]
fn usual_rules_are_matched_a_million_times(rt: HostRuntime) -> Result<(), NoMemory> {
    let alloc = rt.alloc();
    for &(pattern, path, wanted) in USUAL {
        let pat = read(&rt, alloc, pattern.as_bytes(), false);
        let mut found = 0u32;
        for _ in 0..100_000 {
            if first_match(alloc, &pat, path.as_bytes())?.is_some() {
                found = found.saturating_add(1);
            }
        }
        assert!(rt; found == if wanted { 100_000 } else { 0 }, "{pattern}");
    }
    Ok(())
}
