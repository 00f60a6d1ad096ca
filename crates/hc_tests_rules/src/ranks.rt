//! What a match takes outside groups, and lists of rules whose form makes the text shorter in each round.

use crate::rules::{How, Row, built, rules_of, world_of};
use hc_pattern::parse_pattern;
use hc_rank::{rest, shrinks};
use hc_world::WorldFault;
use std::alloc::Global;
use std::process::Abort;

// A pattern, the used groups, and the least number of bytes outside them.
static RESTS: &[(&str, &[u8], u32)] = &[
    ("^(.*)/x$", &[1], 2),
    ("a(b|cd)e?", &[], 2),
    ("a(b|cd)e?", &[1], 1),
    ("(ab){3}c+", &[2], 7),
    ("((a)b)+|xyz", &[2], 1),
    ("(a{50}){60}b", &[9], 3001),
];

// Where rules stand, the rules, and whether they have the form.
static ROWS: &[(How, &str, bool)] = &[
    (How::Server, "", true),
    (How::Server, "RewriteRule ^(/.*)x$ $1 [N]\n", true),
    (How::Server, "RewriteRule ^(/.*)x$ $1yy [N]\n", false),
    (How::Server, "RewriteRule ^(/.*)x{3}$ $1yy [N]\n", true),
    (How::Server, "RewriteRule ^(/.*)x{3}$ $1yyy [N]\n", false),
    (How::Server, "RewriteRule ^(/.*)xx$ $1\\$ [N]\n", true),
    // So many rounds that each may be shorter.
    (How::Server, "RewriteRule ^(/.*)x$ $1 [N=8192]\n", true),
    (How::Server, "RewriteRule ^(/.*)x$ $1 [N=8191]\n", false),
    // Another flag has no further round begin.
    (How::Server, "RewriteRule ^(/.*)x$ $1yy [N,L]\n", true),
    (How::Server, "RewriteRule ^(/.*)x$ $1yy [N,END]\n", true),
    (How::Server, "RewriteRule ^(/.*)x$ $1yy [N,PT]\n", true),
    (How::Server, "RewriteRule ^(/.*)x$ - [N]\n", false),
    // Each used part once, and no group that can't be told from others.
    (How::Server, "RewriteRule ^(/.*)xyz$ $1$1 [N]\n", false),
    (How::Server, "RewriteRule ^(/.*)xyz$ $0 [N]\n", false),
    (How::Server, "RewriteRule ^(/(a*)b)xx$ $1$2 [N]\n", false),
    (How::Server, "RewriteRule ^/(?:(a)|b)+xx$ /$1 [N]\n", true),
    (How::Server, "RewriteRule ^(/.*)xx$ $1%1 [N]\n", false),
    (How::Server, "RewriteRule ^(/.*)xx$ $1%{ENV:v} [N]\n", false),
    (How::Server, "RewriteRule !^/a$ /b\n", false),
    // Other rules make it no longer.
    (
        How::Server,
        "RewriteRule ^(/.*)x$ $1 [N]\nRewriteRule ^/b$ /c\n",
        true,
    ),
    (
        How::Server,
        "RewriteRule ^(/.*)x$ $1 [N]\nRewriteRule ^/b$ /cd\n",
        false,
    ),
    (
        How::Server,
        "RewriteRule ^(/.*)x$ $1 [N]\nRewriteRule ^/b$ /cd [L]\n",
        true,
    ),
    (
        How::Server,
        "RewriteRule ^(/.*)x$ $1 [N]\nRewriteRule ^/b$ /cd [R]\n",
        true,
    ),
    (
        How::Server,
        "RewriteRule ^(/.*)x$ $1 [N]\nRewriteRule ^/b$ - [E=v:w]\n",
        true,
    ),
    // In a directory the path information goes, too.
    (How::Within, "RewriteRule ^(.*)x$ $1 [N]\n", false),
    (How::Within, "RewriteRule ^(.*)x$ $1 [N,DPI]\n", true),
];

#[test]
fn what_stands_outside_used_groups_is_counted(rt: HostRuntime) {
    let alloc = rt.alloc();
    for &(text, used, wanted) in RESTS {
        let Ok(pat) = parse_pattern(alloc, text.as_bytes(), false) else {
            panic!(rt; "{text}");
        };
        assert!(rt; rest(&pat, used) == wanted, "{text}");
    }
}

fn found(rt: &impl Abort, alloc: Global, row: &Row) -> Result<bool, WorldFault> {
    let world = world_of(alloc, row)?;
    let config = built(rt, alloc, row, &world)?;
    Ok(shrinks(rules_of(&config, row), row.how.is_within()))
}

#[test]
fn rounds_that_shorten_the_text_are_told(rt: HostRuntime) -> Result<(), WorldFault> {
    let alloc = rt.alloc();
    for &(how, rules, wanted) in ROWS {
        let row = Row {
            how,
            rules,
            sets: &[],
            branches: "",
        };
        if found(&rt, alloc, &row)? != wanted {
            panic!(rt; "{rules}");
        }
    }
    Ok(())
}
