//! The branches of one round of a list of rules.

use crate::rules::{How, ROOM, Row, before_of, built, caller_of, rules_of, world_of};
use crate::shown::shown_lists;
use hc_abs_pass::{Listed, SoFar, list_branches};
use hc_abs_rw::{Around, Frame};
use hc_base::{List, NoMemory};
use hc_model::{Config, Rule};
use hc_plan::Tied;
use hc_rw_sets::TextTests;
use hc_world::WorldFault;
use std::alloc::Global;
use std::process::Abort;

static ROWS: &[Row] = &[
    Row {
        how: How::Server,
        rules: "",
        sets: &[("text", "^/t$")],
        branches: "over, text /t\n",
    },
    Row {
        how: How::Server,
        rules: "RewriteRule ^/a$ /n\nRewriteRule ^/n$ /m\n",
        sets: &[("text", "^/[ab]$")],
        branches: "r1+ r2+ over new text, text /m\nr1- r2- over, text /b\n",
    },
    Row {
        how: How::Server,
        rules: "RewriteRule ^/a$ /n [L]\nRewriteRule ^/n$ /m\n",
        sets: &[("text", "^/[ab]$")],
        branches: "r1+ over new text, text /n\nr1- r2- over, text /b\n",
    },
    Row {
        how: How::Server,
        rules: "RewriteRule ^/a$ /n [C]\nRewriteRule ^ /x [C]\nRewriteRule ^ /y\nRewriteRule ^ - [G]\n",
        sets: &[("text", "^/[ab]$")],
        branches: "r1+ r2+ r3+ r4+ 410 new text, text /y\nr1- r4+ 410, text /b\n",
    },
    Row {
        how: How::Server,
        rules: "RewriteRule ^/a$ - [S=1]\nRewriteRule ^ - [F]\nRewriteRule ^ - [G]\n",
        sets: &[("text", "^/[ab]$")],
        branches: "r1+ r3+ 410, text /a\nr1- r2+ 403, text /b\n",
    },
    Row {
        how: How::Server,
        rules: "RewriteRule ^ - [S=5]\nRewriteRule ^ - [F]\n",
        sets: &[("text", "^/t$")],
        branches: "r1+ over, text /t\n",
    },
    Row {
        how: How::Server,
        rules: "RewriteRule ^/a$ /b [N]\nRewriteRule ^/b$ - [F]\n",
        sets: &[("text", "^/[ab]$")],
        branches: "r1+ again at 1 new text, text /b\nr1- r2+ 403, text /b\n",
    },
    Row {
        how: How::Server,
        rules: "RewriteRule ^/a$ /n [PT]\nRewriteRule ^ - [F]\n",
        sets: &[("text", "^/[ab]$")],
        branches: "r1+ passed new text, text /n\nr1- r2+ 403, text /b\n",
    },
    Row {
        how: How::Server,
        rules: "RewriteRule ^/a$ - [END]\nRewriteRule ^ - [F]\n",
        sets: &[("text", "^/[ab]$")],
        branches: "r1+ over, text /a, end 1\nr1- r2+ 403, text /b\n",
    },
    Row {
        how: How::Server,
        rules: "RewriteRule ^/(http://b\\.example/)$ $1\nRewriteRule ^ - [F]\n",
        sets: &[("text", "^/(http://b\\.example/|b)$")],
        branches: "r1+ outside, text /http://b.example/\nr1- r2+ 403, text /b\n",
    },
    Row {
        how: How::Server,
        rules: "RewriteRule ^ /n?x\nRewriteRule ^ /m?y\n",
        sets: &[("text", "^/t$"), ("query", "^q$")],
        branches: "r1+ r2+ over new text new query, text /m, query y, first q\n",
    },
    Row {
        how: How::Server,
        rules: "RewriteCond %{QUERY_STRING} a\nRewriteRule ^ - [E=A:1]\nRewriteCond %{ENV:A} =1\nRewriteRule ^ - [F]\n",
        sets: &[("text", "^/t$"), ("query", "^[ab]$"), ("A", "^$")],
        branches: "c1+ r2+ c3+ r4+ 403, text /t, query a, A 1\nc1- r2- c3- r4- over, text /t, query b, A \n",
    },
    Row {
        how: How::Tied,
        rules: "RewriteRule ^/a$ /n\nRewriteCond %{REQUEST_URI} ^/a$\nRewriteRule ^ - [F]\n",
        sets: &[("path", "^/[ab]$"), ("text", "^/[ab]$")],
        branches: "r1+ c2+ r3+ 403 new text, path /a, text /n\nr1- c2- r3- over, path /b, text /b, tied\n",
    },
];

fn listed<'r>(
    alloc: Global,
    frame: &Frame<'_, Around<'_>>,
    rules: &'r [Rule],
    before: Tied,
) -> Result<Vec<Listed<'r>>, NoMemory> {
    let so_far = SoFar {
        decisions: List::new(alloc),
        substituted: false,
        replaced: false,
    };
    list_branches(alloc, frame, rules, so_far, before)
}

fn shown_in<'f>(
    rt: &impl Abort,
    alloc: Global,
    row: &Row,
    tests: &'f TextTests,
    around: &'f Around<'f>,
    config: &'f Config,
) -> Result<Vec<u8>, NoMemory> {
    let frame = Frame {
        tests,
        root: config.main.root.as_ref(),
        engine: None,
        client: None,
        around,
        room: ROOM,
    };
    let before = before_of(rt, alloc, row)?;
    let found = listed(alloc, &frame, rules_of(config, row), before)?;
    shown_lists(alloc, &found)
}

fn found(
    rt: &impl Abort,
    alloc: Global,
    row: &Row,
    tests: &TextTests,
) -> Result<Vec<u8>, WorldFault> {
    let world = world_of(alloc, row)?;
    let config = built(rt, alloc, row, &world)?;
    let around = Around::new(alloc, &world, config.main.rewrite_maps.as_slice())?;
    let shown = shown_in(rt, alloc, row, tests, &around, &config)?;
    Ok(shown)
}

#[test]
fn a_list_has_its_branches(rt: HostRuntime) -> Result<(), WorldFault> {
    let alloc = rt.alloc();
    let tests = TextTests::new(alloc, caller_of(alloc)?)?;
    for row in ROWS {
        let shown = found(&rt, alloc, row, &tests)?;
        let wanted = row.branches;
        if shown.as_slice() != wanted.as_bytes() {
            let shown = str::from_utf8(&shown).unwrap_or("no text");
            panic!(rt; "{}: {shown} for {wanted}", row.rules);
        }
    }
    Ok(())
}
