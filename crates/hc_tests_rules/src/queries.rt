//! Queries.

use crate::rules::{How, Row, check_rows};
use hc_world::WorldFault;

static ROWS: &[Row] = &[
    Row {
        how: How::Server,
        rules: "RewriteRule ^ /n?x=1 [QSA]\n",
        sets: &[("text", "^/t$"), ("query", "^a?$")],
        branches: "r1+ on new text new query, text /n, query x=1 x=1&a, first  a\n",
    },
    Row {
        how: How::Server,
        rules: "RewriteRule ^/(.?)$ /n?$1 [QSA]\n",
        sets: &[("text", "^/x?$"), ("query", "^a?$")],
        branches: "r1+ on new text new query, text /n, query  a x x&a, first  a\n",
    },
    Row {
        how: How::Server,
        rules: "RewriteRule ^ /n [QSD]\n",
        sets: &[("text", "^/t$"), ("query", "^a?$")],
        branches: "r1+ on new text new query, text /n, query , first  a\n",
    },
    Row {
        how: How::Server,
        rules: "RewriteRule ^ /n?x [QSA,QSD]\n",
        sets: &[("text", "^/t$"), ("query", "^a$")],
        branches: "r1+ on new text new query, text /n, query x, first a\n",
    },
    Row {
        how: How::Server,
        rules: "RewriteRule ^ /n\n",
        sets: &[("text", "^/t$"), ("query", "^a$")],
        branches: "r1+ on new text, text /n, query a\n",
    },
    Row {
        how: How::Replaced,
        rules: "RewriteRule ^ /n?x\n",
        sets: &[("text", "^/t$"), ("query", "^a$"), ("first", "^z$")],
        branches: "r1+ on new text new query, text /n, query x, first z\n",
    },
    Row {
        how: How::Server,
        rules: "RewriteCond %{QUERY_STRING} a\nRewriteRule ^ /n?x\n",
        sets: &[("text", "^/t$"), ("query", "^[ab]$")],
        branches: "c1+ r2+ on new text new query, text /n, query x, first a\nc1- r2- on, text /t, query b\n",
    },
    Row {
        how: How::Server,
        rules: "RewriteRule ^/a$ - [DPI,QSD]\n",
        sets: &[("text", "^/a$"), ("info", "^/i$"), ("query", "^q$")],
        branches: "r1+ on, text /a, query q, info /i\n",
    },
    Row {
        how: How::Server,
        rules: "RewriteRule ^ /n? [QSA]\n",
        sets: &[("text", "^/t$"), ("query", "^a?$")],
        branches: "r1+ on new text new query, text /n, query  a, first  a\n",
    },
    Row {
        how: How::Server,
        rules: "RewriteRule ^ /n?\n",
        sets: &[("text", "^/t$"), ("query", "^a$")],
        branches: "r1+ on new text new query, text /n, query , first a\n",
    },
    Row {
        how: How::Server,
        rules: "RewriteRule ^ /n?%{QUERY_STRING}b\n",
        sets: &[("text", "^/t$"), ("query", "^a?$")],
        branches: "r1+ on new text new query, text /n, query b ab, first  a\n",
    },
    Row {
        how: How::Replaced,
        rules: "RewriteRule ^ /n?x [QSA]\n",
        sets: &[("text", "^/t$"), ("query", "^a$"), ("first", "^z$")],
        branches: "r1+ on new text new query, text /n, query x&a, first z\n",
    },
    Row {
        how: How::Server,
        rules: "RewriteRule ^ /n?a?b\n",
        sets: &[("text", "^/t$"), ("query", "^q$")],
        branches: "r1+ on new text new query, text /n, query a?b, first q\n",
    },
    Row {
        how: How::Server,
        rules: "RewriteRule ^/(.*)$ /$1\n",
        sets: &[("text", "^/(a\\?b|c)$"), ("query", "^q$")],
        branches: "r1+ on new text new query, text /a, query b, first q\nr1+ on new text, text /c, query q\n",
    },
];

#[test]
fn queries_have_their_branches(rt: HostRuntime) -> Result<(), WorldFault> {
    check_rows(&rt, rt.alloc(), ROWS)
}
