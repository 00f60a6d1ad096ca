//! Conditions.

use crate::rules::{How, Row, check_rows};
use hc_world::WorldFault;

static ROWS: &[Row] = &[
    Row {
        how: How::Server,
        rules: "RewriteCond %{QUERY_STRING} ^b$\nRewriteRule ^ - [F]\n",
        sets: &[("text", "^/t$"), ("query", "^b$")],
        branches: "c1+ r2+ 403, text /t, query b\n",
    },
    Row {
        how: How::Server,
        rules: "RewriteCond %{QUERY_STRING}%{QUERY_STRING} ^ab$\nRewriteRule ^ - [F]\n",
        sets: &[("text", "^/t$"), ("query", "^[ab]$")],
        branches: "c1+ r2+ 403, text /t, query a b\nc1- r2- on, text /t, query a b\n",
    },
    Row {
        how: How::Server,
        rules: "RewriteCond $1 ^x$\nRewriteRule ^/(x)$ - [F]\n",
        sets: &[("text", "^/x$")],
        branches: "c1+ r2+ 403, text /x\n",
    },
    Row {
        how: How::Server,
        rules: "RewriteCond %{QUERY_STRING} ^(.)$\nRewriteCond %{REQUEST_METHOD} !^(P)\nRewriteRule ^ /%1\n",
        sets: &[("text", "^/t$"), ("query", "^[ab]$"), ("method", "^[GP]$")],
        branches: "c1+ c2+ r3+ on new text, text /a /b, query a b, method G\n\
            c1+ c2- r3- on, text /t, query a b, method P\n",
    },
    Row {
        how: How::Server,
        rules: "RewriteCond %{QUERY_STRING} ^a$ [OR]\nRewriteCond %{QUERY_STRING} ^b$\nRewriteRule ^ - [F]\n",
        sets: &[("text", "^/t$"), ("query", "^[abc]$")],
        branches: "c1+ r3+ 403, text /t, query a\nc1- c2+ r3+ 403, text /t, query b\n\
            c1- c2- r3- on, text /t, query c\n",
    },
    Row {
        how: How::Server,
        rules: "RewriteCond %{QUERY_STRING} a\nRewriteCond %{REQUEST_METHOD} G\nRewriteRule ^ - [G]\n",
        sets: &[("text", "^/t$"), ("query", "^[ab]$"), ("method", "^[GP]$")],
        branches: "c1+ c2+ r3+ 410, text /t, query a, method G\nc1+ c2- r3- on, text /t, query a, method P\n\
            c1- r3- on, text /t, query b, method G P\n",
    },
    Row {
        how: How::Server,
        rules: "RewriteCond %{QUERY_STRING}x ^ax$\nRewriteRule ^ - [F]\n",
        sets: &[("text", "^/t$"), ("query", "^(a|b|ax)$")],
        branches: "c1+ r2+ 403, text /t, query a\nc1- r2- on, text /t, query b ax\n",
    },
    Row {
        how: How::Server,
        rules: "RewriteCond %{QUERY_STRING} ^A$ [NC]\nRewriteRule ^ - [F]\n",
        sets: &[("text", "^/t$"), ("query", "^[aAb]$")],
        branches: "c1+ r2+ 403, text /t, query A a\nc1- r2- on, text /t, query b\n",
    },
    Row {
        how: How::Server,
        rules: "RewriteCond %{QUERY_STRING} ^a$ [OR]\nRewriteCond %{QUERY_STRING} ^b$\n\
            RewriteCond %{REQUEST_METHOD} ^G\nRewriteRule ^ - [F]\n",
        sets: &[("text", "^/t$"), ("query", "^[abc]$"), ("method", "^[GP]$")],
        branches: "c1+ c3+ r4+ 403, text /t, query a, method G\nc1+ c3- r4- on, text /t, query a, method P\n\
            c1- c2+ c3+ r4+ 403, text /t, query b, method G\n\
            c1- c2+ c3- r4- on, text /t, query b, method P\nc1- c2- r4- on, text /t, query c, method G P\n",
    },
    Row {
        how: How::Server,
        rules: "RewriteCond %{QUERY_STRING} !^a$ [OR]\nRewriteCond %{REQUEST_METHOD} ^G\nRewriteRule ^ - [F]\n",
        sets: &[("text", "^/t$"), ("query", "^[ab]$"), ("method", "^[GP]$")],
        branches: "c1+ r3+ 403, text /t, query b, method G P\nc1- c2+ r3+ 403, text /t, query a, method G\n\
            c1- c2- r3- on, text /t, query a, method P\n",
    },
    Row {
        how: How::Server,
        rules: "RewriteCond %{QUERY_STRING} ^(a)$ [OR]\nRewriteCond %{REQUEST_METHOD} ^(G)\nRewriteRule ^ /%1\n",
        sets: &[("text", "^/t$"), ("query", "^[ab]$"), ("method", "^G$")],
        branches: "c1+ r3+ on new text, text /a, query a, method G\n\
            c1- c2+ r3+ on new text, text /G, query b, method G\n",
    },
    Row {
        how: How::Server,
        rules: "RewriteCond %{QUERY_STRING} a [NV]\nRewriteRule ^ - [F]\n",
        sets: &[("text", "^/t$"), ("query", "^[ab]$")],
        branches: "c1+ r2+ 403, text /t, query a\nc1- r2- on, text /t, query b\n",
    },
    Row {
        how: How::Server,
        rules: "RewriteCond %{QUERY_STRING} !^(a)$\nRewriteRule ^/(.)$ /$1%1\n",
        sets: &[("text", "^/x$"), ("query", "^[ab]$")],
        branches: "c1+ r2+ on new text, text /x, query b\nc1- r2- on, text /x, query a\n",
    },
];

#[test]
fn conditions_have_their_branches(rt: HostRuntime) -> Result<(), WorldFault> {
    check_rows(&rt, rt.alloc(), ROWS)
}
