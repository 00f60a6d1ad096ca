//! Tests of names of files, and by one text.

use crate::rules::{How, Row, check_rows};
use hc_world::WorldFault;

static ROWS: &[Row] = &[
    Row {
        how: How::Server,
        rules: "RewriteCond %{REQUEST_URI} -f\nRewriteRule ^ - [F]\n",
        sets: &[("text", "^/t$"), ("path", "^/(f|//f|x|f/)$")],
        branches: "c1+ r2+ 403, path /f ///f, text /t\nc1- r2- on, path /x /f/, text /t\n",
    },
    Row {
        how: How::Server,
        rules: "RewriteCond %{REQUEST_URI} -d\nRewriteRule ^ - [F]\n",
        sets: &[("text", "^/t$"), ("path", "^/(d|d/|d//|f)$")],
        branches: "c1+ r2+ 403, path /d /d/ /d//, text /t\nc1- r2- on, path /f, text /t\n",
    },
    Row {
        how: How::Server,
        rules: "RewriteCond %{QUERY_STRING} =ab [NC]\nRewriteRule ^ - [F]\n",
        sets: &[("text", "^/t$"), ("query", "^(ab|AB|Ab|b)$")],
        branches: "c1+ r2+ 403, text /t, query AB Ab ab\nc1- r2- on, text /t, query b\n",
    },
    Row {
        how: How::Server,
        rules: "RewriteCond %{QUERY_STRING} !=ab\nRewriteRule ^ - [F]\n",
        sets: &[("text", "^/t$"), ("query", "^(ab|b)$")],
        branches: "c1+ r2+ 403, text /t, query b\nc1- r2- on, text /t, query ab\n",
    },
    Row {
        how: How::Server,
        rules: "RewriteCond %{QUERY_STRING} -f\nRewriteRule ^ - [F]\n",
        sets: &[("text", "^/t$"), ("query", "^(f|/f|/\\./f)$")],
        branches: "c1+ r2+ 403, text /t, query /f\nc1- r2- on, text /t, query f /./f\n",
    },
    Row {
        how: How::Server,
        rules: "RewriteCond %{REQUEST_URI} !-f\nRewriteRule ^ - [F]\n",
        sets: &[("text", "^/t$"), ("path", "^/[fx]$")],
        branches: "c1+ r2+ 403, path /x, text /t\nc1- r2- on, path /f, text /t\n",
    },
    Row {
        how: How::Server,
        rules: "RewriteCond %{REQUEST_URI} !-d\nRewriteRule ^ - [F]\n",
        sets: &[("text", "^/t$"), ("path", "^/[df]$")],
        branches: "c1+ r2+ 403, path /f, text /t\nc1- r2- on, path /d, text /t\n",
    },
    Row {
        how: How::Server,
        rules: "RewriteCond /f -f\nRewriteRule ^ - [F]\n",
        sets: &[("text", "^/t$")],
        branches: "c1+ r2+ 403, text /t\n",
    },
    Row {
        how: How::Server,
        rules: "RewriteCond /f -d\nRewriteRule ^ - [F]\n",
        sets: &[("text", "^/t$")],
        branches: "c1- r2- on, text /t\n",
    },
    Row {
        how: How::Server,
        rules: "RewriteCond /%{QUERY_STRING} -f\nRewriteRule ^ - [F]\n",
        sets: &[("text", "^/t$"), ("query", "^[fx]$")],
        branches: "c1+ r2+ 403, text /t, query f\nc1- r2- on, text /t, query x\n",
    },
    Row {
        how: How::Server,
        rules: "RewriteCond %{QUERY_STRING} =\"\"\nRewriteRule ^ - [F]\n",
        sets: &[("text", "^/t$"), ("query", "^a?$")],
        branches: "c1+ r2+ 403, text /t, query \nc1- r2- on, text /t, query a\n",
    },
    Row {
        how: How::Server,
        rules: "RewriteCond %{QUERY_STRING} !=AB [NC]\nRewriteRule ^ - [F]\n",
        sets: &[("text", "^/t$"), ("query", "^(ab|b)$")],
        branches: "c1+ r2+ 403, text /t, query b\nc1- r2- on, text /t, query ab\n",
    },
];

#[test]
fn tests_of_names_have_their_branches(rt: HostRuntime) -> Result<(), WorldFault> {
    check_rows(&rt, rt.alloc(), ROWS)
}
