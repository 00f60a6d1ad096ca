//! Variables and headers.

use crate::rules::{How, Row, check_rows};
use hc_world::WorldFault;

static ROWS: &[Row] = &[
    Row {
        how: How::Server,
        rules: "RewriteRule ^ - [E=A:%{ENV:A}b]\n",
        sets: &[("text", "^/t$"), ("A", "^a?$")],
        branches: "r1+ on, text /t, A b ab\n",
    },
    Row {
        how: How::Server,
        rules: "RewriteRule ^ - [E=!A]\n",
        sets: &[("text", "^/t$"), ("A", "^a?$")],
        branches: "r1+ on, text /t, A \n",
    },
    Row {
        how: How::Server,
        rules: "RewriteRule ^ - [E=A:x,E=B:%{ENV:A}]\n",
        sets: &[("text", "^/t$")],
        branches: "r1+ on, text /t, A x, B x\n",
    },
    Row {
        how: How::Client,
        rules: "RewriteCond %{REMOTE_ADDR} ^0\\.0\\.0\\.2$\nRewriteRule ^ - [F]\n",
        sets: &[("text", "^/t$")],
        branches: "c1+ r2+ 403, text /t\n",
    },
    Row {
        how: How::Server,
        rules: "RewriteCond %{REMOTE_ADDR} ^0\\.0\\.0\\.2$\nRewriteRule ^ - [F]\n",
        sets: &[("text", "^/t$")],
        branches: "c1+ r2+ 403, text /t\nc1- r2- on, text /t\n",
    },
    Row {
        how: How::Server,
        rules: "RewriteCond %{HTTP:Accept} x\nRewriteRule ^ - [F]\n",
        sets: &[("text", "^/t$"), ("accept", "^[xy]$")],
        branches: "c1+ r2+ 403, text /t, accept x\nc1- r2- on, text /t, accept y\n",
    },
    Row {
        how: How::Server,
        rules: "RewriteCond %{HTTP_HOST} ^a\nRewriteRule ^ - [F]\n",
        sets: &[("text", "^/t$")],
        branches: "c1+ r2+ 403, text /t\n",
    },
    Row {
        how: How::Server,
        rules: "DocumentRoot /r\nRewriteRule ^ - [E=A:%{DOCUMENT_ROOT}%{HTTPS}%{SERVER_PORT}]\n",
        sets: &[("text", "^/t$")],
        branches: "r2+ on, text /t, A /roff80\n",
    },
    Row {
        how: How::Server,
        rules: "RewriteRule ^ /%{ENV:A} [E=A:x]\n",
        sets: &[("text", "^/t$")],
        branches: "r1+ on new text, text /x, A x\n",
    },
    Row {
        how: How::Server,
        rules: "RewriteRule ^ - [E=A]\n",
        sets: &[("text", "^/t$"), ("A", "^a$")],
        branches: "r1+ on, text /t, A \n",
    },
    Row {
        how: How::Server,
        rules: "RewriteRule ^/(.)$ - [E=A:$1,E=B:%{ENV:A}%{ENV:A}]\n",
        sets: &[("text", "^/[xy]$")],
        branches: "r1+ on, text /x /y, A x y, B xx xy yx yy\n",
    },
    Row {
        how: How::Server,
        rules: "RewriteCond %{ENV:A} ^x$\nRewriteRule ^ - [F]\n",
        sets: &[("text", "^/t$"), ("A", "^[xy]$")],
        branches: "c1+ r2+ 403, text /t, A x\nc1- r2- on, text /t, A y\n",
    },
    Row {
        how: How::Server,
        rules: "RewriteCond %{HTTP:Host} ^a\nRewriteRule ^ - [F]\n",
        sets: &[("text", "^/t$")],
        branches: "c1+ r2+ 403, text /t\n",
    },
    Row {
        how: How::Server,
        rules: "RewriteCond %{HTTP_ACCEPT} x\nRewriteRule ^ - [F]\n",
        sets: &[("text", "^/t$"), ("accept", "^[xy]$")],
        branches: "c1+ r2+ 403, text /t, accept x\nc1- r2- on, text /t, accept y\n",
    },
];

static MORE_ROWS: &[Row] = &[
    Row {
        how: How::Server,
        rules: "RewriteCond %{SERVER_NAME}:%{SERVER_PORT} =a.example:80\nRewriteRule ^ - [F]\n",
        sets: &[("text", "^/t$")],
        branches: "c1+ r2+ 403, text /t\n",
    },
    Row {
        how: How::Server,
        rules: "RewriteCond %{REQUEST_SCHEME} =https\nRewriteRule ^ - [F]\n",
        sets: &[("text", "^/t$")],
        branches: "c1- r2- on, text /t\n",
    },
    Row {
        how: How::Client,
        rules: "RewriteRule ^ - [E=A:%{REMOTE_ADDR}]\n",
        sets: &[("text", "^/t$")],
        branches: "r1+ on, text /t, A 0.0.0.2\n",
    },
];

#[test]
fn variables_have_their_branches(rt: HostRuntime) -> Result<(), WorldFault> {
    check_rows(&rt, rt.alloc(), ROWS)?;
    check_rows(&rt, rt.alloc(), MORE_ROWS)
}
