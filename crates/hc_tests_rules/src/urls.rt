//! URLs and redirects.

use crate::rules::{How, Row, check_rows};
use hc_world::WorldFault;

static ROWS: &[Row] = &[
    Row {
        how: How::Server,
        rules: "RewriteRule ^/a$ /n [R]\n",
        sets: &[("text", "^/a$")],
        branches: "r1+ to 302 own, text /a, location /n\n",
    },
    Row {
        how: How::Server,
        rules: "RewriteRule ^/a$ /n [R=301,NE]\n",
        sets: &[("text", "^/a$")],
        branches: "r1+ to 301 own plain, text /a, location /n\n",
    },
    Row {
        how: How::Server,
        rules: "RewriteRule ^/a$ http://b.example/x\n",
        sets: &[("text", "^/a$")],
        branches: "r1+ to 302, text /a, location http://b.example/x\n",
    },
    Row {
        how: How::Server,
        rules: "RewriteRule ^/a$ http://a.example/x?y\n",
        sets: &[("text", "^/a$"), ("query", "^q$")],
        branches: "r1+ on new text new query, text /x, query y, first q\n",
    },
    Row {
        how: How::Server,
        rules: "RewriteRule ^/a$ http://a.example:80\n",
        sets: &[("text", "^/a$")],
        branches: "r1+ on new text, text /\n",
    },
    Row {
        how: How::Server,
        rules: "RewriteRule ^/a$ http://a.example/x [R]\n",
        sets: &[("text", "^/a$")],
        branches: "r1+ to 302, text /a, location http://a.example/x\n",
    },
    Row {
        how: How::Server,
        rules: "RewriteRule ^/(.*)$ http://$1/x\n",
        sets: &[("text", "^/[ab]\\.example$")],
        branches: "r1+ on new text, text /x\nr1+ to 302, text /a.example /b.example, location http://b.example/x\n",
    },
    Row {
        how: How::Server,
        rules: "RewriteRule ^/a$ - [R=404]\n",
        sets: &[("text", "^/a$")],
        branches: "r1+ 404, text /a\n",
    },
    Row {
        how: How::Server,
        rules: "RewriteRule ^/a$ n [R]\n",
        sets: &[("text", "^/a$")],
        branches: "r1+ outside, text /a\n",
    },
    Row {
        how: How::Server,
        rules: "RewriteRule ^/a$ ftp://x/\n",
        sets: &[("text", "^/a$")],
        branches: "r1+ outside, text /a\n",
    },
    Row {
        how: How::Followed,
        rules: "RewriteRule ^/a$ /n [R]\n",
        sets: &[("text", "^/a$")],
        branches: "r1+ outside, text /a\n",
    },
    Row {
        how: How::Followed,
        rules: "RewriteRule ^/a$ /n [R,L]\n",
        sets: &[("text", "^/a$")],
        branches: "r1+ to 302 own, text /a, location /n\n",
    },
    Row {
        how: How::Server,
        rules: "RewriteRule ^/a$ /n [R=permanent]\n",
        sets: &[("text", "^/a$")],
        branches: "r1+ to 301 own, text /a, location /n\n",
    },
    Row {
        how: How::Server,
        rules: "RewriteRule ^/a$ /n [R=temp]\n",
        sets: &[("text", "^/a$")],
        branches: "r1+ to 302 own, text /a, location /n\n",
    },
];

static MORE_ROWS: &[Row] = &[
    Row {
        how: How::Server,
        rules: "RewriteRule ^/a$ /n [R=seeother]\n",
        sets: &[("text", "^/a$")],
        branches: "r1+ to 303 own, text /a, location /n\n",
    },
    Row {
        how: How::Server,
        rules: "RewriteRule ^/a$ /n [R=200]\n",
        sets: &[("text", "^/[ab]$")],
        branches: "r1+ 200, text /a\nr1- on, text /b\n",
    },
    Row {
        how: How::Followed,
        rules: "RewriteRule ^/a$ /n [S=2]\n",
        sets: &[("text", "^/[ab]$")],
        branches: "r1+ on new text, text /n\nr1- on, text /b\n",
    },
    Row {
        how: How::Followed,
        rules: "RewriteRule ^/a$ /n [C]\n",
        sets: &[("text", "^/[ab]$")],
        branches: "r1+ on new text, text /n\nr1- on, text /b\n",
    },
    Row {
        how: How::Server,
        rules: "RewriteRule ^/a$ https://a.example/x\n",
        sets: &[("text", "^/a$")],
        branches: "r1+ to 302, text /a, location https://a.example/x\n",
    },
    Row {
        how: How::Server,
        rules: "RewriteRule ^/a$ http://a.example:81/x\n",
        sets: &[("text", "^/a$")],
        branches: "r1+ to 302, text /a, location http://a.example:81/x\n",
    },
    Row {
        how: How::Server,
        rules: "RewriteRule ^/a$ http://b.example/x?y [R=303,NE]\n",
        sets: &[("text", "^/a$"), ("query", "^q$")],
        branches: "r1+ to 303 plain new query, text /a, query y, first q, location http://b.example/x\n",
    },
    Row {
        how: How::Server,
        rules: "RewriteRule ^/a$ /n?%{QUERY_STRING} [R]\n",
        sets: &[("text", "^/a$"), ("query", "^[pq]$")],
        branches: "r1+ to 302 own new query, text /a, query p q, first p q, location /n\n",
    },
    Row {
        how: How::Followed,
        rules: "RewriteRule ^/a$ http://b.example/x\n",
        sets: &[("text", "^/a$")],
        branches: "r1+ outside, text /a\n",
    },
    Row {
        how: How::Followed,
        rules: "RewriteRule ^/a$ http://b.example/x [END]\n",
        sets: &[("text", "^/a$")],
        branches: "r1+ to 302, text /a, location http://b.example/x\n",
    },
    Row {
        how: How::Server,
        rules: "RewriteRule ^/(.*)$ $1 [R]\n",
        sets: &[("text", "^/(http://b\\.example/|x)$")],
        branches: "r1+ to 302, text /x /http://b.example/, location http://b.example/\n\
            r1+ outside, text /x /http://b.example/\n",
    },
];

#[test]
fn urls_have_their_branches(rt: HostRuntime) -> Result<(), WorldFault> {
    check_rows(&rt, rt.alloc(), ROWS)?;
    check_rows(&rt, rt.alloc(), MORE_ROWS)
}
