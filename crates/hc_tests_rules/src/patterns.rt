//! Patterns, and flags that leave texts as they are.

use crate::rules::{How, Row, check_rows};
use hc_world::WorldFault;

static ROWS: &[Row] = &[
    Row {
        how: How::Server,
        rules: "RewriteRule ^/a - [G]\n",
        sets: &[("text", "^/(aa|ab)$")],
        branches: "r1+ 410, text /aa /ab\n",
    },
    Row {
        how: How::Server,
        rules: "RewriteRule !^/a /n$1\n",
        sets: &[("text", "^/[ab]$")],
        branches: "r1+ on new text, text /n\nr1- on, text /a\n",
    },
    Row {
        how: How::Server,
        rules: "RewriteRule ^/a$ n\n",
        sets: &[("text", "^/a$")],
        branches: "r1+ on new text, text n\n",
    },
    Row {
        how: How::Server,
        rules: "RewriteRule ^/a$ /n [L,PT]\n",
        sets: &[("text", "^/a$")],
        branches: "r1+ on new text, text /n\n",
    },
    Row {
        how: How::Server,
        rules: "RewriteRule ^/A$ - [NC,F]\n",
        sets: &[("text", "^/[aAb]$")],
        branches: "r1+ 403, text /A /a\nr1- on, text /b\n",
    },
    Row {
        how: How::Server,
        rules: "RewriteRule ^/a$ /n [F]\n",
        sets: &[("text", "^/[ab]$")],
        branches: "r1+ 403, text /a\nr1- on, text /b\n",
    },
    Row {
        how: How::Server,
        rules: "RewriteRule ^/a$ /n [G]\n",
        sets: &[("text", "^/a$")],
        branches: "r1+ 410, text /a\n",
    },
    Row {
        how: How::Server,
        rules: "RewriteRule ^/a$ /n [L]\n",
        sets: &[("text", "^/[ab]$")],
        branches: "r1+ on new text, text /n\nr1- on, text /b\n",
    },
    Row {
        how: How::Server,
        rules: "RewriteRule ^/a$ /n [N]\n",
        sets: &[("text", "^/[ab]$")],
        branches: "r1+ on new text, text /n\nr1- on, text /b\n",
    },
    Row {
        how: How::Server,
        rules: "RewriteRule ^/a$ /n [T=text/plain,H=x,NS]\n",
        sets: &[("text", "^/[ab]$")],
        branches: "r1+ on new text, text /n\nr1- on, text /b\n",
    },
    Row {
        how: How::Server,
        rules: "RewriteRule ^/a$ /n [DPI]\n",
        sets: &[("text", "^/a$"), ("info", "^/i$")],
        branches: "r1+ on new text, text /n, info \n",
    },
    Row {
        how: How::Server,
        rules: "RewriteRule ^/(.)(.)?$ /$2$0\n",
        sets: &[("text", "^/x$")],
        branches: "r1+ on new text, text //x\n",
    },
    Row {
        how: How::Server,
        rules: "RewriteRule ^/(x)|(y)$ /$1-$2\n",
        sets: &[("text", "^(/x|y)$")],
        branches: "r1+ on new text, text /- /-y /x- /x-y\n",
    },
    Row {
        how: How::Server,
        rules: "RewriteRule ^/(.*)$ $1\n",
        sets: &[("text", "^/(http://b\\.example/|x)$")],
        branches: "r1+ to 302, text /x /http://b.example/, location http://b.example/\nr1+ on new text, text x\n",
    },
];

#[test]
fn patterns_have_their_branches(rt: HostRuntime) -> Result<(), WorldFault> {
    check_rows(&rt, rt.alloc(), ROWS)
}
