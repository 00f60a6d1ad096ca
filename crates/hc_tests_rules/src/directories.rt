//! Rules of directories.

use crate::rules::{How, Row, check_rows};
use hc_world::WorldFault;

static ROWS: &[Row] = &[
    Row {
        how: How::Within,
        rules: "RewriteRule ^x$ y\n",
        sets: &[("text", "^/srv/d/[xz]$"), ("info", "^$")],
        branches: "r2+ on new text, text /srv/d/y, info \nr2- on, text /srv/d/z, info \n",
    },
    Row {
        how: How::Based,
        rules: "RewriteRule ^x$ y\n",
        sets: &[("text", "^/srv/d/x$"), ("info", "^$")],
        branches: "r2+ on new text, text /srv/d/y, info \n",
    },
    Row {
        how: How::Within,
        rules: "RewriteRule ^x/i$ y [DPI]\n",
        sets: &[("text", "^/srv/d/x$"), ("info", "^/[ij]$")],
        branches: "r2+ on new text, text /srv/d/y, info \nr2- on, text /srv/d/x, info /j\n",
    },
    Row {
        how: How::Within,
        rules: "RewriteRule ^x/i$ y\n",
        sets: &[("text", "^/srv/d/x$"), ("info", "^/[ij]$")],
        branches: "r2+ on new text, text /srv/d/y, info /i\nr2- on, text /srv/d/x, info /j\n",
    },
    Row {
        how: How::Within,
        rules: "RewriteRule ^/else$ y\n",
        sets: &[("text", "^/else$"), ("info", "^$")],
        branches: "r2+ on new text, text /srv/d/y, info \n",
    },
    Row {
        how: How::Aliased,
        rules: "RewriteRule ^x$ y\n",
        sets: &[("text", "^/srv/d/x$"), ("info", "^$")],
        branches: "r2+ outside, text /srv/d/x, info \n",
    },
    Row {
        how: How::Within,
        rules: "RewriteRule ^x$ /n [R]\n",
        sets: &[("text", "^/srv/d/x$"), ("info", "^$")],
        branches: "r2+ to 302 own, text /srv/d/x, info , location /n\n",
    },
    Row {
        how: How::Within,
        rules: "RewriteRule ^x$ n [R]\n",
        sets: &[("text", "^/srv/d/x$"), ("info", "^$")],
        branches: "r2+ outside, text /srv/d/x, info \n",
    },
    Row {
        how: How::Based,
        rules: "RewriteRule ^x$ n [R]\n",
        sets: &[("text", "^/srv/d/x$"), ("info", "^$")],
        branches: "r2+ to 302 own, text /srv/d/x, info , location /b/n\n",
    },
    Row {
        how: How::Based,
        rules: "RewriteRule ^x$ %{REQUEST_FILENAME} [R]\n",
        sets: &[("text", "^/srv/d/x$"), ("info", "^$")],
        branches: "r2+ to 302 own, text /srv/d/x, info , location /b/x\n",
    },
    Row {
        how: How::Within,
        rules: "RewriteRule ^x$ - [F]\n",
        sets: &[("text", "^/srv/d/[xy]$"), ("info", "^$")],
        branches: "r2+ 403, text /srv/d/x, info \nr2- on, text /srv/d/y, info \n",
    },
    Row {
        how: How::Within,
        rules: "RewriteRule ^x$ /n\n",
        sets: &[("text", "^/srv/d/x$"), ("info", "^$")],
        branches: "r2+ on new text, text /n, info \n",
    },
    Row {
        how: How::Within,
        rules: "RewriteCond %{PATH_INFO} ^/i$\nRewriteRule ^ - [F]\n",
        sets: &[("text", "^/srv/d/x$"), ("info", "^/[ij]$")],
        branches: "c2+ r3+ 403, text /srv/d/x, info /i\nc2- r3- on, text /srv/d/x, info /j\n",
    },
    Row {
        how: How::Within,
        rules: "RewriteRule ^x(.*)$ y$1\n",
        sets: &[("text", "^/srv/d/x$"), ("info", "^/[ij]$")],
        branches: "r2+ on new text, text /srv/d/y/i /srv/d/y/j, info /i /j\n",
    },
    Row {
        how: How::Based,
        rules: "RewriteRule ^x$ /n [R]\n",
        sets: &[("text", "^/srv/d/x$"), ("info", "^$")],
        branches: "r2+ to 302 own, text /srv/d/x, info , location /n\n",
    },
    Row {
        how: How::Aliased,
        rules: "RewriteRule ^x$ /n\n",
        sets: &[("text", "^/srv/d/x$"), ("info", "^$")],
        branches: "r2+ on new text, text /n, info \n",
    },
];

#[test]
fn rules_of_directories_have_their_branches(rt: HostRuntime) -> Result<(), WorldFault> {
    check_rows(&rt, rt.alloc(), ROWS)
}
