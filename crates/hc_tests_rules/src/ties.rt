//! Slots that hold one value.

use crate::rules::{How, Row, caller_of, check_rows, found};
use hc_rw_sets::TextTests;
use hc_world::WorldFault;

static ROWS: &[Row] = &[
    Row {
        how: How::Tied,
        rules: "RewriteRule ^/(x|y)$ /$1-$1\n",
        sets: &[("path", "^/[xy]$"), ("text", "^/[xy]$")],
        branches: "r1+ on new text, path /x /y, text /x-x /x-y /y-x /y-y\n",
    },
    Row {
        how: How::Tied,
        rules: "RewriteRule ^/a - [F]\n",
        sets: &[("path", "^/[ab]$"), ("text", "^/[ab]$")],
        branches: "r1+ 403, path /a, text /a, tied\nr1- on, path /b, text /b, tied\n",
    },
    Row {
        how: How::Tied,
        rules: "RewriteCond %{REQUEST_URI} ^/a$\nRewriteRule ^ /n\n",
        sets: &[("path", "^/[ab]$"), ("text", "^/[ab]$")],
        branches: "c1+ r2+ on new text, path /a, text /n\nc1- r2- on, path /b, text /b, tied\n",
    },
    Row {
        how: How::Tied,
        rules: "RewriteRule ^/(.*)$ %{REQUEST_FILENAME}x\n",
        sets: &[("path", "^/[ab]$"), ("text", "^/[ab]$")],
        branches: "r1+ on new text, path /a /b, text /ax /bx\n",
    },
    Row {
        how: How::Chained,
        rules: "RewriteRule ^/a$ - [F]\n",
        sets: &[
            ("path", "^/[ab]$"),
            ("text", "^/[ab]$"),
            ("origin", "^/[ab]$"),
            ("name", "^/[ab]$"),
        ],
        branches: "r1+ 403, path /a, text /a, origin /a, name /a, tied\n\
            r1- on, path /b, text /b, origin /b, name /b, tied\n",
    },
    Row {
        how: How::Chained,
        rules: "RewriteRule ^/a$ /n\n",
        sets: &[
            ("path", "^/a$"),
            ("text", "^/a$"),
            ("origin", "^/a$"),
            ("name", "^/a$"),
        ],
        branches: "r1+ on new text, path /a, text /n, origin /a, name /a\n",
    },
    Row {
        how: How::Chained,
        rules: "RewriteCond %{REQUEST_URI} ^/a$\nRewriteRule ^ - [G]\n",
        sets: &[
            ("path", "^/[ab]$"),
            ("text", "^/[abc]$"),
            ("origin", "^/[ab]$"),
            ("name", "^/[ab]$"),
        ],
        branches: "c1+ r2+ 410, path /a, text /a, origin /a, name /a, tied\n\
            c1- r2- on, path /b, text /b /c, origin /b, name /b, tied\n",
    },
];

#[test]
fn tied_slots_are_narrowed_together(rt: HostRuntime) -> Result<(), WorldFault> {
    check_rows(&rt, rt.alloc(), ROWS)
}

/// The sets `/x`, `/y` and of what is made of them have four states and six.
#[test]
fn branches_need_room(rt: HostRuntime) -> Result<(), WorldFault> {
    let alloc = rt.alloc();
    let tests = TextTests::new(alloc, caller_of(alloc)?)?;
    let row = &ROWS[0];
    for (room, is_enough) in [(10, true), (9, false)] {
        let branches = found(&rt, alloc, row, &tests, room);
        assert!(rt; branches.is_ok() == is_enough, "{room}");
    }
    Ok(())
}
