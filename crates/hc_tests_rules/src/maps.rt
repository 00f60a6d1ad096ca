//! Look-ups in maps.

use crate::rules::{How, Row, check_rows};
use hc_world::WorldFault;

static ROWS: &[Row] = &[
    Row {
        how: How::Server,
        rules: "RewriteMap m txt:/map\nRewriteRule ^ /${m:k}\n",
        sets: &[("text", "^/x$")],
        branches: "r2+ on new text, text /one\n",
    },
    Row {
        how: How::Server,
        rules: "RewriteMap m txt:/map\nRewriteRule ^ /${m:x|f}\n",
        sets: &[("text", "^/x$")],
        branches: "r2+ on new text, text /f\n",
    },
    Row {
        how: How::Server,
        rules: "RewriteMap m txt:/map\nRewriteRule ^/(.)$ /${m:$1|none}\n",
        sets: &[("text", "^/[klz]$")],
        branches: "r2+ on new text, text /one /two /none\n",
    },
    Row {
        how: How::Server,
        rules: "RewriteMap m txt:/map\nRewriteRule ^/(.)$ /${m:$1}\n",
        sets: &[("text", "^/[kz]$")],
        branches: "r2+ on new text, text / /one\n",
    },
    Row {
        how: How::Server,
        rules: "RewriteMap u int:toupper\nRewriteRule ^/(.)$ /${u:$1}\n",
        sets: &[("text", "^/[ab]$")],
        branches: "r2+ on new text, text /A /B\n",
    },
    Row {
        how: How::Server,
        rules: "RewriteMap m txt:/map\nRewriteRule ^/(.)$ /${m:$1}-${m:k}\n",
        sets: &[("text", "^/[kl]$")],
        branches: "r2+ on new text, text /one-one /two-one\n",
    },
    Row {
        how: How::Server,
        rules: "RewriteMap m txt:/map\nRewriteRule ^/(.)$ /${m:$1}${m:$1}\n",
        sets: &[("text", "^/[kl]$")],
        branches: "r2+ on new text, text /oneone /onetwo /twoone /twotwo\n",
    },
    Row {
        how: How::Server,
        rules: "RewriteMap m txt:/map\nRewriteCond ${m:%{QUERY_STRING}|z} ^z$\nRewriteRule ^ - [F]\n",
        sets: &[("text", "^/t$"), ("query", "^[kz]$")],
        branches: "c2+ r3+ 403, text /t, query k z\nc2- r3- on, text /t, query k z\n",
    },
    Row {
        how: How::Server,
        rules: "RewriteMap m txt:/map\nRewriteCond ${m:%{QUERY_STRING}|z} ^z$\nRewriteRule ^ - [F]\n",
        sets: &[("text", "^/t$"), ("query", "^k$")],
        branches: "c2- r3- on, text /t, query k\n",
    },
    Row {
        how: How::Server,
        rules: "RewriteMap m txt:/map\nRewriteRule ^/(.)$ /${m:$1}\n",
        sets: &[("text", "^/k$")],
        branches: "r2+ on new text, text /one\n",
    },
    Row {
        how: How::Server,
        rules: "RewriteMap m txt:/map\nRewriteRule ^ /x${m:e|f}\n",
        sets: &[("text", "^/t$")],
        branches: "r2+ on new text, text /x\n",
    },
    Row {
        how: How::Server,
        rules: "RewriteMap m txt:/none\nRewriteRule ^/(.)$ /${m:$1|f}\n",
        sets: &[("text", "^/[kl]$")],
        branches: "r2+ on new text, text /f\n",
    },
    Row {
        how: How::Server,
        rules: "RewriteRule ^ /${z:k|f}\n",
        sets: &[("text", "^/t$")],
        branches: "r1+ on new text, text /f\n",
    },
    Row {
        how: How::Server,
        rules: "RewriteMap m txt:/map\nRewriteRule ^/(.)$ /${m:%{QUERY_STRING}|$1}\n",
        sets: &[("text", "^/[xy]$"), ("query", "^[kz]$")],
        branches: "r2+ on new text, text /x /y /one, query k z\n",
    },
    Row {
        how: How::Server,
        rules: "RewriteMap u int:tolower\nRewriteRule ^/(.)$ - [E=A:${u:$1}]\n",
        sets: &[("text", "^/[AB]$")],
        branches: "r2+ on, text /A /B, A a b\n",
    },
];

#[test]
fn look_ups_have_their_branches(rt: HostRuntime) -> Result<(), WorldFault> {
    check_rows(&rt, rt.alloc(), ROWS)
}
