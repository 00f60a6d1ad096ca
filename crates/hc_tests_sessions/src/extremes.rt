//! What a hostile script may hold: long lists and deep ones, and the rows of limits. Each is a dialogue of which a
//! piece stands many times.

use crate::dialogue::{hold, hold_each};
use hc_base::NoMemory;
use std::alloc::Global;

// Sections, rules and conditions, one behind another.
static LONG: &[&str] = &[
    r##"main DocumentRoot /srv\n<<100000 <Location />\nAuthMerging Or\nRequire local\n</Location>\n>>
ask /f -> 403
"##,
    r##"main DocumentRoot /srv\n<<20000 <Location />\nAuthMerging Or\nRequire all denied\n</Location>\n
  <Location />\nAuthMerging And\nRequire local\n</Location>\n>>
  <Location />\nAuthMerging Or\nRequire all granted\n</Location>\n
ask /f -> not found
"##,
    r##"main DocumentRoot /srv\n<If false>\n</If>\n<<50000 <ElseIf false>\nRequire all granted\n</ElseIf>\n>>
  <Else>\nRequire all denied\n</Else>\n
ask /f -> 403
"##,
    r##"main DocumentRoot /srv\nRewriteEngine On\n<<100000 RewriteRule ^/x$ /y [C]\n>>
ask /f -> not found
"##,
    r##"main DocumentRoot /srv\nRewriteEngine On\n<<100000 RewriteCond %{HTTPS} =on [OR]\n>>
  RewriteCond %{HTTPS} =off\nRewriteRule ^ - [F]\n
ask /f -> 403
"##,
    r##"main DocumentRoot /srv\n
  <<50000 <Directory /srv>\nRewriteEngine On\nRewriteOptions Inherit\nRewriteRule ^x$ y\n</Directory>\n>>
  <Directory /srv>\nRewriteOptions InheritBefore\nRewriteRule ^f$ - [F]\n</Directory>\n
file /srv/g
ask /f -> 403
"##,
];

#[test]
fn long_lists_are_read(rt: HostRuntime) -> Result<(), NoMemory> {
    hold_each(&rt, rt.alloc(), LONG)
}

// Expressions and templates of many parts, and parts within parts.
static DEEP: &[&str] = &[
    r##"main DocumentRoot /srv\n
  <If \"<<5000 %{REMOTE_ADDR} -ipmatch '10.0.0.0/8' || >>true\">\nRequire all denied\n</If>\n
ask /f -> 403
"##,
    r##"main DocumentRoot /srv\n<If \"<<200001 !>>false\">\nRequire all denied\n</If>\n
ask /f -> 403
"##,
    r##"main DocumentRoot /srv\n<If \"<<200000 (>>true<<200000 )>>\">\nRequire all denied\n</If>\n
ask /f -> 403
"##,
    r##"main DocumentRoot /srv\n<If \"<<20000 !(false||!(false||>>true<<20000 ))>>\">\nRequire all denied\n</If>\n
ask /f -> 403
"##,
    r##"main DocumentRoot /srv\n<If \"<<50000 (>>false<<50000 ||false)>>\">\nRequire all denied\n</If>\n
ask /f -> not found
"##,
    r##"main DocumentRoot /srv\nRewriteEngine On\nRewriteRule ^/f$ /<<100000 %{HTTPS}>>\n
ask /f -> outside long text
"##,
];

#[test]
fn deep_expressions_are_read(rt: HostRuntime) -> Result<(), NoMemory> {
    hold_each(&rt, rt.alloc(), DEEP)
}

// Limits that a script meets, the first from both sides.
static LIMITS: &[&str] = &[
    r##"main DocumentRoot /srv\nAliasMatch <<32 (a)>> /x\n
check -> hosts 0
"##,
    r##"main DocumentRoot /srv\nAliasMatch <<33 (a)>> /x\n
check -> refused 15 PatternTooLarge MAIN:2
"##,
    r##"main DocumentRoot /srv\nAliasMatch (a{255}){255} /x\n
check -> refused 15 PatternTooLarge MAIN:2
"##,
    // a text that doubles with each round is too long soon, and one that stays empty meets the bound of rounds
    r##"main DocumentRoot /srv\nRewriteEngine On\nRewriteRule ^/(.*)$ /$1$1 [N]\n
ask /a -> outside long text
ask / -> limit rounds
"##,
    r##"main DocumentRoot /srv\nRewriteEngine On\nRewriteRule ^ - [E=X:a%{ENV:X}%{ENV:X},N]\n
ask /a -> outside long text
"##,
];

#[test]
fn what_grows_meets_its_limit(rt: HostRuntime) -> Result<(), NoMemory> {
    hold_each(&rt, rt.alloc(), LIMITS)
}

// A request that takes 9,999 rounds, 2,000 times.
static ROUNDS: &str = r##"main DocumentRoot /srv\nRewriteEngine On\n
  RewriteRule ^(/y*)x(.*)$ $1y$2 [N]\nRewriteRule ^(.*)y$ $1 [N]\n
file /srv/f
"##;

fn asked_often(alloc: Global, length: usize, times: usize) -> Result<String, NoMemory> {
    let turn = format!(in alloc; "ask /<<{length} x>> -> directory /srv/\n")?;
    let turns = turn.repeat(alloc, times)?;
    format!(in alloc; "{ROUNDS}{turns}stats {times} 1\n")
}

#[test]
fn a_long_run_is_evaluated_once(rt: HostRuntime) -> Result<(), NoMemory> {
    hold(&rt, rt.alloc(), &asked_often(rt.alloc(), 4_999, 2_000)?)
}
