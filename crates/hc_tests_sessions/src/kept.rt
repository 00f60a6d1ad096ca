//! Answers that are kept, by how many asks were evaluated.

use crate::dialogue::{hold, hold_each};
use hc_base::NoMemory;
use std::alloc::Global;

static KEPT: &[&str] = &[
    // a `.htaccess` on the way of a request counts from when it is there, and one elsewhere doesn't
    r##"main DocumentRoot /srv\n<Directory /srv>\nAllowOverride All\n</Directory>\n
file /srv/a/f /srv/b/f
ask /a/f -> /srv/a/f
stats 1 1
/srv/b/.htaccess Require all denied\n
ask /a/f -> /srv/a/f
stats 2 1
/srv/a/.htaccess Require all denied\n
ask /a/f -> 403
stats 3 2
ask /a/f -> 403
stats 4 2
{"do":"edit","from":5,"path":"/srv/a/.htaccess","text":"","to":5} -> refused 43 BadRange
ask /a/f -> 403
stats 5 2
{"do":"edit","from":1,"path":"/srv/a/.htaccess","text":"Require all denied\n","to":1} -> done edit
ask /a/f -> 403
stats 6 2
{"do":"edit","from":1,"path":"/srv/a/.htaccess","text":"Require all granted\n","to":1} -> done edit
ask /a/f -> /srv/a/f
stats 7 3
ask /b/f -> 403
{"do":"drop","path":"/srv/b"} -> done drop
ask /b/f -> not found
ask /a/f -> /srv/a/f
stats 10 5
"##,
    // the main file and what it includes, a directory of includes, and a request that differs in a field
    r##"main ServerRoot /etc\nDocumentRoot /srv\nIncludeOptional v/*/x.conf\n
/etc/v/a/x.conf
dir /etc/v/b
file /srv/y
ask /z -> not found
ask /z trail=false method=GET port=80 -> not found
stats 2 1
ask /z method=HEAD -> not found
ask /z headers={"a":"b"} -> not found
stats 4 3
/etc/v/b/x.conf Alias /z /srv/y\n
ask /z -> /srv/y
stats 5 4
/etc/v/c x\n
ask /z -> /srv/y
stats 6 5
{"do":"edit","from":4,"path":"MAIN","text":"# a comment\n","to":3} -> done edit
ask /z -> /srv/y
stats 7 6
/other x
ask /z -> /srv/y
ask /z trail=true
{"events":5,"outcome":{"file":{"info":"","path":"/srv/y"}},"reads":[["text","MAIN"],["names","/etc/v"],
  ["text","/etc/v/a/x.conf"],["text","/etc/v/b/x.conf"],["text","/etc/v/c/x.conf"],["kind","/srv"],["kind","/srv/y"]],
  "trail":[["host","",0],["pass",0,"/z",""],["map","/etc/v/b/x.conf",1,"/srv/y","Alias /z /srv/y"],
  ["walk","/srv/y","","file"],["auth","none"]]}
stats 9 6
"##,
    // what is refused counts for nothing, and is read again once the files are other ones
    r##"main DocumentRoot /srv\nNonsense\n
ask /a -> refused 1 UnsupportedDirective MAIN:2
check -> refused 1 UnsupportedDirective MAIN:2
stats 0 0
{"do":"edit","from":2,"path":"MAIN","text":"","to":2} -> done edit
ask /a -> not found
{"do":"edit","from":2,"path":"MAIN","text":"Nonsense\n","to":1} -> done edit
ask /a -> refused 1 UnsupportedDirective MAIN:2
stats 1 1
"##,
    // a `.htaccess` that is refused, and one that is a directory
    r##"main DocumentRoot /srv\n<Directory /srv>\nAllowOverride All\n</Directory>\n
file /srv/f
/srv/.htaccess Nonsense\n
ask /f -> ht_refused 1 UnsupportedDirective /srv/.htaccess:1
ask /g -> ht_refused 1 UnsupportedDirective /srv/.htaccess:1
ask /f -> ht_refused 1 UnsupportedDirective /srv/.htaccess:1
stats 3 2
{"do":"drop","path":"/srv/.htaccess"} -> done drop
dir /srv/.htaccess
ask /f -> /srv/f
ask /f -> /srv/f
stats 5 3
"##,
];

#[test]
fn answers_are_kept(rt: HostRuntime) -> Result<(), NoMemory> {
    hold_each(&rt, rt.alloc(), KEPT)
}

// So many asks of different targets, and the first again.
fn many_asks(alloc: Global, count: u32) -> Result<String, NoMemory> {
    let mut dialogue = String::from_str(alloc, "main DocumentRoot /srv\\n\n")?;
    for i in 0..count {
        dialogue.push_str(&format!(in alloc; "ask /{i} -> not found\n")?)?;
    }
    dialogue.push_str("ask /0 -> not found\n")?;
    Ok(dialogue)
}

#[test]
fn the_oldest_answer_leaves(rt: HostRuntime) -> Result<(), NoMemory> {
    // how many asks, and the stats after one more of the first
    static ROWS: &[(u32, &str)] = &[(100, "101 100"), (4096, "4097 4096"), (4097, "4098 4098")];
    for &(count, stats) in ROWS {
        let asked = many_asks(rt.alloc(), count)?;
        hold(
            &rt,
            rt.alloc(),
            &format!(in rt.alloc(); "{asked}stats {stats}\n")?,
        )?;
    }
    Ok(())
}
