//! Edits of a session's files, the main file that is named, and the end.

use crate::dialogue::hold_each;
use hc_base::NoMemory;

static EDITS: &[&str] = &[
    // each rule of a path and of lines, the first that is broken
    r##"check -> refused 8 IncludeMissing MAIN:0
{"do":"drop","path":"/x"} -> refused 40 NoSuchPath
{"do":"drop","path":"/"} -> refused 41 PathForm
{"do":"drop","path":"a"} -> refused 41 PathForm
{"do":"put","path":"a","text":""} -> refused 41 PathForm
/f a\n
{"do":"put","path":"/f/g","text":""} -> refused 42 UnderFile
{"do":"edit","from":3,"path":"/f","text":"","to":3} -> refused 43 BadRange
{"do":"edit","from":0,"path":"/f","text":"","to":0} -> refused 43 BadRange
{"do":"edit","from":2,"path":"/f","text":"","to":0} -> refused 43 BadRange
{"do":"edit","from":1,"path":"/f/","text":"","to":0} -> refused 41 PathForm
{"do":"edit","from":1,"path":"/g","text":"","to":0} -> refused 40 NoSuchPath
{"do":"edit","from":1,"path":"/","text":"","to":0} -> refused 40 NoSuchPath
file /e
{"do":"edit","from":1,"path":"/e","text":"","to":0} -> refused 40 NoSuchPath
{"do":"put","path":"/","text":""} -> refused 47 IsDirectory
{"do":"main","path":"m"} -> refused 41 PathForm
{"do":"main","path":"/m/../n"} -> refused 41 PathForm
{"do":"main","path":"/"} -> done main
check -> refused 35 ContentMissing /:0
{"do":"ask" -> refused 45 BadJson
{"do":"ask"} -> bad target
"##,
    // lines that are replaced, put before others and behind the last, and taken away
    r##"main DocumentRoot /srv\nAlias /a /srv/x\nAlias /b /srv/x\n
file /srv/x
{"do":"edit","from":2,"path":"MAIN","text":"Alias /c /srv/x\n","to":2} -> done edit
ask /a -> not found
ask /b -> /srv/x
ask /c -> /srv/x
{"do":"edit","from":4,"path":"MAIN","text":"Alias /d /srv/x","to":3} -> done edit
ask /d -> /srv/x
{"do":"edit","from":5,"path":"MAIN","text":"/y\nAlias /e /srv/x\n","to":4} -> done edit
ask /d -> /srv/x /y
ask /e -> /srv/x
{"do":"edit","from":5,"path":"MAIN","text":"Alias /f /srv/x","to":5} -> done edit
ask /e -> not found
ask /f -> /srv/x
{"do":"edit","from":1,"path":"MAIN","text":"","to":5} -> done edit
check -> refused 27 NoDocumentRoot MAIN:0
{"do":"edit","from":1,"path":"MAIN","text":"DocumentRoot /srv","to":0} -> done edit
{"do":"edit","from":1,"path":"MAIN","text":"# é\\\n","to":0} -> done edit
check -> refused 27 NoDocumentRoot MAIN:0
"##,
    // what lies below leaves with its directory, and names that begin alike stay
    r##"main DocumentRoot /srv\n
file /srv/a/b/c /srv/a/d /srv/a.b/e /srv/a!/f
{"do":"drop","path":"/srv/a"} -> done drop
ask /a/b/c -> not found
ask /a/d -> not found
ask /a -> not found
ask /a.b/e -> /srv/a.b/e
ask /a!/f -> /srv/a!/f
{"do":"drop","path":"/srv/a"} -> refused 40 NoSuchPath
/srv/a x
ask /a/b/c -> /srv/a /b/c
"##,
    // another main file; nothing is answered behind an end
    r##"main DocumentRoot /srv\n
file /srv/f
ask /f -> /srv/f
{"do":"drop","path":"/srv"} -> done drop
ask /f -> not found
stats 2 2
{"do":"main","path":"/m"} -> done main
ask /f -> refused 8 IncludeMissing /m:0
/m DocumentRoot /w\n
file /w/f
ask /f -> /w/f
stats 3 3
{"do":"main","path":"/m"} -> done main
ask /f -> /w/f
stats 4 3
{"do":"main","path":"MAIN"} -> done main
{"do":"main","path":"/m"} -> done main
ask /f -> /w/f
stats 5 4
{"do":"end"} -> done end
{"do":"stats"}
check
"##,
    // an end that is no end
    r##"{"do":"end","x":1} -> bad x
stats 0 0
{"do":"end"} -> done end
"##,
];

#[test]
fn edits_leave_these_files(rt: HostRuntime) -> Result<(), NoMemory> {
    hold_each(&rt, rt.alloc(), EDITS)
}
