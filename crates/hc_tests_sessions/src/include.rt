//! Configurations of several files, as dialogues: includes, and where each is refused.

use crate::dialogue::{hold, hold_each};
use hc_base::NoMemory;
use std::alloc::Global;

static DIALOGUES: &[&str] = &[
    // files that make a configuration
    r##"main ServerRoot /etc\nInclude h//none\n<IfDefine !X>\nDocumentRoot /srv\n</IfDefine>\n
/etc/h/none
check -> hosts 0
"##,
    r##"main ServerRoot /etc\nInclude h/*/r.conf\n
/etc/h/a/q.conf Nonsense
/etc/h/b/r.conf DocumentRoot \"/srv\"
check -> hosts 0
"##,
    r##"main Include /a\nInclude /a\n
/a DocumentRoot /srv\n
check -> hosts 0
"##,
    // files that are refused, and where
    r##"/x
check -> refused 8 IncludeMissing MAIN:0
"##,
    r##"main Include /a\n
/a #\nInclude /b\n
/b Include /a\n
check -> refused 9 IncludeCycle /b:1
"##,
    r##"main Include /h/./none\n
/h/none
check -> refused 8 IncludeMissing MAIN:1
"##,
    r##"main Include /a\n
/a/b
check -> refused 35 ContentMissing MAIN:1
"##,
    r##"main Include /a/*\n
/a/b DocumentRoot /srv\n
/a/c Alias /x /y\nNonsense\n
check -> refused 1 UnsupportedDirective /a/c:2
"##,
    r##"main Include /a\nNonsense\n
/a Alias /x /y\n<IfDefine X>\n
check -> refused 4 UnclosedSection /a:2
"##,
    r##"main Include /a\n
/a Alias /x /y\n
check -> refused 27 NoDocumentRoot MAIN:0
"##,
    // a configuration is read anew behind each edit
    r##"main ServerRoot /etc/h\nDocumentRoot /srv\nInclude conf.d/*.conf\n
/srv/y
file /srv/${X}
check -> refused 8 IncludeMissing MAIN:3
main ServerRoot /etc/h\nDocumentRoot /srv\nIncludeOptional conf.d/*.conf\n
check -> hosts 0
ask /z -> not found
/etc/h/conf.d/a.conf Alias /z /srv/y\nAlias /u /srv/${X}\n
ask /z -> /srv/y
ask /u -> /srv/${X}
/etc/h/conf.d/a.conf Include /etc/h/conf.d/a.conf\n
check -> refused 9 IncludeCycle /etc/h/conf.d/a.conf:1
ask /z -> refused 9 IncludeCycle /etc/h/conf.d/a.conf:1
file /etc/h/conf.d/a.conf
check -> refused 35 ContentMissing MAIN:3
{"do":"list","path":"/etc/h/conf.d/a.conf","kind":"dir"} -> refused 42 UnderFile
{"do":"list","path":"/etc/h","kind":"file"} -> refused 47 IsDirectory
{"do":"list","path":"/etc/h/","kind":"dir"} -> refused 41 PathForm
dir /etc/h
"##,
    // sections within each other
    r##"main <<64 <IfDefine !X>\n>>DocumentRoot /srv\n<<64 </IfDefine>\n>>
check -> hosts 0
"##,
    r##"main <<65 <IfDefine !X>\n>>DocumentRoot /srv\n<<65 </IfDefine>\n>>
check -> refused 30 NestedTooDeep MAIN:65
"##,
];

#[test]
fn files_make_a_configuration(rt: HostRuntime) -> Result<(), NoMemory> {
    hold_each(&rt, rt.alloc(), DIALOGUES)
}

// A chain of so many included files behind the main file, and what a check answers.
fn chain(alloc: Global, count: usize, reply: &str) -> Result<String, NoMemory> {
    let mut text = String::from_str(alloc, "main DocumentRoot /srv\\nInclude /f0\n")?;
    let last = count.saturating_sub(1);
    for file in 0..last {
        let next = file + 1;
        text.push_str(&format!(in alloc; "/f{file} Include /f{next}\n")?)?;
    }
    text.push_str(&format!(in alloc; "/f{last} IncludeOptional /f{count}\ncheck -> {reply}\n")?)?;
    Ok(text)
}

#[test]
fn files_stand_within_each_other(rt: HostRuntime) -> Result<(), NoMemory> {
    static ROWS: &[(usize, &str)] = &[(32, "hosts 0"), (33, "refused 10 IncludeTooDeep /f31:1")];
    for &(count, reply) in ROWS {
        hold(&rt, rt.alloc(), &chain(rt.alloc(), count, reply)?)?;
    }
    Ok(())
}
