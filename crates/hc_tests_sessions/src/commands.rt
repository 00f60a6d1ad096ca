//! Commands as they are read, and what stands behind a refusal.

use crate::dialogue::{hold, hold_each};
use crate::session::{check, session_over};
use hc_base::NoMemory;
use hc_generate::Status;

// Lines that are no command, or may not be done, and the field that is wrong; lines that are no JSON, and arrays
// within each other: so deep is no JSON, and one less is a value that is no command.
static WRONG: &[&str] = &[
    r#"[] -> bad do"#,
    r#"7 -> bad do"#,
    r#"{} -> bad do"#,
    r#"{"do":7} -> bad do"#,
    r#"{"do":"decide"} -> bad claim"#,
    r#"{"do":"verify","x":1} -> bad x"#,
    r#"{"do":"verify"} -> bad claim"#,
    r#"{"do":"unfollow"} -> bad do"#,
    r#"{"do":"stats","x":1} -> bad x"#,
    r#"{"do":"end","path":"/a"} -> bad path"#,
    r#"{"do":"drop"} -> bad path"#,
    r#"{"do":"drop","path":7} -> bad path"#,
    r#"{"do":"main","path":"/a","text":""} -> bad text"#,
    r#"{"do":"edit","from":1,"to":1,"text":""} -> bad path"#,
    r#"{"do":"edit","path":"/a","to":1,"text":""} -> bad from"#,
    r#"{"do":"edit","path":"/a","from":1,"text":""} -> bad to"#,
    r#"{"do":"edit","path":"/a","from":1,"to":1} -> bad text"#,
    r#"{"do":"edit","path":"/a","from":-1,"to":1,"text":""} -> bad from"#,
    r#"{"do":"edit","path":"/a","from":1.0,"to":1,"text":""} -> bad from"#,
    r#"{"do":"edit","path":"/a","from":"1","to":1,"text":""} -> bad from"#,
    r#"{"do":"edit","path":"/a","from":4294967296,"to":1,"text":""} -> bad from"#,
    r#"{"do":"edit","path":"/a","from":1,"to":1e1,"text":""} -> bad to"#,
    r#"{"do":"ask"} -> bad target"#,
    r#"{"do":"ask","target":7} -> bad target"#,
    r#"{"do":"ask","target":"/","z":1,"b":2} -> bad b"#,
    r#"{"do":"put","text":"","path":"/a","target":""} -> bad target"#,
    r#"{"do":"put"} -> bad path"#,
    r#"{"do":"put","path":"/a"} -> bad text"#,
    r#"{"do":"list","path":"/a"} -> bad kind"#,
    r#"{"do":"list","path":"/a","kind":"link"} -> bad kind"#,
    r#"{"do":"list","path":"/a","kind":"dir","text":""} -> bad text"#,
    r#"{"do":"check","path":"/a"} -> bad path"#,
    r#"{"do":"ask","target":"a"} -> bad target"#,
    r#"{"do":"ask","target":"/a b"} -> bad target"#,
    r#"{"do":"ask","target":"/a#b"} -> bad target"#,
    " -> refused 45 BadJson",
    "x -> refused 45 BadJson",
    r#"{"do":"ask" -> refused 45 BadJson"#,
    "<<128 [>><<128 ]>> -> refused 45 BadJson",
    "<<127 [>><<127 ]>> -> bad do",
];

#[test]
fn wrong_lines_name_their_field(rt: HostRuntime) -> Result<(), NoMemory> {
    hold_each(&rt, rt.alloc(), WRONG)
}

#[test]
fn bytes_that_are_no_text_are_refused(rt: HostRuntime) -> Result<(), NoMemory> {
    let input = b"{\"do\":\"ask\",\"target\":\"/\xff\"}\n";
    let wanted = br#"{"refused":{"at":0,"code":45,"field":"","file":"","line":0,"name":"BadJson"}}
"#;
    let end = session_over(rt.alloc(), input, &[], &[], 4096)?;
    check(&rt, &end, Status::Done, wanted, "no text");
    Ok(())
}

static GOES_ON: &str = r##"ask /a -> refused 8 IncludeMissing MAIN:0
main # a comment\n\nNonsense 80\nListen 80\n
ask /a -> refused 1 UnsupportedDirective MAIN:3
main documentroot /srv\nALIAS /i/ /srv/\n
/srv/f one
{"do":"put","path":"/srv/f/g","text":""} -> refused 42 UnderFile
{"do":"put","path":"/srv","text":""} -> refused 47 IsDirectory
{"do":"put","path":"/srv/f","text":"two","\u00e9\\":0} -> bad \\xc3\\xa9\\\\
ask /f/more -> /srv/f /more
ask /i/f -> /srv/f
ask /i -> not found
ask / -> directory /srv/
"##;

#[test]
fn a_session_goes_on_after_a_refusal(rt: HostRuntime) -> Result<(), NoMemory> {
    hold(&rt, rt.alloc(), GOES_ON)
}

static FIELDS: &str = r##"main DocumentRoot /srv\nRedirect /o /n\n
ask /o -> 302 http://localhost/n
ask /o port=80 -> 302 http://localhost/n
ask /o port=443 -> 302 http://localhost:443/n
ask /o port=0 -> 302 http://localhost:0/n
ask /o port=65535 -> 302 http://localhost:65535/n
ask /o scheme=https -> 302 https://localhost/n
ask /o scheme=https port=443 -> 302 https://localhost/n
ask /o scheme=https port=80 -> 302 https://localhost:80/n
{"do":"ask","scheme":"http","port":-1,"port":443,"target":"/o"} -> 302 http://localhost:443/n
ask /o host=A.b-1 -> 302 http://A.b-1/n
ask /o host= -> 302 http://192.0.2.1/n
ask /o host= server=198.51.100.7 -> 302 http://198.51.100.7/n
ask /o host= server=2001:DB8::1 client=:: -> 302 http://2001:db8:0:0:0:0:0:1/n
ask /o method=ABCDEFGHIJKLMNOPQRSTUVWXYZABCDEF client=198.51.100.8 headers={} -> 302 http://localhost/n
{"do":"ask","target":"/o","headers":{"Accept":"","Hos":" ~","Host-":"a","X":"1","X_":"1",
  "abcdefghijklmnopqrstuvwxyz_ABCDEFGHIJKLMNOPQRSTUVWXYZ-0123456789":""}}
   -> 302 http://localhost/n
ask /o host=<<3 abcdefghijklmnopqrstuvwxyz.ABCDEFGHIJKLMNOPQRSTUVWXYZ-0123456789>>
  abcdefghijklmnopqrstuvwxyz.ABCDEFGHIJKLMNOPQRSTUVWXYZ-012345678
   -> 302 http://<<3 abcdefghijklmnopqrstuvwxyz.ABCDEFGHIJKLMNOPQRSTUVWXYZ-0123456789>>
  abcdefghijklmnopqrstuvwxyz.ABCDEFGHIJKLMNOPQRSTUVWXYZ-012345678/n
"##;

static WRONG_FIELDS: &str = r##"{"do":"ask","target":"/","trails":false} -> bad trails
{"do":"ask","z":0,"target":"","a":0} -> bad a
{"do":"ask","headers":[],"client":"","host":"_","port":"","server":"","scheme":"","method":"","target":""} -> bad target
{"do":"ask","method":""} -> bad target
ask / headers=[] client= host=_ port="" server= scheme= method= -> bad method
ask / headers=[] client= host=_ port="" server= scheme= -> bad scheme
ask / headers=[] client= host=_ port="" server= -> bad server
ask / headers=[] client= host=_ port="" -> bad port
ask / headers=[] client= host=_ -> bad host
ask / headers=[] client= -> bad client
ask / trail=0 headers=[] -> bad headers
ask / trail=0 -> bad trail
ask / trail="true" -> bad trail
ask / trail=null -> bad trail
ask / method=get -> bad method
ask / method=A1 -> bad method
{"do":"ask","target":"/","method":7} -> bad method
{"do":"ask","target":"/","method":null} -> bad method
ask / method=ABCDEFGHIJKLMNOPQRSTUVWXYZABCDEFG -> bad method
ask / scheme=HTTP -> bad scheme
ask / scheme=ftp -> bad scheme
{"do":"ask","target":"/","scheme":null} -> bad scheme
ask / server=192.0.2 -> bad server
ask / server=192.0.2.256 -> bad server
ask / server=1::2::3 -> bad server
{"do":"ask","target":"/","server":3} -> bad server
ask / port=80.0 -> bad port
ask / port=8e1 -> bad port
ask / port=-1 -> bad port
ask / port=-0 -> bad port
ask / port=65536 -> bad port
ask / port=18446744073709551616 -> bad port
ask / port="80" -> bad port
ask / port=null -> bad port
ask / host=a_b -> bad host
{"do":"ask","target":"/","host":"a b"} -> bad host
{"do":"ask","target":"/","host":"\u00e9"} -> bad host
{"do":"ask","target":"/","host":null} -> bad host
ask / host=<<3 abcdefghijklmnopqrstuvwxyz.ABCDEFGHIJKLMNOPQRSTUVWXYZ-0123456789>>
  abcdefghijklmnopqrstuvwxyz.ABCDEFGHIJKLMNOPQRSTUVWXYZ-0123456789 -> bad host
ask / client=localhost -> bad client
{"do":"ask","target":"/","client":"1.2.3.4 "} -> bad client
{"do":"ask","target":"/","client":[]} -> bad client
ask / headers="" -> bad headers
ask / headers={"":""} -> bad headers
{"do":"ask","target":"/","headers":{"a b":""}} -> bad headers
ask / headers={"a":1} -> bad headers
ask / headers={"a":"\t"} -> bad headers
ask / headers={"a":"\u00e9"} -> bad headers
ask / headers={"Host":"a"} -> bad headers
ask / headers={"hOST":""} -> bad headers
ask / headers={"Ab":"","aB":""} -> bad headers
ask / headers={"A-b":"1","B":"","a-B":"1"} -> bad headers
ask / headers={"abcdefghijklmnopqrstuvwxyz_ABCDEFGHIJKLMNOPQRSTUVWXYZ-01234567899":""} -> bad headers
"##;

#[test]
fn an_ask_takes_its_fields_where_they_are_of_their_form(rt: HostRuntime) -> Result<(), NoMemory> {
    hold_each(&rt, rt.alloc(), &[FIELDS, WRONG_FIELDS])
}
