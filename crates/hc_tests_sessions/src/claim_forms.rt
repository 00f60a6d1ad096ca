//! What a `decide` may look like, and which of its refusals comes first.

use crate::dialogue::{hold, hold_each};
use hc_base::NoMemory;

// Claims and scopes of the wrong form.
static FORMS: &str = r##"main DocumentRoot /srv\n
{"do":"decide","claim":{"kind":"stops"}} -> bad scope
{"do":"decide","scope":{}} -> bad claim
{"do":"decide","claim":1,"scope":1} -> bad claim
{"do":"decide","claim":{"kind":"stops"},"scope":[]} -> bad scope
{"do":"decide","claim":{"kind":"stops"},"scope":{},"a":1} -> bad a
{"do":"decide","claim":{},"scope":{}} -> bad claim
{"do":"decide","claim":{"kind":"stop"},"scope":{}} -> bad claim
{"do":"decide","claim":{"kind":"stops","line":1},"scope":{}} -> bad claim
{"do":"decide","claim":{"kind":"shadowed","line":1},"scope":{}} -> bad claim
{"do":"decide","claim":{"file":"/a","kind":"shadowed"},"scope":{}} -> bad claim
{"do":"decide","claim":{"file":"/a","kind":"shadowed","line":-1},"scope":{}} -> bad claim
{"do":"decide","claim":{"file":"/a","kind":"shadowed","line":4294967296},"scope":{}} -> bad claim
{"do":"decide","claim":{"file":"/a","kind":"shadowed","line":1,"target":{"any":true}},"scope":{}} -> bad claim
{"do":"decide","claim":{"file":"/a","kind":"guarded","line":1},"scope":{}} -> bad claim
{"do":"decide","claim":{"kind":"stops"},"scope":{"paths":1}} -> bad scope
{"do":"decide","claim":{"kind":"stops"},"scope":{"scheme":"ftp"}} -> bad scope
{"do":"decide","claim":{"kind":"stops"},"scope":{"server":"a"}} -> bad scope
{"do":"decide","claim":{"kind":"stops"},"scope":{"port":65536}} -> bad scope
{"do":"decide","claim":{"kind":"stops"},"scope":{"host":"a b"}} -> bad scope
{"do":"decide","claim":{"kind":"stops"},"scope":{"client":"10.0.0.0/33"}} -> bad scope
{"do":"decide","claim":{"kind":"stops"},"scope":{"methods":[]}} -> bad scope
{"do":"decide","claim":{"kind":"stops"},"scope":{"methods":"GET"}} -> bad scope
{"do":"decide","claim":{"kind":"stops"},"scope":{"methods":["GET","get"]}} -> bad scope
{"do":"decide","claim":{"kind":"stops"},"scope":{"methods":[1]}} -> bad scope
{"do":"decide","claim":{"kind":"stops"},"scope":{}} -> proved
{"do":"decide","claim":{"kind":"stops"},"scope":{"scheme":"https","server":"2001:db8::1","port":0,"host":"",
  "client":"10.1","methods":["GET","POST"],"path":{"any":true},"query":{"any":true}}} -> proved
stats 0 0
"##;

#[test]
fn each_field_has_its_form(rt: HostRuntime) -> Result<(), NoMemory> {
    hold(&rt, rt.alloc(), FORMS)
}

// What is no set, and what is one.
static SETS: &str = r##"main DocumentRoot /srv\n
{"do":"decide","claim":{"kind":"stops"},"scope":{"path":{"x":1}}}
{"refused":{"at":0,"code":44,"field":"scope","file":"","line":0,"name":"SetSyntax"}}
{"do":"decide","claim":{"kind":"stops"},"scope":{"query":1}}
{"refused":{"at":0,"code":44,"field":"scope","file":"","line":0,"name":"SetSyntax"}}
{"do":"decide","claim":{"kind":"stops"},"scope":{"path":{}}}
{"refused":{"at":0,"code":44,"field":"scope","file":"","line":0,"name":"SetSyntax"}}
{"do":"decide","claim":{"kind":"stops"},"scope":{"path":{"any":true,"literal":"/"}}}
{"refused":{"at":0,"code":44,"field":"scope","file":"","line":0,"name":"SetSyntax"}}
{"do":"decide","claim":{"kind":"stops"},"scope":{"path":{"any":false}}}
{"refused":{"at":0,"code":44,"field":"scope","file":"","line":0,"name":"SetSyntax"}}
{"do":"decide","claim":{"kind":"stops"},"scope":{"path":{"literal":1}}}
{"refused":{"at":0,"code":44,"field":"scope","file":"","line":0,"name":"SetSyntax"}}
{"do":"decide","claim":{"kind":"stops"},"scope":{"path":{"and":[]}}}
{"refused":{"at":0,"code":44,"field":"scope","file":"","line":0,"name":"SetSyntax"}}
{"do":"decide","claim":{"kind":"stops"},"scope":{"path":{"or":[{"any":true},1]}}}
{"refused":{"at":0,"code":44,"field":"scope","file":"","line":0,"name":"SetSyntax"}}
{"do":"decide","claim":{"kind":"stops"},"scope":{"path":{"minus":[{"any":true}]}}}
{"refused":{"at":0,"code":44,"field":"scope","file":"","line":0,"name":"SetSyntax"}}
{"do":"decide","claim":{"kind":"stops"},"scope":{"path":{"minus":[{"any":true},{"any":true},{"any":true}]}}}
{"refused":{"at":0,"code":44,"field":"scope","file":"","line":0,"name":"SetSyntax"}}
{"do":"decide","claim":{"file":"/a","kind":"guarded","line":1,"target":{"x":1}},"scope":{"path":{"x":1}}}
{"refused":{"at":0,"code":44,"field":"claim","file":"","line":0,"name":"SetSyntax"}}
{"do":"decide","claim":{"kind":"stops"},"scope":{"path":<<32 {"or":[>>{"any":true}<<32 ]}>>}}
{"refused":{"at":0,"code":44,"field":"scope","file":"","line":0,"name":"SetSyntax"}}
{"do":"decide","claim":{"kind":"stops"},"scope":{"path":<<31 {"or":[>>{"any":true}<<31 ]}>>}} -> proved
{"do":"decide","claim":{"kind":"stops"},"scope":{"path":{"minus":[{"or":[{"literal":"/a"},{"pattern":"b$"}]},
  {"and":[{"any":true},{"literal":"/"}]}]}}} -> proved
"##;

#[test]
fn a_set_has_one_of_six_forms(rt: HostRuntime) -> Result<(), NoMemory> {
    hold(&rt, rt.alloc(), SETS)
}

// Sets come before the configuration, this before patterns, and these before the line that is claimed about.
static ORDER: &[&str] = &[
    r##"{"do":"decide","claim":{"file":"/a","kind":"guarded","line":1,"target":{"pattern":"a"}},
  "scope":{"query":{"x":1}}}
{"refused":{"at":0,"code":44,"field":"scope","file":"","line":0,"name":"SetSyntax"}}
decide shadowed /a:1 path=(a -> refused 8 IncludeMissing MAIN
main DocumentRoot /srv\nRewriteEngine On\nRewriteRule a\n
decide shadowed /a:1 path=(a -> refused 3 WrongArguments MAIN:3
"##,
    r##"main DocumentRoot /srv\n
decide shadowed /a:1 path=a(b
{"refused":{"at":1,"code":14,"field":"scope","file":"","line":0,"name":"PatternSyntax"}}
decide shadowed /a:1 query=(?=a) path=(b
{"refused":{"at":0,"code":14,"field":"scope","file":"","line":0,"name":"PatternSyntax"}}
decide shadowed /a:1 query=(?=a)
{"refused":{"at":0,"code":13,"field":"scope","file":"","line":0,"name":"PatternUnsupported"}}
decide guarded (a*)* /a:1 path=(b
{"refused":{"at":4,"code":16,"field":"claim","file":"","line":0,"name":"EmptyLoop"}}
decide shadowed /a:1 path=a -> refused 48 NoSuchPlace
"##,
];

#[test]
fn the_first_refusal_counts(rt: HostRuntime) -> Result<(), NoMemory> {
    hold_each(&rt, rt.alloc(), ORDER)
}

// Which lines a claim may speak of.
static PLACES: &[&str] = &[
    r##"main DocumentRoot /srv\nAlias /image /ftp/pub/image\n
decide shadowed MAIN:1 -> refused 48 NoSuchPlace
decide shadowed MAIN:2 -> refused 48 NoSuchPlace
decide shadowed MAIN:0 -> refused 48 NoSuchPlace
decide guarded a MAIN:1 -> refused 48 NoSuchPlace
"##,
    // in the main file, in an included one, in a dropped section, and behind a join
    r##"main ServerRoot /e\nDocumentRoot /srv\nRewriteEngine On\nrewriterule ^/a$ - [F]\nInclude b\n
  <IfDefine x>\nRewriteRule ^/c$ - [F]\n</IfDefine>\nRewriteRule \\\n^/d$ - [F]\n
/e/b RewriteRule ^/b$ - [F]\n
decide shadowed MAIN:4 path=^/z$ -> proved
decide shadowed /e/b:1 path=^/z$ -> proved
decide shadowed MAIN:7 path=^/z$ -> refused 48 NoSuchPlace
decide shadowed MAIN:9 path=^/z$ -> proved
decide shadowed MAIN:10 path=^/z$ -> refused 48 NoSuchPlace
decide guarded a MAIN:4 -> refused 48 NoSuchPlace
"##,
    // in a `.htaccess`, also one that no request reads, and in a section of it that is dropped
    r##"main DocumentRoot /srv\n
/x/.htaccess RewriteRule a b\n<IfModule x>\n  Require all denied\n</IfModule>\n # RewriteRule a b\nRewriteRules a b\n
/x/.ht RewriteRule a b\n
/y/.htaccess RewriteRule a b\n\u0001\n
file /z/.htaccess
decide shadowed /x/.htaccess:1 -> proved
decide shadowed /x/.htaccess:3 -> refused 48 NoSuchPlace
decide guarded a /x/.htaccess:3 -> proved
decide shadowed /x/.htaccess:5 -> refused 48 NoSuchPlace
decide shadowed /x/.htaccess:6 -> refused 48 NoSuchPlace
decide shadowed /x/.ht:1 -> refused 48 NoSuchPlace
decide shadowed /y/.htaccess:1 -> refused 48 NoSuchPlace
decide shadowed /z/.htaccess:1 -> refused 48 NoSuchPlace
"##,
];

#[test]
fn the_line_of_a_claim_stands_somewhere(rt: HostRuntime) -> Result<(), NoMemory> {
    hold_each(&rt, rt.alloc(), PLACES)
}
