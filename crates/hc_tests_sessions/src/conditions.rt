//! Sections under a condition, as dialogues: If, ElseIf and Else.

use crate::dialogue::hold_each;
use crate::main_files::hold_refused;
use hc_base::NoMemory;

// Where each applies.
static CONDITIONS: &[&str] = &[
    // a search in the query
    r##"main DocumentRoot /srv\n<If \"%{QUERY_STRING} =~ /(^|&)debug=1(&|$)/\">\nRequire all denied\n</If>\n
file /srv/f
ask /f?debug=1 -> 403
ask /f?x=1 -> /srv/f
"##,
    // of a chain one section applies
    r##"main DocumentRoot /srv\n<If \"%{REQUEST_METHOD} == 'PUT'\">\nRequire ip 10.1\n</If>\n
  <ElseIf \"%{QUERY_STRING} == 'a'\">\nRequire ip 10.2\n</ElseIf>\n\n# no entry\n
  <elseif \"%{QUERY_STRING} =~ /^B$/i\">\nRequire ip 10.3\n</ElseIf>\n<Else>\nRequire ip 10.4\n</Else>\n
file /srv/f
ask /f?a client=10.1.0.1 method=PUT -> /srv/f
ask /f?a client=10.2.0.1 method=PUT -> 403
ask /f?a client=10.2.0.1 -> /srv/f
ask /f?a client=10.4.0.1 -> 403
ask /f?b client=10.3.0.1 -> /srv/f
ask /f?b client=10.4.0.1 -> 403
ask /f?c client=10.4.0.1 -> /srv/f
ask /f?c client=10.3.0.1 -> 403
"##,
    // behind locations, and inside a section of a virtual host only where that applies
    r##"main DocumentRoot /srv\n<If \"%{QUERY_STRING} == 'in'\">\nRequire all granted\n</If>\n
  <Location /p>\nRequire all denied\n</Location>\n<VirtualHost *:80>\n<Directory /srv/p>\n
  <If \"%{HTTP_USER_AGENT} =~ /^check/ && %{REMOTE_ADDR} -ipmatch '10.0.0.0/8'\">\nRequire method GET\n</If>\n
  </Directory>\n</VirtualHost>\n
file /srv/p/f /srv/q
ask /p/f -> 403
ask /p/f?in -> /srv/p/f
{"do":"ask","target":"/p/f","client":"10.0.0.9","headers":{"User-Agent":"check 1"}} -> /srv/p/f
{"do":"ask","target":"/p/f","client":"11.0.0.9","headers":{"User-Agent":"check 1"}} -> 403
{"do":"ask","target":"/p/f?in","client":"10.0.0.9","headers":{"User-Agent":"check 1"},"method":"POST"} -> 403
{"do":"ask","target":"/q","client":"10.0.0.9","headers":{"User-Agent":"check 1"},"method":"POST"} -> /srv/q
"##,
    // the first of a chain that holds, whatever holds behind it
    r##"main DocumentRoot /srv\n<Location /a>\n<If true>\nRequire all granted\n</If>\n
  <ElseIf true>\nRequire all denied\n</ElseIf>\n<Else>\nRequire all denied\n</Else>\n</Location>\n
  <Location /b>\n<If false>\nRequire all denied\n</If>\n<ElseIf false>\nRequire all denied\n</ElseIf>\n
  <ElseIf true>\nRequire all granted\n</ElseIf>\n<ElseIf true>\nRequire all denied\n</ElseIf>\n
  <Else>\nRequire all denied\n</Else>\n</Location>\n
file /srv/a /srv/b
ask /a -> /srv/a
ask /b -> /srv/b
"##,
    // chains in a section that may not apply, a chain behind another, and a chain of the main server
    r##"main DocumentRoot /srv\n<Location /p>\n<If \"%{QUERY_STRING} == 'a'\">\nRequire all denied\n</If>\n
  <ElseIf \"%{QUERY_STRING} == 'b'\">\nRequire all granted\n</ElseIf>\n<Else>\nRequire all denied\n</Else>\n
  <If \"%{QUERY_STRING} == 'd'\">\nRequire all granted\n</If>\n</Location>\n
  <If \"%{QUERY_STRING} == 'b'\">\nRequire all granted\n</If>\n
  <ElseIf \"%{QUERY_STRING} == 'e'\">\nRequire all denied\n</ElseIf>\n
file /srv/p/f /srv/q
ask /p/f?a -> 403
ask /p/f?b -> /srv/p/f
ask /p/f?c -> 403
ask /p/f?d -> /srv/p/f
ask /q?a -> /srv/q
ask /q?c -> /srv/q
ask /q?e -> 403
"##,
    // names in a quoted text, a variable of the configuration, `!` before `&&`, and a chain in a container
    r##"main DocumentRoot /srv\nDefine D f\n
  <If \"'%{REQUEST_SCHEME}://%{HTTP_HOST}%{REQUEST_URI}' == 'http://a.test/${D}'\">\nRequire all denied\n</If>\n
  <If \"!%{HTTPS} == 'on' && %{QUERY_STRING} == '${X}' || %{SERVER_PORT} = 8080\">\nRequire all denied\n</If>\n
  <Directory /srv/d>\n<RequireAny>\n<If \"%{REQUEST_FILENAME} == '/srv/d/f'\">\nRequire all denied\n</If>\n
  <Else>\nRequire all granted\n</Else>\nRequire all denied\n</RequireAny>\n</Directory>\n
file /srv/f /srv/d/f /srv/d/g
ask /f host=a.test -> 403
ask /f host=b.test -> /srv/f
ask /f host=a.test port=81 -> /srv/f
ask /f host=b.test port=8080 -> 403
ask /f?${X} -> 403
ask /f?${X} scheme=https -> /srv/f
ask /d/f/info -> 403
ask /d/g -> /srv/d/g
"##,
    // the end of a chain of many sections that do not apply
    r##"main DocumentRoot /srv\n<If false>\n</If>\n<<1000 <ElseIf false>\nRequire all denied\n</ElseIf>\n>>
  <ElseIf true>\nRequire all denied\n</ElseIf>\n<Else>\nRequire all granted\n</Else>\n
file /srv/f
ask /f -> 403
"##,
    r##"main DocumentRoot /srv\n<If false>\n</If>\n<<1000 <ElseIf false>\nRequire all denied\n</ElseIf>\n>>
  <Else>\nRequire all denied\n</Else>\n
file /srv/f
ask /f -> 403
"##,
    r##"main DocumentRoot /srv\n<If false>\n</If>\n<<1001 <ElseIf false>\nRequire all denied\n</ElseIf>\n>>
file /srv/f
ask /f -> /srv/f
"##,
];

// Main files as they stand in JSON, and the rule that each breaks.
static REFUSED: &[&str] = &[
    // one word, and none
    r"<If>\n</If>\n -> 3 1",
    r"<If %{HTTPS} == 'on'>\n</If>\n -> 3 1",
    r"<If true>\n</If>\n<ElseIf>\n</ElseIf>\n -> 3 3",
    r"<If true>\n</If>\n<Else x>\n</Else>\n -> 3 3",
    r#"<If \"true>\n</If>\n -> 6 1"#,
    // right behind a section of the chain
    r"<Else>\n</Else>\n -> 2 1",
    r#"<ElseIf \"x>\n</ElseIf>\n -> 2 1"#,
    r"<If true>\n</If>\nListen 80\n<Else>\n</Else>\n -> 2 4",
    r"<If true>\n</If>\n<Else>\n</Else>\n<ElseIf true>\n</ElseIf>\n -> 2 5",
    r"<If true>\n</If>\n<ElseIf true>\n</ElseIf>\n<IfDefine !X>\n<Else>\n</Else>\n</IfDefine>\n -> 2 6",
    r"<Directory /a>\n<If true>\n</If>\n</Directory>\n<Else>\n</Else>\n -> 2 5",
    r"<If true>\n</If>\n<Directory /a>\n<Else>\n</Else>\n</Directory>\n -> 2 4",
    // what may stand in it
    r"<If true>\n<If true>\n</If>\n</If>\n -> 2 2",
    r"<If true>\n<Files a>\n</Files>\n</If>\n -> 2 2",
    r"<If true>\nAlias /a /b\n</If>\n -> 2 2",
    r"<If true>\nRequire not local\n</If>\n -> 21 2",
    // what is no expression, and what may not stand in one
    r#"<If \"true &&\">\n</If>\n -> 32 1"#,
    r#"<If \"%{UNKNOWN} == 'a'\">\n</If>\n -> 19 1"#,
    r#"<If \"%{HTTP_COOKIE} == 'a'\">\n</If>\n -> 19 1"#,
    r#"<If \"'%{ENV:A}' == 'a'\">\n</If>\n -> 19 1"#,
    r#"<If \"'a' =~ /b(/\">\n</If>\n -> 14 1:1"#,
    r#"<If \"'a' =~ /(b?)*/\">\n</If>\n -> 16 1:4"#,
    r#"<If \"%{REMOTE_ADDR} -ipmatch '10.x'\">\n</If>\n -> 26 1"#,
];

#[test]
fn sections_apply_under_their_conditions(rt: HostRuntime) -> Result<(), NoMemory> {
    hold_each(&rt, rt.alloc(), CONDITIONS)
}

#[test]
fn what_is_no_chain_and_no_expression_is_refused(rt: HostRuntime) -> Result<(), NoMemory> {
    hold_refused(&rt, rt.alloc(), REFUSED)
}
