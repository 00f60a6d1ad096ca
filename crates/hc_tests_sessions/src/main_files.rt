//! Main files that are read, and those that are refused.

use crate::dialogue::{hold, parts};
use hc_base::NoMemory;
use hc_base::codes::name_of_code;
use std::alloc::Global;
use std::process::Abort;

// Main files as they stand in JSON, under which nothing is at `/f`.
static READ: &[&str] = &[
    r"DocumentRoot /srv\n",
    r"DocumentRoot /srv\r\nAlias /i /j\r\n",
    r"\tDOCUMENTROOT\t'/srv'",
    r#"# DocumentRoot /never\n\n  DocumentRoot \"/s r v\"  \n"#,
    r#"DocumentRoot /srv\nListen 80\nServerAdmin \"a b\" c\nLoadModule x y\nServerSignature\n"#,
    r"usecanonicalname OFF\nUserDir Disabled\nAccessFileName .htaccess\nDocumentRoot /\n",
    r#"Alias /x/ /y/../z\nAlias /x \"/\\\"q\"\nDocumentRoot /${D}/x\nDocumentRoot /srv\n"#,
    // variables, conditions and files that need not be there
    r"Define D /srv\n<IfDefine D>\nDocumentRoot ${D}\n</IfDefine>\n
  <IfModule !mod_rewrite.c>\nNonsense\n</IfModule>\n",
    r"DocumentRoot /srv\nIncludeOptional /etc/none/*.conf\nIncludeOptional /etc/none\n",
    r"<IfDefine X>\nDefine Y\n</IfDefine>\n<IfDefine Y>\nNonsense\n</IfDefine>\nDocumentRoot /srv\n",
    r"<IfModule a_module>\nNonsense\n</IfModule>\nLoadModule a_module x.so\n<IfModule a_module>\n
  DocumentRoot /srv\n</IfModule>\n",
    r"Define A /s\nDefine B rv\nDefine C\nDocumentRoot ${A}${B}\nAlias /${C} /${a:${A}\n",
    r"Define N Root\nDocument${N} /srv\n",
    // a first word of digits alone is a status, and another one a path or a pattern
    r"DocumentRoot /srv\nRedirectMatch 302 /x /y\n",
    r"DocumentRoot /srv\nRedirectMatch 599 /x\n",
    r"DocumentRoot /srv\nRedirectMatch 3x /y\n",
    r"DocumentRoot /srv\nRedirectMatch -1 /y\n",
    r"DocumentRoot /srv\nRedirect /302 /y\n",
    // a server's usual file, and what options and sections may say
    r#"ServerRoot \"/etc/httpd\"\nListen 80\nUser apache\n<Directory />\n  AllowOverride none\n</Directory>\n
  DocumentRoot \"/var/www/html\"\n<Directory \"/var/www/html\">\n  Options Indexes FollowSymLinks\n</Directory>\n
  <IfModule dir_module>\n  DirectoryIndex index.html\n</IfModule>\n<Files \".ht*\">\n</Files>\n
  ErrorLog \"logs/error_log\"\n<IfModule alias_module>\n  ScriptAlias /cgi-bin/ \"/var/www/cgi-bin/\"\n</IfModule>\n
  AddDefaultCharset UTF-8\n"#,
    r"DocumentRoot /srv\nOptions None\nOptions all MULTIVIEWS\nOptions +None -None\nOptions -All +multiviews\n
  Options Indexes Includes IncludesNOEXEC FollowSymLinks SymLinksIfOwnerMatch ExecCGI MultiViews All None\n",
    r"DocumentRoot /srv\n<Directory ~ ^/>\nOptions +Indexes\n</Directory>\n<DirectoryMatch />\nOptions All\n
  <Files ~ ^f>\nOptions -ExecCGI\n</Files>\n</DirectoryMatch>\n<Location /f>\nOptions None\n</Location>\n
  <LocationMatch f>\nOptions None\n</LocationMatch>\n<Location ~ f>\n</Location>\n<FilesMatch f>\n</FilesMatch>\n",
    r"DocumentRoot /srv\n<Directory /srv/>\nAllowOverride All\nAllowOverride NONE\nAllowOverride fileinfo\n
  AllowOverride AuthConfig FileInfo Indexes Limit Options FileInfo\n<Files *>\n</Files>\n</Directory>\n",
];

#[test]
fn main_files_are_read(rt: HostRuntime) -> Result<(), NoMemory> {
    let alloc = rt.alloc();
    for text in READ {
        let asked = "check -> hosts 0\nask /f -> not found\n";
        hold(&rt, alloc, &format!(in alloc; "main {text}\n{asked}")?)?;
    }
    Ok(())
}

// Main files as they stand in JSON, and behind ` -> ` the number of the rule that each breaks, the line and, where it
// is not 0, the byte.
static REFUSED: &[&str] = &[
    r" -> 27 0",
    r"# DocumentRoot /srv\n -> 27 0",
    r"DocumentRoot /srv\nNonsense\n -> 1 2",
    r"ServerRoot /srv\n -> 27 0",
    r"ServerRoot srv\n -> 3 1",
    r"Define\n -> 3 1",
    r"<IfDefine a b>\n</IfDefine>\n -> 3 1",
    r"<IfModule 'x>\n</IfModule>\n -> 6 1",
    r#"\"Alias\" /a /b\n -> 1 1"#,
    r"Directory /x\n -> 1 1",
    r"<Listen 80>\n</Listen>\n -> 1 1",
    r"<Directory />\nNonsense\n</Directory>\n -> 1 2",
    r"DocumentRoot srv\n -> 3 1",
    r"DocumentRoot /srv /x\n -> 3 1",
    r"DocumentRoot\n -> 3 1",
    r"\nAlias /a\n -> 3 2",
    r"Alias a /b\n -> 3 1",
    r"Alias /a b\n -> 3 1",
    r"UseCanonicalName On\n -> 3 1",
    r"UserDir disabled x\n -> 3 1",
    r"AccessFileName .other\n -> 3 1",
    r"DocumentRoot /srv\nNonsense\n<Directory />\n -> 4 3",
    r"<Directory /\n -> 4 1",
    r"Nonsense\n</Directory>\n -> 5 2",
    r#"DocumentRoot /srv\nAlias \"/i /x\n -> 6 2"#,
    r"Listen 'x\n -> 6 1",
    r"</Directory>\nListen\u0001\n -> 31 2",
    // variables, conditions and includes
    r"DocumentRoot /srv\nInclude /etc/none\n -> 8 2",
    r"ServerRoot /etc/h\nDocumentRoot /srv\nInclude conf.d/*.conf\n -> 8 3",
    r"Include a\n -> 11 1",
    r#"Define \"\" x\n -> 12 1"#,
    r"Define a:b\n -> 12 1",
    r"\nInclude /a/[b-a]x\n -> 14 2:1",
    r"<IfModule mod_rewrite.c>\nNonsense\n</IfModule>\n -> 1 2",
    r"Define X ${X} ${Y} z\n -> 3 1",
    r"${X} /a\n -> 1 1",
    r#"Include \"/a\n -> 6 1"#,
    r"Nonsense\nInclude /none\n -> 1 1",
    // patterns, and the words of redirects and aliases
    r"DocumentRoot /srv\nAliasMatch ^(a*)* /x\n -> 16 2:5",
    r"DocumentRoot /srv\nAliasMatch ^\\q /x\n -> 13 2:1",
    r"DocumentRoot /srv\nRedirectMatch (a /x\n -> 14 2",
    r"DocumentRoot /srv\nRedirectMatch (a\n -> 3 2",
    r"DocumentRoot /srv\nAliasMatch (a x\n -> 3 2",
    r"DocumentRoot /srv\nAliasMatch a /x&\n -> 3 2",
    r"DocumentRoot /srv\nRedirectMatch a b\\\\c\n -> 3 2",
    r"DocumentRoot /srv\nAlias a /x\n -> 3 2",
    r"DocumentRoot /srv\nScriptAlias /a\n -> 3 2",
    r"DocumentRoot /srv\nRedirect /a\n -> 3 2",
    r"DocumentRoot /srv\nRedirect 299 /a\n -> 3 2",
    r"DocumentRoot /srv\nRedirect 410 /a /b\n -> 3 2",
    r"DocumentRoot /srv\nRedirect 301 /a\n -> 3 2",
    r"DocumentRoot /srv\nRedirect seeother a /b\n -> 3 2",
    r"DocumentRoot /srv\nRedirectTemp 301 /a /b\n -> 3 2",
    r"DocumentRoot /srv\nRedirect\n -> 3 2",
    // a first word of digits alone is a status from 300 to 599
    r"DocumentRoot /srv\nRedirectMatch 299 /x\n -> 3 2",
    r"DocumentRoot /srv\nRedirectMatch 600 /x\n -> 3 2",
    r"DocumentRoot /srv\nRedirectMatch 30 /x\n -> 3 2",
    r"DocumentRoot /srv\nRedirectMatch 0302 /x /y\n -> 3 2",
    r"DocumentRoot /srv\nRedirectMatch 3 /x\n -> 3 2",
    r"DocumentRoot /srv\nRedirect 200 /x /y\n -> 3 2",
    r"DocumentRoot /srv\nRedirect 3020 /x /y\n -> 3 2",
    r"DocumentRoot /srv\nRedirect 000 /x\n -> 3 2",
    r#"DocumentRoot /srv\nRedirect \"600\" /x\n -> 3 2"#,
    r"DocumentRoot /srv\nRedirectMatch 302 /x\n -> 3 2",
];

// What a check and a request answer where a rule is broken.
fn refused(alloc: Global, row: &str) -> Result<String, NoMemory> {
    let (text, rule) = parts(row, " -> ");
    let (code, place) = parts(rule, " ");
    let name = name_of_code(code.parse().unwrap_or(0));
    let reply = format!(in alloc; "refused {code} {name} MAIN:{place}")?;
    format!(in alloc; "main {text}\ncheck -> {reply}\nask /f -> {reply}\n")
}

/// That each of these main files is refused so, at a check and at a request.
pub fn hold_refused(rt: &impl Abort, alloc: Global, rows: &[&str]) -> Result<(), NoMemory> {
    for row in rows {
        hold(rt, alloc, &refused(alloc, row)?)?;
    }
    Ok(())
}

#[test]
fn main_files_are_refused(rt: HostRuntime) -> Result<(), NoMemory> {
    hold_refused(&rt, rt.alloc(), REFUSED)
}
