//! Main files with directives of rewriting: those that are read, and where others are refused.

use crate::dialogue::hold;
use crate::main_files::hold_refused;
use hc_base::NoMemory;

// Main files that are read, behind a first line.
static READ: &[&str] = &[
    r"RewriteMap m INT:ToUpper\nRewriteMap m-_1 TXT:/a\nLimitInternalRecursion 01 1000\nRewriteCond a b\n",
    r"RewriteOptions InheritBefore\nRewriteOptions inherit\nREWRITEENGINE off\n
  RewriteRule a b [S=09999,N=1,R=200,E=a]\n",
    r"RewriteRule a http://x/\n<VirtualHost *:80>\nRewriteRule ^ -\n</VirtualHost>\n<Directory /srv>\n</Directory>\n",
    r"RewriteRule a HTTPS://x/ [END]\nRewriteRule a ${m:%{HTTP:x}\\}|$1\\|%2|} [L,R]\nRewriteRule a b\n",
    r"RewriteCond a =b\nRewriteCond a !=\nRewriteCond a !-f\nRewriteCond expression x\nRewriteRule a b%{none$%$x%y\n",
    r"<Directory /a>\nRewriteBase /a\nRewriteOptions Inherit\nRewriteCond a b\nRewriteRule a b [R]\n</Directory>\n
  <Directory /b>\nRewriteRule a b\n</Directory>\n",
    // another section ends the look behind a rule
    r"RewriteRule a b [R=404]\n<Directory /x>\n</Directory>\n<IfDefine !x>\nRewriteRule a b\n</IfDefine>\n",
    r"RewriteRule a b [R]\n<If true>\nRequire local\n</If>\nRewriteRule a b\n",
    r"<IfModule !x>\nRewriteRule a b [R]\n</IfModule>\n<Files f>\n</Files>\nRewriteRule a b\n",
];

#[test]
fn rewriting_is_read(rt: HostRuntime) -> Result<(), NoMemory> {
    for text in READ {
        let hosts = u32::from(text.contains("VirtualHost"));
        let main = format!(in rt.alloc(); r"main DocumentRoot /srv\n{text}")?;
        hold(
            &rt,
            rt.alloc(),
            &format!(in rt.alloc(); "{main}\ncheck -> hosts {hosts}\n")?,
        )?;
    }
    Ok(())
}

// Main files as they stand in JSON, and the rule that each breaks.
static REFUSED: &[&str] = &[
    // words and patterns
    r"RewriteRule a\n -> 3 1",
    r"RewriteRule a b c d\n -> 3 1",
    r"RewriteRule (a b\n -> 14 1",
    r"RewriteRule !x(a b [Q]\n -> 14 1:1",
    r"RewriteRule ^(a*)* b [Q]\n -> 16 1:5",
    r#"RewriteRule \"a b\n -> 6 1"#,
    r"RewriteEngine\n -> 3 1",
    r"RewriteEngine yes\n -> 3 1",
    r"RewriteOptions Inherit InheritBefore\n -> 3 1",
    r"RewriteOptions x\n -> 3 1",
    r"LimitInternalRecursion 0\n -> 3 1",
    r"LimitInternalRecursion 1001\n -> 3 1",
    r"LimitInternalRecursion 1 x\n -> 3 1",
    r"LimitInternalRecursion 1 2 3\n -> 3 1",
    r"RewriteMap m\n -> 3 1",
    r"RewriteMap m prg:/bin/x\n -> 36 1",
    r"RewriteMap m txt:a\n -> 36 1",
    r"RewriteMap m! int:tolower\n -> 36 1",
    r#"RewriteMap \"\" int:tolower\n -> 36 1"#,
    // flags
    r"RewriteRule a b L\n -> 17 1",
    r"RewriteRule a b [L\n -> 17 1",
    r"RewriteRule a b []\n -> 17 1",
    r"RewriteRule a b [L,]\n -> 17 1",
    r#"RewriteRule a b \"[L, NC]\"\n -> 17 1"#,
    r"RewriteRule a b [L=1]\n -> 17 1",
    r"RewriteRule a b [NS=x]\n -> 17 1",
    r"RewriteRule a b [S]\n -> 17 1",
    r"RewriteRule a b [S=0]\n -> 17 1",
    r"RewriteRule a b [S=10000]\n -> 17 1",
    r"RewriteRule a b [N=0]\n -> 17 1",
    r"RewriteRule a b [N=32001]\n -> 17 1",
    r"RewriteRule a b [R=199,L]\n -> 17 1",
    r"RewriteRule a b [R=600,L]\n -> 17 1",
    r"RewriteRule a b [R=0302,L]\n -> 17 1",
    r"RewriteRule a b [R=,L]\n -> 17 1",
    r"RewriteRule a b [R=gone,L]\n -> 17 1",
    r"RewriteRule a b [E]\n -> 17 1",
    r"RewriteRule a b [E=]\n -> 17 1",
    r"RewriteRule a b [E=:x]\n -> 17 1",
    r"RewriteRule a b [E=!]\n -> 17 1",
    r"RewriteRule a b [qslast]\n -> 17 1",
    r"RewriteRule a b [P]\n -> 18 1",
    r"RewriteRule a b [proxy,B=x,BNP]\n -> 18 1",
    r"RewriteRule a b [QSL]\n -> 18 1",
    r"RewriteRule a b [UnsafeAllow3F]\n -> 18 1",
    r"RewriteRule a b [unsafeprefixstat]\n -> 18 1",
    r"RewriteRule a b [P,Q]\n -> 17 1",
    r"RewriteRule a b [E=x:%{NONE},P]\n -> 18 1",
    // templates
    r"RewriteRule a %{NONE}\n -> 19 1",
    r"RewriteRule a ${m\n -> 19 1",
    r"RewriteRule a ${m:a|b\n -> 19 1",
    r"RewriteRule a ${m:a${n:b}}\n -> 19 1",
    r"RewriteRule a ${m!:a}\n -> 19 1",
    r"RewriteRule a b [E=x:%{NONE}]\n -> 19 1",
    r"RewriteCond %{HTTP_HOST:} b\n -> 19 1",
    // conditions
    r"RewriteCond a\n -> 3 1",
    r"RewriteCond a b c d\n -> 3 1",
    r"RewriteCond a x(b\n -> 14 1:1",
    r"RewriteCond a !x(b\n -> 14 1:1",
    r"RewriteCond a -s\n -> 20 1",
    r"RewriteCond a !-F\n -> 20 1",
    r"RewriteCond a <b\n -> 20 1",
    r"RewriteCond a >b\n -> 20 1",
    r"RewriteCond expr (\n -> 20 1",
    r"RewriteCond EXPR b [NC]\n -> 20 1",
    r"RewriteCond a -s [L]\n -> 17 1",
    r"RewriteCond a b [NC=1]\n -> 17 1",
    r"RewriteCond %{NONE} -s\n -> 19 1",
    // a rule that redirects and goes on to another one
    r"RewriteRule a b [R]\nRewriteEngine On\nRewriteRule (a\n -> 33 1",
    r"RewriteRule a HTTP://x/\nNonsense\nRewriteRule a b\n -> 33 1",
    r"RewriteRule a b [R=404]\n<IfDefine !x>\n<IfModule !y>\nRewriteRule a b\n</IfModule>\n</IfDefine>\n -> 33 1",
    r"<VirtualHost *:80>\nRewriteRule a b [R]\n</VirtualHost>\nRewriteRule a b\n -> 27 0",
    // where rules may not stand
    r"<Location /a>\nRewriteEngine On\n</Location>\n -> 34 2",
    r"<Files a>\nRewriteRule a b\n</Files>\n -> 34 2",
    r"<Files a>\nRewriteRule (a b\n</Files>\n -> 14 2",
    r"<DirectoryMatch a>\nRewriteMap m int:tolower\n</DirectoryMatch>\n -> 34 2",
    r"<Directory ~ a>\nRewriteBase a\n</Directory>\n -> 3 2",
    r"<Directory /a/*>\nRewriteBase /a\n</Directory>\n -> 34 2",
    r"<Directory /a/*>\nRewriteMap m int:tolower\n</Directory>\n -> 2 2",
    r#"<If \"true\">\nRewriteOptions Inherit\n</If>\n -> 34 2"#,
    r"<Directory /a>\nRewriteRule a b [P]\n</Directory>\n -> 18 2",
    r"<Directory /a>\nRewriteRule a b [R]\n<RequireAny>\nRewriteRule a b\n</RequireAny>\n</Directory>\n -> 33 2",
    r"<IfModule !x>\nRewriteRule a b [R]\n</IfModule>\nRewriteRule a b\n -> 33 2",
    // what is not supported, before the rule in it
    r"RewriteRule a b [R]\n<Limit GET>\nRewriteRule a b\n</Limit>\n -> 1 2",
    r"<Directory /a>\nRewriteRule a b [R]\nRewriteRule a b\n</Directory>\n -> 33 2",
    r"<Directory /a>\n<Files f>\nRewriteRule a b\n</Files>\n</Directory>\n -> 34 3",
    r"<Directory /a>\nRewriteMap m int:tolower\n</Directory>\n -> 2 2",
    r"<Directory /a>\nLimitInternalRecursion 5\n</Directory>\n -> 2 2",
    r"RewriteBase /a\n -> 2 1",
];

#[test]
fn rewriting_is_refused(rt: HostRuntime) -> Result<(), NoMemory> {
    hold_refused(&rt, rt.alloc(), REFUSED)
}
