//! Who may pass, as dialogues: Require lines, their containers and AuthMerging.

use crate::dialogue::hold_each;
use crate::main_files::hold_refused;
use hc_base::NoMemory;

// What the containers say, and how trees are merged.
static ADMITTED: &[&str] = &[
    r##"main DocumentRoot /srv\n<Directory /srv>\n<RequireAll>\nRequire all granted\n
  Require not ip 10.1\n</RequireAll>\n</Directory>\n
file /srv/f
ask /f client=10.1.2.3 -> 403
ask /f client=10.2.0.1 -> /srv/f
main DocumentRoot /srv\n<Directory /srv>\n<RequireAll>\nRequire ip 10\n<RequireNone>\nRequire ip 10.1\n
  </RequireNone>\n</RequireAll>\n</Directory>\n
ask /f client=10.2.0.1 -> /srv/f
ask /f client=10.1.0.1 -> 403
ask /f client=192.0.2.9 -> 403
main DocumentRoot /srv\n<Directory /srv>\n<RequireAny>\n<RequireNone>\nRequire ip 10.1\n
  </RequireNone>\n</RequireAny>\n</Directory>\n
check -> refused 21 NegatedInAny MAIN:4
"##,
    // AuthMerging speaks of its own section alone
    r##"main DocumentRoot /www/docs\n<Directory /www/docs>\nRequire ip 10.0.0.0/8\n</Directory>\n
  <Directory /www/docs/ab>\nAuthMerging Or\nRequire ip 192.0.2.0/24\n</Directory>\n
  <Directory /www/docs/ab/c>\nRequire method GET\n</Directory>\n
file /www/docs/ab/f /www/docs/ab/c/f
ask /ab/f client=192.0.2.9 -> /www/docs/ab/f
ask /ab/f client=10.1.1.1 -> /www/docs/ab/f
ask /ab/f client=203.0.113.5 -> 403
ask /ab/c/f client=10.1.1.1 method=POST -> 403
ask /ab/c/f client=203.0.113.5 -> /www/docs/ab/c/f
ask /ab/c/f client=203.0.113.5 method=HEAD -> /www/docs/ab/c/f
"##,
    // locations, with and without a final slash
    r##"main DocumentRoot /srv\n<Location /private1>\nRequire all denied\n</Location>\n
  <Location /private2/>\nRequire all denied\n</Location>\n
ask /private1 -> 403
ask /private1/ -> 403
ask /private1/file.txt -> 403
ask /private1other -> not found
ask /private2 -> not found
ask /private2/ -> 403
ask /private2/file.txt -> 403
ask /private2other -> not found
"##,
    // And, where there is something before it and where there is nothing; a neutral tree
    r##"main DocumentRoot /srv\n<Directory /srv/a>\nAuthMerging And\nRequire method GET HEAD\n</Directory>\n
  <Directory /srv/a/b>\nauthmerging and\nRequire ip 10 192.0.2.0/255.255.255.0\n</Directory>\n
  <Directory /srv/n>\n<RequireAny>\n<RequireAll>\n<RequireNone>\nRequire ip 10\n</RequireNone>\n
  Require local\n</RequireAll>\n</RequireAny>\n</Directory>\n
file /srv/a/f /srv/a/b/f /srv/n/f
ask /a/f client=192.0.2.9 method=HEAD -> /srv/a/f
ask /a/f client=192.0.2.9 method=PUT -> 403
ask /a/b/f client=192.0.2.9 -> /srv/a/b/f
ask /a/b/f client=192.0.3.9 -> 403
ask /a/b/f client=192.0.2.9 method=PUT -> 403
ask /n/f client=::1 -> /srv/n/f
ask /n/f client=127.9.9.9 -> /srv/n/f
ask /n/f client=128.0.0.1 -> 403
ask /n/f client=198.51.100.7 server=198.51.100.7 -> /srv/n/f
ask /n/f client=10.0.0.1 server=10.0.0.1 -> 403
ask /n/f client=::2 -> 403
"##,
    // a section inside a container, and settings in one, are those of the section around it
    r##"main DocumentRoot /srv\n<Directory /srv>\n<RequireAny>\nRequire all denied\nRedirect /r /s\n<Files f>\n
  Require all granted\n</Files>\nRequire ip 10\n</RequireAny>\n</Directory>\n
file /srv/f /srv/g
ask /f client=192.0.2.9 -> /srv/f
ask /g client=192.0.2.9 -> 403
ask /g client=10.0.0.1 -> /srv/g
ask /r client=10.0.0.1 -> 302 http://localhost/s
ask /r client=192.0.2.9 -> 403
"##,
    // a server's usual main file
    r##"main ServerRoot \"/etc/httpd\"\nListen 80\nInclude conf.modules.d/*.conf\nUser apache\n
  ServerAdmin root@localhost\n<Directory />\nAllowOverride none\nRequire all denied\n</Directory>\n
  DocumentRoot \"/var/www/html\"\n<Directory \"/var/www\">\nRequire all granted\n</Directory>\n
  <Directory \"/var/www/html\">\nOptions Indexes FollowSymLinks\n</Directory>\n<IfModule dir_module>\n
  DirectoryIndex index.html\n</IfModule>\n<Files \".ht*\">\nRequire all denied\n</Files>\n
  ErrorLog \"logs/error_log\"\nLogFormat \"%h %l %u %t \\\"%r\\\" %>s %b\" common\n<IfModule alias_module>\n
  ScriptAlias /cgi-bin/ \"/var/www/cgi-bin/\"\n</IfModule>\nAddDefaultCharset UTF-8\n
  IncludeOptional conf.d/*.conf\n
/etc/httpd/conf.modules.d/00.conf LoadModule rewrite_module modules/mod_rewrite.so\n
file /var/www/html/index.html /var/www/cgi-bin/x
check -> hosts 0
ask /index.html -> /var/www/html/index.html
ask / -> directory /var/www/html/
ask /.htaccess -> 403
ask /cgi-bin/x -> /var/www/cgi-bin/x
ask /cgi-bin -> not found
"##,
];

// Main files as they stand in JSON, and the rule that each breaks.
static REFUSED: &[&str] = &[
    // the words of a line, and its kind
    r"<Directory /a>\nRequire\n</Directory>\n -> 3 2",
    r"<Directory /a>\nRequire not\n</Directory>\n -> 3 2",
    r"<Directory /a>\nRequire all\n</Directory>\n -> 3 2",
    r"<Directory /a>\nRequire all some\n</Directory>\n -> 3 2",
    r"<Directory /a>\nRequire all granted denied\n</Directory>\n -> 3 2",
    r"<Directory /a>\nRequire ip\n</Directory>\n -> 3 2",
    r"<Directory /a>\nRequire method\n</Directory>\n -> 3 2",
    r"<Directory /a>\nRequire local x\n</Directory>\n -> 3 2",
    r"<Directory /a>\nRequire ip 10 x\n</Directory>\n -> 26 2",
    r"<Directory /a>\nRequire valid-user\n</Directory>\n -> 1 2",
    r"<Directory /a>\nRequire not user a\n</Directory>\n -> 1 2",
    // where it may not stand
    r"Require all granted\n -> 2 1",
    r"Require group a\n -> 1 1",
    r#"Require \"all\n -> 2 1"#,
    r#"<Directory /a>\nRequire \"all\n</Directory>\n -> 6 2"#,
    r"<RequireAll>\n</RequireAll>\n -> 2 1",
    r"<VirtualHost *:80>\nAuthMerging And\n</VirtualHost>\n -> 2 2",
    // what may be negated
    r"<Directory /a>\nRequire not ip x\n</Directory>\n -> 21 2",
    r"<Directory /a>\n<RequireNone>\nRequire ip 10\n</RequireNone>\n</Directory>\n -> 21 2",
    r"<Directory /a>\n<RequireAny>\nRequire not ip 10\n</RequireAny>\n</Directory>\n -> 21 3",
    r"<Files a>\n<RequireAll>\n<RequireNone>\nRequire not ip 10\n</RequireNone>\n</RequireAll>\n</Files>\n -> 22 4",
    r"<Files a>\n<RequireAll>\n<RequireNone>\n<RequireNone>\n</RequireNone>\n</RequireNone>\n</RequireAll>\n
  </Files>\n -> 22 4",
    r"<RequireAll>\n<Files a>\nRequire not local\n</Files>\n</RequireAll>\n -> 2 1",
    r"<Directory /a>\n<RequireAll>\n<Files a>\nRequire not local\n</Files>\n</RequireAll>\n</Directory>\n -> 21 4",
    // containers, at their openings
    r"<Location /a>\n<RequireAny>\n<RequireAll>\nRequire not ip 10\n</RequireAll>\n</RequireAny>\n
  </Location>\n -> 23 3",
    r"<Location /a>\n<RequireAll>\n<RequireNone>\nRequire ip 10\n</RequireNone>\nRequire not local\n</RequireAll>\n
  </Location>\n -> 23 2",
    r"<Location /a>\n<RequireAny>\n<RequireAny>\n</RequireAny>\n</RequireAny>\n</Location>\n -> 24 3",
    r"<Location /a>\n<RequireAny x>\n</RequireAny>\n</Location>\n -> 3 2",
    r"<Location /a>\nAuthMerging\n</Location>\n -> 3 2",
    r"<Location /a>\nAuthMerging Xor\n</Location>\n -> 3 2",
    r"<Location /a>\nAuthMerging And Or\n</Location>\n -> 3 2",
];

#[test]
fn requests_are_let_in_or_refused(rt: HostRuntime) -> Result<(), NoMemory> {
    hold_each(&rt, rt.alloc(), ADMITTED)
}

#[test]
fn what_may_not_be_required_is_refused(rt: HostRuntime) -> Result<(), NoMemory> {
    hold_refused(&rt, rt.alloc(), REFUSED)
}
