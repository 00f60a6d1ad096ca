//! What a folder's own file changes, as dialogues: `.htaccess`.

use crate::dialogue::hold_each;
use hc_base::NoMemory;

// Which files are read, and where they stand among the sections.
static READ: &[&str] = &[
    // the deeper file's redirect comes first; where nothing is allowed no file is read
    r##"main DocumentRoot /home/a\n<Directory \"/\">\nAllowOverride None\n</Directory>\n<Directory \"/home\">\n
  AllowOverride FileInfo\n</Directory>\n
/.htaccess Redirect /x http://r.example/x\n
/home/.htaccess Redirect 301 /p http://one.example/p\n
/home/a/.htaccess Redirect 302 /p http://two.example/p\n
ask /p/q -> 302 http://two.example/p/q
ask /x -> not found
/home/a/.htaccess # nothing\r\n\r\n
ask /p/q -> 301 http://one.example/p/q
"##,
    // between the sections of its directory and those of the next one
    r##"main DocumentRoot /srv\n<Directory /srv/a/b>\nRequire all granted\n</Directory>\n<Directory /srv/a>\n
  AllowOverride AuthConfig\nRequire all granted\n</Directory>\n
/srv/a/.htaccess Require all denied\r\n
file /srv/a/f /srv/a/b/f /srv/f
ask /a/f -> 403
ask /a/b/f -> /srv/a/b/f
ask /f -> /srv/f
/srv/a/b/.htaccess AuthMerging And\nRequire ip 10\n
ask /a/b/f client=10.0.0.1 -> /srv/a/b/f
ask /a/b/f client=11.0.0.1 -> 403
"##,
    // by what is in force at its directory: sections with wildcards and those of the host count
    r##"main DocumentRoot /srv\n<VirtualHost *:80>\nServerName one\n<Directory \"/srv/w*\">\n
  AllowOverride AuthConfig\n</Directory>\n</VirtualHost>\n<VirtualHost *:80>\nServerName two\n</VirtualHost>\n
/srv/www/.htaccess Require all denied\n
/srv/v/.htaccess No such line\n
file /srv/www/f /srv/v/f
ask /www/f host=one -> 403
ask /www/f host=two -> /srv/www/f
ask /v/f host=one -> /srv/v/f
"##,
    // its own sections stand in their groups, and a name that is no file counts as none
    r##"main DocumentRoot /srv\n<Directory />\nAllowOverride All\n</Directory>\n<Files g>\nRequire all denied\n
  </Files>\n
/srv/.htaccess <Files f>\nRequire all denied\n</Files>\n<Files g>\nRequire all granted\n</Files>\n
  <If \"%{QUERY_STRING} == 'in'\">\nRequire all granted\n</If>\n<Else>\nOptions -Indexes\n</Else>\n
dir /srv/d/.htaccess
file /srv/f /srv/g /srv/d/f /srv/d/h
ask /f -> 403
ask /f?in -> /srv/f
ask /g -> /srv/g
ask /d/f -> 403
ask /d/h -> /srv/d/h
"##,
    // what the configuration defines and loads counts, and one in `/` is read
    r##"main DocumentRoot /srv\nDefine NET 10\nLoadModule own_module own.so\n<Directory />\nAllowOverride AuthConfig\n
  </Directory>\n
/.htaccess Require ip ${NET}\n<IfModule own_module>\n<IfDefine !NET>\nNo such line\n</IfDefine>\n</IfModule>\n
file /srv/f
ask /f client=10.0.0.1 -> /srv/f
ask /f client=11.0.0.1 -> 403
"##,
];

// The first that is refused ends the request.
static REFUSED: &[&str] = &[
    r##"main DocumentRoot /srv\n<Directory /srv>\nAllowOverride FileInfo\n</Directory>\n
/srv/.htaccess Require all denied\n
ask /f -> ht_refused 29 OverrideNotAllowed /srv/.htaccess:1
/srv/.htaccess AddType a/b .c\n<RequireAll>\nRequire all denied\n</RequireAll>\n
ask /f -> ht_refused 29 OverrideNotAllowed /srv/.htaccess:2
/srv/.htaccess <Files f>\nRequire ip x\n</Files>\n
ask /f -> ht_refused 26 BadAddress /srv/.htaccess:2
/srv/.htaccess <Files f>\nOptions None\n</Files>\n
ask /f -> ht_refused 29 OverrideNotAllowed /srv/.htaccess:2
/srv/.htaccess <Directory /srv>\n</Directory>\n
ask /f -> ht_refused 2 WrongContext /srv/.htaccess:1
/srv/.htaccess <Files f>\nDefine X\n</Files>\n
ask /f -> ht_refused 2 WrongContext /srv/.htaccess:2
/srv/.htaccess Include \"x\n
ask /f -> ht_refused 2 WrongContext /srv/.htaccess:1
/srv/.htaccess Redirect /a http://b/\n<If \"true &&\">\n</If>\n
ask /f -> ht_refused 32 BadExpression /srv/.htaccess:2
/srv/.htaccess Nonsense\n<Files f>\n
ask /f -> ht_refused 4 UnclosedSection /srv/.htaccess:2
"##,
    // one without a text, and the first of two
    r##"main DocumentRoot /srv\n<Directory /srv>\nAllowOverride All\n</Directory>\n
file /srv/.htaccess
ask /d/f -> ht_refused 35 ContentMissing /srv/.htaccess:0
/srv/.htaccess Require all denied\n
/srv/d/.htaccess Nonsense\n
ask /d/f -> ht_refused 1 UnsupportedDirective /srv/d/.htaccess:1
/srv/.htaccess \nNo such line\n
ask /d/f -> ht_refused 1 UnsupportedDirective /srv/.htaccess:2
ask / -> ht_refused 1 UnsupportedDirective /srv/.htaccess:2
"##,
];

#[test]
fn files_of_directories_are_read(rt: HostRuntime) -> Result<(), NoMemory> {
    hold_each(&rt, rt.alloc(), READ)
}

#[test]
fn the_first_file_that_is_refused_ends_a_request(rt: HostRuntime) -> Result<(), NoMemory> {
    hold_each(&rt, rt.alloc(), REFUSED)
}
