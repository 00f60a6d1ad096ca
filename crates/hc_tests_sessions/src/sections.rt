//! What sections send away, as dialogues: the redirects of directories, in the order in which sections merge.

use crate::dialogue::hold_each;
use hc_base::NoMemory;

// A main file, the files that are there, and where requests are sent.
static SENT: &[&str] = &[
    // the longer directory's come first, in either order
    r##"main DocumentRoot /srv\n
  <Directory \"/srv/a\">\nRedirect /a/x http://two.example/\n</Directory>\n
  <Directory \"/srv\">\nRedirect /a/x http://one.example/\n</Directory>\n
file /srv/a/x
ask /a/x -> 302 http://two.example/
main DocumentRoot /srv\n
  <Directory \"/srv\">\nRedirect /a/x http://one.example/\n</Directory>\n
  <Directory \"/srv/a\">\nRedirect /a/x http://two.example/\n</Directory>\n
ask /a/x -> 302 http://two.example/
"##,
    // of sections of one directory the later; of the redirects of one section the first that takes the path
    r##"main DocumentRoot /srv\n
  <Directory /srv/>\nRedirect /a http://one.example\n</Directory>\n
  <Directory /srv>\nRedirect gone /a/z\nRedirect /a http://two.example\n
  Redirect /a/x http://three.example\n</Directory>\n
file /srv/a/x
ask /a/x/y?q -> 302 http://two.example/x/y?q
ask /a/z -> 410
main DocumentRoot /srv\n
  <Directory /srv>\nRedirect /a http://two.example\n</Directory>\n
  <Directory /srv/>\nRedirect /a http://one.example\n</Directory>\n
ask /a/x -> 302 http://one.example/x
"##,
    // a wildcard is no slash
    r##"main DocumentRoot /srv\n
  <Directory \"/srv/*/x\">\nRedirect /a http://one.example\n</Directory>\n
  <Directory /srv/[ab]/??>\nRedirectMatch ^/a/xy/ http://two.example/\n</Directory>\n
file /srv/a/x/f /srv/a/b/x/f /srv/a/xy/f /srv/a/x/x/f
ask /a/x/f -> 302 http://one.example/x/f
ask /a/b/x/f -> /srv/a/b/x/f
ask /a/xy/f -> 302 http://two.example/
ask /a/x/x/f -> 302 http://one.example/x/x/f
ask /a/y -> not found
"##,
    // the root, one wildcard for it and what is in it, and what no directory is
    r##"main DocumentRoot /srv\n
  <Directory />\nRedirect /a http://root.example\n</Directory>\n
  <Directory \"/*\">\nRedirect /b http://two.example\n</Directory>\n
  <Directory /srv/f>\nRedirect /f http://file.example\n</Directory>\n
  <Directory /sr>\nRedirect /f http://front.example\n</Directory>\n
  <Directory srv>\nRedirect /f http://relative.example\n</Directory>\n
file /srv/f
ask /a -> 302 http://root.example
ask /b/c -> 302 http://two.example/c
ask /f -> /srv/f
ask / -> directory /srv/
"##,
    // the URL path is looked at, and the directory is that of the file name
    r##"main DocumentRoot /srv\nAlias /b /srv/a\nRedirect /a/s http://server.example/\n
  <Directory /srv/a>\nRedirect permanent /b/x /a/x\nRedirect /a/none http://n.example/\n
  Redirect /a/s http://section.example/\nRedirect /c/x http://c.example/\n</Directory>\n
file /srv/a/x /srv/c/x
ask /b/x/y?q -> 301 http://localhost/a/x/y?q
ask /a/x -> /srv/a/x
ask /a/none -> 302 http://n.example/
ask /a/s -> 302 http://server.example/
ask /c/x -> /srv/c/x
"##,
    // of one directory the host's come first; a longer directory's come before them
    r##"main DocumentRoot /srv\n
  <VirtualHost *:80>\n<Directory /srv>\nRedirect /a http://host.example\n</Directory>\n</VirtualHost>\n
  <VirtualHost *:81>\n<Directory />\nRedirect /b http://other.example\n</Directory>\n</VirtualHost>\n
  <Directory /srv>\nRedirect /a http://main.example\n</Directory>\n
  <Directory /srv/b>\nRedirect /b http://long.example\n</Directory>\n
file /srv/a/x /srv/b/x
ask /a/x -> 302 http://host.example/x
ask /b/x -> 302 http://long.example/x
ask /a/x port=81 -> 302 http://main.example/x
ask /b/x port=81 -> 302 http://long.example/x
ask /b/x port=82 -> 302 http://long.example/x
ask /b port=81 -> 302 http://long.example
"##,
    // a section goes on in what it includes, and ends with its own close
    r##"main DocumentRoot /srv\n<Directory /srv>\n<IfModule alias_module>\nInclude /etc/r\n</IfModule>\n
  AllowOverride All\n</directory>\nAlias /b /srv/x\n
/etc/r Options -Indexes\nRedirect /a http://one.example\n<Files f>\n</Files>\n
/srv/x
ask /a -> 302 http://one.example
ask /b -> /srv/x
"##,
];

#[test]
fn sections_send_requests_away(rt: HostRuntime) -> Result<(), NoMemory> {
    hold_each(&rt, rt.alloc(), SENT)
}
