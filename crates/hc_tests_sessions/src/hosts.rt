//! Which server answers, as dialogues: addresses, ports, names, and what a virtual host has of the main server.

use crate::dialogue::hold_each;
use hc_base::NoMemory;

// Virtual hosts, the files that are there, and what requests to each address receive.
static CHOSEN: &[&str] = &[
    r##"main DocumentRoot /srv/main\n
  <VirtualHost 10.0.0.1:80>\nServerName a.example\nDocumentRoot /srv/a\n</VirtualHost>\n
  <VirtualHost 10.0.0.1:80>\nServerName b.example\nServerAlias *.b.example\nDocumentRoot /srv/b\n</VirtualHost>\n
  <VirtualHost *:8080>\nServerName c.example\nDocumentRoot /srv/c\n</VirtualHost>\n
file /srv/main/i /srv/a/i /srv/b/i /srv/c/i
check -> hosts 3
ask /i server=10.0.0.1 host=x.example -> /srv/a/i
ask /i server=10.0.0.1 host=WWW.B.EXAMPLE -> /srv/b/i
ask /i server=10.0.0.1 host=B.example -> /srv/b/i
ask /i server=10.0.0.1 host= -> /srv/a/i
ask /i server=10.0.0.2 host=a.example -> /srv/main/i
ask /i server=10.0.0.1 port=81 host=a.example -> /srv/main/i
ask /i server=10.0.0.1 port=8080 host=a.example -> /srv/c/i
ask /i server=::1 port=8080 -> /srv/c/i
ask /i server=::1 -> /srv/main/i
"##,
    // any address and its own, two of one name, and a host with the main server's document root
    r##"main DocumentRoot /srv/main\n
  <VirtualHost _Default_:80>\nServerName z.example\n</VirtualHost>\n
  <VirtualHost *:80 10.0.0.9:81>\nServerName a.example\nDocumentRoot /srv/a\n</VirtualHost>\n
  <VirtualHost *:80>\nServerName A.example\nDocumentRoot /srv/b\n</VirtualHost>\n
  <VirtualHost *:80>\nServerAlias www?.c.example *.d.example\nDocumentRoot /srv/c\n</VirtualHost>\n
  <VirtualHost 10.0.0.1:80>\nDocumentRoot /srv/d\n</VirtualHost>\n
file /srv/main/i /srv/a/i /srv/b/i /srv/c/i /srv/d/i
ask /i -> /srv/main/i
ask /i host=a.example -> /srv/a/i
ask /i host=www1.c.example -> /srv/c/i
ask /i host=www.c.example -> /srv/main/i
ask /i host=x.y.D.example -> /srv/c/i
ask /i host=d.example -> /srv/main/i
ask /i server=10.0.0.1 host=a.example -> /srv/d/i
ask /i server=10.0.0.9 port=81 host=z.example -> /srv/a/i
ask /i server=10.0.0.9 host=q -> /srv/main/i
ask /i server=10.0.0.1 port=81 host=a.example -> /srv/main/i
"##,
    // an empty name, of the Host header and of a server
    r##"main Listen 80\n
  <VirtualHost *:80>\nServerName a.example\nDocumentRoot /srv/a\n</VirtualHost>\n
  <VirtualHost *:80>\nServerAlias *\nDocumentRoot /srv/b\n</VirtualHost>\n
  <VirtualHost *:81>\nServerName a.example:80\nDocumentRoot /srv/a\n</VirtualHost>\n
  <VirtualHost *:81>\nServerName :80\nDocumentRoot /srv/b\nRedirect /e /f\n</VirtualHost>\n
  <VirtualHost *:82>\nServerName a.example\nServerName b.example\nDocumentRoot /srv/a\n</VirtualHost>\n
  <VirtualHost *:82>\nDocumentRoot /srv/b\n</VirtualHost>\n
  <VirtualHost *:82>\nServerName a.example\nDocumentRoot /srv/c\n</VirtualHost>\n
file /srv/a/i /srv/b/i /srv/c/i
check -> hosts 7
ask /i host= -> /srv/b/i
ask /i host=q -> /srv/b/i
ask /i host=A.EXAMPLE -> /srv/a/i
ask /i port=81 host= -> /srv/b/i
ask /e port=81 host= -> 302 http://192.0.2.1:81/f
ask /i port=81 host=q -> /srv/a/i
ask /i port=82 host= -> /srv/a/i
ask /i port=82 host=a.example -> /srv/c/i
ask /i port=83 host=a.example -> outside no root
"##,
    // what a host says comes before what the main server says
    r##"main DocumentRoot /srv\nRedirect /a http://one.example/\nRedirect /b http://one.example/\n
  Alias /c /srv/x\nAlias /d /srv/x\nServerName m.example\n
  <VirtualHost *:80>\nServerName h.example:8080\nRedirect /a http://two.example/\nAlias /c /srv/y\n
  Redirect /d /e\n</VirtualHost>\n
file /srv/x /srv/y
ask /a -> 302 http://two.example/
ask /b -> 302 http://one.example/
ask /c -> /srv/y
ask /d -> 302 http://localhost/e
ask /d host= -> 302 http://h.example/e
ask /a port=81 -> 302 http://one.example/
ask /c port=81 -> /srv/x
ask /d port=81 -> /srv/x
"##,
];

#[test]
fn servers_are_chosen(rt: HostRuntime) -> Result<(), NoMemory> {
    hold_each(&rt, rt.alloc(), CHOSEN)
}
