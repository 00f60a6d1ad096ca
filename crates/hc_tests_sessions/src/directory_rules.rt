//! Rules of directories, as dialogues: in `<Directory>` and in `.htaccess`, with restarts.

use crate::dialogue::hold_each;
use hc_base::NoMemory;

// What rules of a directory see, and where they lead.
static RULES: &[&str] = &[
    // what WordPress writes
    r##"main DocumentRoot \"/var/www/html\"\n<Directory \"/\">\nRequire all denied\n</Directory>\n
  <Directory \"/var/www/html\">\nOptions FollowSymLinks\nAllowOverride All\nRequire all granted\n</Directory>\n
/var/www/html/.htaccess # BEGIN WordPress\n<IfModule mod_rewrite.c>\nRewriteEngine On\n
  RewriteRule .* - [E=HTTP_AUTHORIZATION:%{HTTP:Authorization}]\nRewriteBase /\nRewriteRule ^index\\.php$ - [L]\n
  RewriteCond %{REQUEST_FILENAME} !-f\nRewriteCond %{REQUEST_FILENAME} !-d\nRewriteRule . /index.php [L]\n
  </IfModule>\n# END WordPress\n
file /var/www/html/index.php /var/www/html/a.css /var/www/html/wp-admin/admin.php
ask /2024/post -> /var/www/html/index.php
ask / -> directory /var/www/html/
ask /a.css -> /var/www/html/a.css
ask /wp-admin -> directory /var/www/html/wp-admin
ask /index.php/x -> /var/www/html/index.php /x
"##,
    // the path information is there again before the second rule, unless DPI drops it
    r##"main DocumentRoot /srv\n<Directory /srv>\nAllowOverride All\n</Directory>\n
/srv/.htaccess RewriteEngine On\nRewriteRule ^one/(.*)$ two/$1\nRewriteRule ^two/(.*)$ three/$1\n
file /srv/three
ask /one/p -> /srv/three /p/p
/srv/.htaccess RewriteEngine On\nRewriteRule ^one/(.*)$ two/$1 [DPI]\nRewriteRule ^two/(.*)$ three/$1\n
ask /one/p -> /srv/three /p
"##,
    // the file name and the path information, while they are apart
    r##"main DocumentRoot /srv\n<Directory /srv>\nAllowOverride All\n</Directory>\n
/srv/.htaccess RewriteEngine On\nRewriteCond %{REQUEST_FILENAME} ^(.*)$\nRewriteRule . - [E=N:%1]\n
  RewriteRule ^f/ /to%{ENV:N}%{PATH_INFO} [L]\n
file /srv/f /srv/to/srv/f/i
ask /f/i -> /srv/to/srv/f/i
"##,
    // the directory itself, without a final slash, has no rules
    r##"main DocumentRoot /srv\nAlias /a /srv\n<Directory /srv>\nRewriteEngine On\nRewriteRule ^$ /x\n</Directory>\n
file /srv/x
ask /a -> directory /srv
ask /a/ -> /srv/x
"##,
    // the directory of all
    r##"main DocumentRoot /\n<Directory />\nRewriteEngine On\nRewriteRule ^srv/a$ srv/b\n</Directory>\n
file /srv/b
ask /srv/a -> /srv/b
"##,
    // rules need an option that lets links be followed, also where there are none
    r##"main DocumentRoot /srv\n<Directory /srv>\nAllowOverride FileInfo\nOptions None\n</Directory>\n
/srv/.htaccess RewriteEngine On\n
file /srv/f
ask /f -> 403
main DocumentRoot /srv\n<Directory /srv>\nAllowOverride FileInfo\nOptions SymLinksIfOwnerMatch\n</Directory>\n
ask /f -> /srv/f
/srv/.htaccess RewriteRule a b [P]\n
ask /f -> ht_refused 18 UnsupportedFlag /srv/.htaccess:1
main DocumentRoot /srv\n<Directory /srv>\nAllowOverride AuthConfig\n</Directory>\n
ask /f -> ht_refused 18 UnsupportedFlag /srv/.htaccess:1
/srv/.htaccess RewriteRule a b\n
ask /f -> ht_refused 29 OverrideNotAllowed /srv/.htaccess:1
"##,
    // the last section's rules count: those of a host, and those of the deepest directory
    r##"main DocumentRoot /srv\n<Directory /srv>\nRewriteEngine On\nRewriteRule ^a$ m\n</Directory>\n
  <VirtualHost *:80>\n<Directory /srv>\nRewriteEngine On\nRewriteRule ^a$ h\n</Directory>\n</VirtualHost>\n
file /srv/m /srv/h
ask /a -> /srv/h
ask /a port=81 -> /srv/m
"##,
    r##"main DocumentRoot /srv\n<Directory /srv>\nRewriteEngine On\nRewriteRule ^d/a$ m\n</Directory>\n
  <Directory /srv/d>\nRewriteRule ^a$ h\n</Directory>\n
file /srv/d/a /srv/d/h /srv/m
ask /d/a -> /srv/d/h
main DocumentRoot /srv\n<Directory /srv>\nRewriteEngine On\nRewriteRule ^d/a$ m\n</Directory>\n
  <Directory /srv/d>\nRewriteEngine Off\nRewriteRule ^a$ h\n</Directory>\n
ask /d/a -> /srv/d/a
"##,
    // inherited rules come behind a section's own or before them, and run in its directory
    r##"main DocumentRoot /srv\n<Directory /srv>\nAllowOverride All\nRewriteEngine On\nRewriteRule ^a$ c [L]\n
  RewriteRule ^b$ d [L]\n</Directory>\n
/srv/e/.htaccess RewriteOptions Inherit\nRewriteRule ^a$ b [L]\n
file /srv/e/b /srv/e/c /srv/e/d
ask /e/a -> /srv/e/d
/srv/e/.htaccess RewriteOptions InheritBefore\nRewriteRule ^a$ b [L]\n
ask /e/a -> /srv/e/c
/srv/e/.htaccess RewriteRule ^a$ b [L]\n
ask /e/a -> /srv/e/b
"##,
];

// Restarts: the path that they go on with, and their variables.
static RESTARTS: &[&str] = &[
    r##"main DocumentRoot /srv\n<Directory /srv>\nAllowOverride All\n</Directory>\n
/srv/.htaccess RewriteEngine On\nRewriteRule ^(.*)$ /app/$1\n
ask / -> limit redirects
"##,
    // into the rules of another directory, as often as the limit allows
    r##"main DocumentRoot /srv\nLimitInternalRecursion 2\n<Directory /srv>\nAllowOverride All\n</Directory>\n
/srv/a/.htaccess RewriteEngine On\nRewriteRule ^(.*)$ /b/$1\n
/srv/b/.htaccess RewriteEngine On\nRewriteRule ^old$ new\n
file /srv/a/old /srv/b/old /srv/b/new
ask /a/old -> /srv/b/new
main DocumentRoot /srv\nLimitInternalRecursion 1\n<Directory /srv>\nAllowOverride All\n</Directory>\n
ask /a/old -> limit redirects
ask /b/old -> /srv/b/new
"##,
    // END holds for the passes that follow, L does not
    r##"main DocumentRoot /srv\n<Directory /srv>\nAllowOverride All\n</Directory>\n
/srv/.htaccess RewriteEngine On\nRewriteRule ^a$ b [END]\nRewriteRule ^b$ c\n
file /srv/b /srv/c
ask /a -> /srv/b
/srv/.htaccess RewriteEngine On\nRewriteRule ^a$ b [L]\nRewriteRule ^b$ c\n
ask /a -> /srv/c
main DocumentRoot /srv\nRewriteEngine On\nRewriteRule ^/a$ /b [END]\n<Directory /srv>\nAllowOverride All\n</Directory>\n
ask /a -> /srv/b
"##,
    // RewriteBase stands for the directory, once, also where it begins with it
    r##"main DocumentRoot /srv\nAlias /app /x/y\n<Directory /x/y>\nAllowOverride All\n</Directory>\n
/x/y/.htaccess RewriteEngine On\nRewriteBase /app\nRewriteRule ^a$ b\nRewriteRule ^r$ b [R,L]\n
file /x/y/b
ask /app/a -> /x/y/b
ask /app/r -> 302 http://localhost/app/b
"##,
    r##"main DocumentRoot /srv\n<Directory /srv>\nAllowOverride All\n</Directory>\n
/srv/.htaccess RewriteEngine On\nRewriteBase /srv/w/\nRewriteRule ^a$ b\nRewriteRule ^r$ b [R,L]\n
file /srv/srv/w/b
ask /a -> /srv/srv/w/b
ask /r -> 302 http://localhost/srv/w/w/b
"##,
    // redirects: a leading document root is taken off, and a relative text needs a RewriteBase
    r##"main DocumentRoot /srv\n<Directory /srv>\nAllowOverride All\n</Directory>\n
/srv/.htaccess RewriteEngine On\nRewriteRule ^a$ /x [R=301,L]\nRewriteRule ^b$ /srv/y [R,L]\nRewriteRule ^c$ y [R,L]\n
  RewriteRule ^d$ /../x\nRewriteRule ^e$ http://localhost/srv/z\n
file /srv/srv/z
ask /a -> 301 http://localhost/x
ask /b -> 302 http://localhost/y
ask /c -> outside relative redirect
ask /d -> outside dot segment
ask /e -> not found
"##,
    // a relative text where the file name does not come from the document root
    r##"main DocumentRoot /srv\nAlias /al /x\nRewriteEngine On\nRewriteRule ^/n$ /x/a\n
  <Directory /x>\nAllowOverride All\n</Directory>\n
/x/.htaccess RewriteEngine On\nRewriteRule ^a$ b\n
file /x/b
ask /al/a -> outside relative under alias
ask /n -> outside relative under alias
/x/.htaccess RewriteEngine On\nRewriteBase /al\nRewriteRule ^a$ b\n
ask /al/a -> /x/b
"##,
    // variables are named anew, and a variable STATUS is lost
    r##"main DocumentRoot /srv\n<Directory /srv>\nAllowOverride All\n</Directory>\n
/srv/.htaccess RewriteEngine On\nRewriteRule ^a$ b [E=X:1,E=STATUS:3,L]\n
  RewriteCond %{ENV:REDIRECT_X}%{ENV:REDIRECT_STATUS} ^1200$\nRewriteRule ^b$ c [L]\n
  RewriteCond %{ENV:REDIRECT_REDIRECT_X}%{ENV:REDIRECT_REDIRECT_STATUS}%{ENV:REDIRECT_STATUS}%{ENV:X} ^1200200$\n
  RewriteRule ^c$ d [L]\n
file /srv/b /srv/d
ask /a -> /srv/d
ask /b -> /srv/b
"##,
    // names that begin so already, and one that is taken away, over two restarts
    r##"main DocumentRoot /srv\n<Directory /srv>\nAllowOverride All\n</Directory>\n
/srv/.htaccess RewriteEngine On\nRewriteRule ^a$ b [E=REDIRECT_X:1,E=X:2,E=Y:3,E=!Y,E=REDIRECT_STATUS:4,L]\n
  RewriteCond %{ENV:REDIRECT_REDIRECT_X}%{ENV:REDIRECT_X}-%{ENV:REDIRECT_Y}%{ENV:REDIRECT_REDIRECT_STATUS} ^12-4$\n
  RewriteRule ^b$ c [E=REDIRECT_X:5,L]\n
  RewriteCond %{ENV:REDIRECT_REDIRECT_X}%{ENV:REDIRECT_REDIRECT_REDIRECT_X} ^51$\n
  RewriteCond %{ENV:REDIRECT_REDIRECT_STATUS}%{ENV:REDIRECT_REDIRECT_REDIRECT_STATUS}%{ENV:REDIRECT_STATUS}
  %{ENV:REDIRECT_X} ^2004200$\n
  RewriteRule ^c$ d [L]\n
file /srv/d
ask /a -> /srv/d
"##,
    // the redirects of sections come before a restart, with the query that the rules leave
    r##"main DocumentRoot /srv\n<Directory /srv>\nAllowOverride All\n</Directory>\n
/srv/.htaccess Redirect /a http://r.example/\nRewriteEngine On\nRewriteRule ^(a|b)$ /c?q=1\n
file /srv/c
ask /a?z=2 -> 302 http://r.example/?q=1
ask /b?z=2 -> /srv/c
"##,
];

#[test]
fn rules_of_directories_are_run(rt: HostRuntime) -> Result<(), NoMemory> {
    hold_each(&rt, rt.alloc(), RULES)
}

#[test]
fn rules_of_directories_restart_a_request(rt: HostRuntime) -> Result<(), NoMemory> {
    hold_each(&rt, rt.alloc(), RESTARTS)
}
