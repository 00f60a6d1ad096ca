//! The steps of an answer and what it rests on, as an `ask` with `trail` prints them.

use crate::dialogue::hold_each;
use hc_base::NoMemory;

static TRAILS: &[&str] = &[
    // the server, the pass, the file name, where it leads, and who may pass
    r##"main DocumentRoot /srv\n
file /srv/f
ask /f trail=true
{"events":5,"outcome":{"file":{"info":"","path":"/srv/f"}},"reads":[["text","MAIN"],["kind","/srv"],["kind","/srv/f"]],
  "trail":[["host","",0],["pass",0,"/f",""],["map","",0,"/srv/f",""],["walk","/srv/f","","file"],["auth","none"]]}
ask /a%2fb trail=true
{"events":1,"outcome":{"status":404},"reads":[["text","MAIN"]],"trail":[["host","",0]]}
ask / trail=true
{"events":5,"outcome":{"directory":"/srv/"},"reads":[["text","MAIN"],["kind","/srv"]],"trail":[["host","",0],
  ["pass",0,"/",""],["map","",0,"/srv/",""],["walk","/srv/","","dir"],["auth","none"]]}
"##,
    // redirects end a pass, with what stands there in the file
    r##"main DocumentRoot /srv\nRedirect /e /f?k\nRedirect /z \\\n  \"/f\"\nRedirect gone /é\n
ask /e?q=1 trail=true
{"events":3,"outcome":{"redirect":{"location":"http://localhost/f?k","status":302}},"reads":[["text","MAIN"]],
  "trail":[["host","",0],["pass",0,"/e","q=1"],["redirect","MAIN",2,"Redirect /e /f?k"]]}
ask /z/x?q=1 host=a.b trail=true
{"events":3,"outcome":{"redirect":{"location":"http://a.b/f/x?q=1","status":302}},"reads":[["text","MAIN"]],
  "trail":[["host","",0],["pass",0,"/z/x","q=1"],["redirect","MAIN",3,"Redirect /z \\\\\\x0a  \"/f\""]]}
ask /%c3%a9 trail=true
{"events":3,"outcome":{"status":410},"reads":[["text","MAIN"]],"trail":[["host","",0],["pass",0,"/\\xc3\\xa9",""],
  ["redirect","MAIN",5,"Redirect gone /\\xc3\\xa9"]]}
"##,
    // aliases
    r##"main DocumentRoot /srv\nAlias /a /srv//f//\nAlias /d /x/../y\n
file /srv/f
ask /a/g trail=true
{"events":5,"outcome":{"file":{"info":"/g","path":"/srv/f"}},"reads":[["text","MAIN"],["kind","/srv"],
  ["kind","/srv/f"]],"trail":[["host","",0],["pass",0,"/a/g",""],["map","MAIN",2,"/srv/f/g","Alias /a /srv//f//"],
  ["walk","/srv/f","/g","file"],["auth","none"]]}
ask /d trail=true
{"events":2,"outcome":{"outside":"dot segment"},"reads":[["text","MAIN"]],"trail":[["host","",0],["pass",0,"/d",""]]}
"##,
    // a `.htaccess` is looked at where something is allowed, and stands behind the sections of its directory
    r##"main DocumentRoot /home/a\n<Directory \"/\">\nAllowOverride None\n</Directory>\n<Directory \"/home\">\n
  AllowOverride FileInfo\n</Directory>\n
/.htaccess Redirect /x http://r.example/x\n
/home/.htaccess Redirect 301 /p http://one.example/p\n
/home/a/.htaccess Redirect 302 /p http://two.example/p\n
ask /p/q trail=true
{"events":10,"outcome":{"redirect":{"location":"http://two.example/p/q","status":302}},"reads":[["text","MAIN"],
  ["kind","/home"],["text","/home/.htaccess"],["kind","/home/a"],["text","/home/a/.htaccess"],["kind","/home/a/p"]],
  "trail":[["host","",0],["pass",0,"/p/q",""],["map","",0,"/home/a/p/q",""],["walk","/home/a/p","/q","absent"],
  ["section","MAIN",2,"<Directory \"/\">"],["section","MAIN",5,"<Directory \"/home\">"],
  ["section","/home/.htaccess",0,""],["section","/home/a/.htaccess",0,""],["auth","none"],
  ["redirect","/home/a/.htaccess",1,"Redirect 302 /p http://two.example/p"]]}
"##,
    // a `.htaccess` at each place of a walk, and a section inside one
    r##"main DocumentRoot /srv\n<Directory />\nAllowOverride All\n</Directory>\n<Directory /srv>\n</Directory>\n
  <Directory /srv/d>\nAllowOverride None\n</Directory>\n<Directory /srv/d/e>\nAllowOverride FileInfo\n</Directory>\n
  <Location />\n</Location>\n
/.htaccess Redirect /x /y\n
/srv/.htaccess <Files f>\nRequire all granted\n</Files>\n<Files g>\n</Files>\n
/srv/d/.htaccess No such line\n
/srv/d/e/.htaccess Redirect /e /f\n
file /srv/d/e/f
ask /d/e/f trail=true
{"events":14,"outcome":{"file":{"info":"","path":"/srv/d/e/f"}},"reads":[["text","/.htaccess"],["text","MAIN"],
  ["kind","/srv"],["text","/srv/.htaccess"],["kind","/srv/d"],["kind","/srv/d/e"],["text","/srv/d/e/.htaccess"],
  ["kind","/srv/d/e/f"]],"trail":[["host","",0],["pass",0,"/d/e/f",""],["map","",0,"/srv/d/e/f",""],
  ["walk","/srv/d/e/f","","file"],["section","MAIN",2,"<Directory />"],["section","/.htaccess",0,""],
  ["section","MAIN",5,"<Directory /srv>"],["section","/srv/.htaccess",0,""],["section","MAIN",7,"<Directory /srv/d>"],
  ["section","MAIN",10,"<Directory /srv/d/e>"],["section","/srv/d/e/.htaccess",0,""],
  ["section","/srv/.htaccess",1,"<Files f>"],["section","MAIN",13,"<Location />"],["auth","granted"]]}
"##,
    // the first one that is refused ends what is looked at
    r##"main DocumentRoot /srv\n<Directory />\nAllowOverride All\n</Directory>\n
/.htaccess No such line\n
/srv/.htaccess Require all granted\n
file /srv/f
ask /f trail=true
{"events":4,"outcome":{"ht_refused":{"at":0,"code":1,"field":"","file":"/.htaccess","line":1,
  "name":"UnsupportedDirective"}},"reads":[["text","/.htaccess"],["text","MAIN"],["kind","/srv"],["kind","/srv/f"]],
  "trail":[["host","",0],["pass",0,"/f",""],["map","",0,"/srv/f",""],["walk","/srv/f","","file"]]}
"##,
    // who may pass
    r##"main DocumentRoot /srv\n<Location /f>\nRequire local\n</Location>\n<Location /g>\nRequire all denied\n
  </Location>\n
file /srv/f
ask /f client=127.0.0.1 trail=true
{"events":6,"outcome":{"file":{"info":"","path":"/srv/f"}},"reads":[["text","MAIN"],["kind","/srv"],["kind","/srv/f"]],
  "trail":[["host","",0],["pass",0,"/f",""],["map","",0,"/srv/f",""],["walk","/srv/f","","file"],
  ["section","MAIN",2,"<Location /f>"],["auth","granted"]]}
ask /g trail=true
{"events":6,"outcome":{"status":403},"reads":[["text","MAIN"],["kind","/srv"],["kind","/srv/g"]],"trail":[["host","",0],
  ["pass",0,"/g",""],["map","",0,"/srv/g",""],["walk","/srv/g","","absent"],["section","MAIN",5,"<Location /g>"],
  ["auth","denied"]]}
"##,
    // rules of a server: the map, the condition and the first component that are looked at
    r##"main DocumentRoot /srv\n<VirtualHost *:80>\nRewriteEngine On\nRewriteMap m txt:/etc/m\n
  RewriteCond %{QUERY_STRING} ^q$ [OR]\nRewriteCond /srv/f -f\nRewriteRule ^/a$ /${m:b}f [N=2]\n
  RewriteRule ^/f$ -\n</VirtualHost>\n
file /srv/f
ask /a trail=true
{"events":12,"outcome":{"file":{"info":"","path":"/srv/f"}},"reads":[["text","MAIN"],["text","/etc/m"],["kind","/f"],
  ["kind","/srv"],["kind","/srv/f"]],"trail":[["host","MAIN",2],["pass",0,"/a",""],
  ["cond","MAIN",5,false,"RewriteCond %{QUERY_STRING} ^q$ [OR]"],["cond","MAIN",6,true,"RewriteCond /srv/f -f"],
  ["rule","MAIN",7,true,"RewriteRule ^/a$ /${m:b}f [N=2]"],["text","/f",""],["round",2],
  ["rule","MAIN",7,false,"RewriteRule ^/a$ /${m:b}f [N=2]"],["rule","MAIN",8,true,"RewriteRule ^/f$ -"],
  ["map","",0,"/srv/f",""],["walk","/srv/f","","file"],["auth","none"]]}
"##,
    // what WordPress writes, for a post
    r##"main DocumentRoot \"/var/www/html\"\n<Directory \"/\">\nRequire all denied\n</Directory>\n
  <Directory \"/var/www/html\">\nOptions FollowSymLinks\nAllowOverride All\nRequire all granted\n</Directory>\n
/var/www/html/.htaccess # BEGIN WordPress\n<IfModule mod_rewrite.c>\nRewriteEngine On\n
  RewriteRule .* - [E=HTTP_AUTHORIZATION:%{HTTP:Authorization}]\nRewriteBase /\nRewriteRule ^index\\.php$ - [L]\n
  RewriteCond %{REQUEST_FILENAME} !-f\nRewriteCond %{REQUEST_FILENAME} !-d\nRewriteRule . /index.php [L]\n
  </IfModule>\n# END WordPress\n
file /var/www/html/index.php
ask /2024/post trail=true
{"events":24,"outcome":{"file":{"info":"","path":"/var/www/html/index.php"}},"reads":[["text","MAIN"],["kind","/var"],
  ["kind","/var/www"],["kind","/var/www/html"],["text","/var/www/html/.htaccess"],["kind","/var/www/html/2024"],
  ["kind","/var/www/html/index.php"]],"trail":[["host","",0],["pass",0,"/2024/post",""],
  ["map","",0,"/var/www/html/2024/post",""],["walk","/var/www/html/2024","/post","absent"],
  ["section","MAIN",2,"<Directory \"/\">"],["section","MAIN",5,"<Directory \"/var/www/html\">"],
  ["section","/var/www/html/.htaccess",0,""],["auth","granted"],
  ["rule","/var/www/html/.htaccess",4,true,"RewriteRule .* - [E=HTTP_AUTHORIZATION:%{HTTP:Authorization}]"],
  ["rule","/var/www/html/.htaccess",6,false,"RewriteRule ^index\\\\.php$ - [L]"],
  ["cond","/var/www/html/.htaccess",7,true,"RewriteCond %{REQUEST_FILENAME} !-f"],
  ["cond","/var/www/html/.htaccess",8,true,"RewriteCond %{REQUEST_FILENAME} !-d"],
  ["rule","/var/www/html/.htaccess",9,true,"RewriteRule . /index.php [L]"],["text","/index.php",""],
  ["restart","/index.php"],["pass",1,"/index.php",""],["map","",0,"/var/www/html/index.php",""],
  ["walk","/var/www/html/index.php","","file"],["section","MAIN",2,"<Directory \"/\">"],
  ["section","MAIN",5,"<Directory \"/var/www/html\">"],["section","/var/www/html/.htaccess",0,""],["auth","granted"],
  ["rule","/var/www/html/.htaccess",4,true,"RewriteRule .* - [E=HTTP_AUTHORIZATION:%{HTTP:Authorization}]"],
  ["rule","/var/www/html/.htaccess",6,true,"RewriteRule ^index\\\\.php$ - [L]"]]}
"##,
    // a restart that is too many is not told
    r##"main DocumentRoot /srv\nLimitInternalRecursion 1\n<Directory /srv>\nRewriteEngine On\n
  RewriteRule ^(.*)$ /app/$1?q=$1\n</Directory>\n
file /srv/f
ask /x trail=true
{"events":16,"outcome":{"limit":"redirects"},"reads":[["text","MAIN"],["kind","/srv"],["kind","/srv/app"],
  ["kind","/srv/x"]],"trail":[["host","",0],["pass",0,"/x",""],["map","",0,"/srv/x",""],["walk","/srv/x","","absent"],
  ["section","MAIN",3,"<Directory /srv>"],["auth","none"],["rule","MAIN",5,true,"RewriteRule ^(.*)$ /app/$1?q=$1"],
  ["text","/app/x","q=x"],["restart","/app/x"],["pass",1,"/app/x","q=x"],["map","",0,"/srv/app/x",""],
  ["walk","/srv/app","/x","absent"],["section","MAIN",3,"<Directory /srv>"],["auth","none"],
  ["rule","MAIN",5,true,"RewriteRule ^(.*)$ /app/$1?q=$1"],["text","/app/app/x","q=app/x"]]}
"##,
    // the last event where the limit ends a request, with one restart and with three
    r##"main DocumentRoot /srv\nLimitInternalRecursion 1\n<Directory /srv>\nAllowOverride All\n</Directory>\n
/srv/.htaccess RewriteEngine On\nRewriteRule ^(.*)$ /app/$1\n
ask / trail=true
{"events":18,"outcome":{"limit":"redirects"},"reads":[["text","MAIN"],["kind","/srv"],["text","/srv/.htaccess"],
  ["kind","/srv/app"]],"trail":[["host","",0],["pass",0,"/",""],["map","",0,"/srv/",""],["walk","/srv/","","dir"],
  ["section","MAIN",3,"<Directory /srv>"],["section","/srv/.htaccess",0,""],["auth","none"],
  ["rule","/srv/.htaccess",2,true,"RewriteRule ^(.*)$ /app/$1"],["text","/app/",""],["restart","/app/"],
  ["pass",1,"/app/",""],["map","",0,"/srv/app/",""],["walk","/srv/app","/","absent"],
  ["section","MAIN",3,"<Directory /srv>"],["section","/srv/.htaccess",0,""],["auth","none"],
  ["rule","/srv/.htaccess",2,true,"RewriteRule ^(.*)$ /app/$1"],["text","/app/app/",""]]}
main DocumentRoot /srv\nLimitInternalRecursion 3\n<Directory /srv>\nAllowOverride All\n</Directory>\n
ask / trail=true
{"events":36,"outcome":{"limit":"redirects"},"reads":[["text","MAIN"],["kind","/srv"],["text","/srv/.htaccess"],
  ["kind","/srv/app"]],"trail":[["host","",0],["pass",0,"/",""],["map","",0,"/srv/",""],["walk","/srv/","","dir"],
  ["section","MAIN",3,"<Directory /srv>"],["section","/srv/.htaccess",0,""],["auth","none"],
  ["rule","/srv/.htaccess",2,true,"RewriteRule ^(.*)$ /app/$1"],["text","/app/",""],["restart","/app/"],
  ["pass",1,"/app/",""],["map","",0,"/srv/app/",""],["walk","/srv/app","/","absent"],
  ["section","MAIN",3,"<Directory /srv>"],["section","/srv/.htaccess",0,""],["auth","none"],
  ["rule","/srv/.htaccess",2,true,"RewriteRule ^(.*)$ /app/$1"],["text","/app/app/",""],["restart","/app/app/"],
  ["pass",2,"/app/app/",""],["map","",0,"/srv/app/app/",""],["walk","/srv/app","/app/","absent"],
  ["section","MAIN",3,"<Directory /srv>"],["section","/srv/.htaccess",0,""],["auth","none"],
  ["rule","/srv/.htaccess",2,true,"RewriteRule ^(.*)$ /app/$1"],["text","/app/app/app/",""],["restart","/app/app/app/"],
  ["pass",3,"/app/app/app/",""],["map","",0,"/srv/app/app/app/",""],["walk","/srv/app","/app/app/","absent"],
  ["section","MAIN",3,"<Directory /srv>"],["section","/srv/.htaccess",0,""],["auth","none"],
  ["rule","/srv/.htaccess",2,true,"RewriteRule ^(.*)$ /app/$1"],["text","/app/app/app/app/",""]]}
"##,
    // a path with a segment of dots is outside also where no further pass is allowed
    r##"main DocumentRoot /srv\nLimitInternalRecursion 1\n<Directory /srv>\nAllowOverride All\n</Directory>\n
/srv/.htaccess RewriteEngine On\nRewriteRule ^a$ /b\nRewriteRule ^b$ /../c\n
ask /a -> outside dot segment
"##,
    // rules need an option that lets links be followed
    r##"main DocumentRoot /srv\n<Directory /srv>\nOptions None\nRewriteEngine On\n</Directory>\n
file /srv/f
ask /f trail=true
{"events":6,"outcome":{"status":403},"reads":[["text","MAIN"],["kind","/srv"],["kind","/srv/f"]],"trail":[["host","",0],
  ["pass",0,"/f",""],["map","",0,"/srv/f",""],["walk","/srv/f","","file"],["section","MAIN",2,"<Directory /srv>"],
  ["auth","none"]]}
"##,
    // sections of each group, in the main server, in a host and inside others, in the order in which they are merged
    r##"main DocumentRoot /srv\n<Location /f>\n</Location>\n<Files f>\n</Files>\n<DirectoryMatch f$>\n
  </DirectoryMatch>\n<Directory /srv>\n<Files ?>\n</Files>\n</Directory>\n<Directory />\n</Directory>\n
  <VirtualHost *:80>\n<Files f>\n</Files>\n<Directory ~ ^/srv>\n<Files ~ .>\n</Files>\n</Directory>\n
  <Directory /*>\n</Directory>\n</VirtualHost>\n
file /srv/f
ask /f trail=true
{"events":16,"outcome":{"file":{"info":"","path":"/srv/f"}},"reads":[["text","MAIN"],["kind","/srv"],["kind","/srv/f"]],
  "trail":[["host","MAIN",14],["pass",0,"/f",""],["map","",0,"/srv/f",""],["walk","/srv/f","","file"],
  ["section","MAIN",12,"<Directory />"],["section","MAIN",21,"<Directory /*>"],["section","MAIN",8,"<Directory /srv>"],
  ["section","MAIN",21,"<Directory /*>"],["section","MAIN",6,"<DirectoryMatch f$>"],
  ["section","MAIN",17,"<Directory ~ ^/srv>"],["section","MAIN",4,"<Files f>"],["section","MAIN",15,"<Files f>"],
  ["section","MAIN",9,"<Files ?>"],["section","MAIN",18,"<Files ~ .>"],["section","MAIN",2,"<Location /f>"],
  ["auth","none"]]}
"##,
    // sections of which some are not in force, whatever is asked for
    r##"main DocumentRoot /srv\n<Directory /srv/f>\n</Directory>\n<Directory /srv/*>\n</Directory>\n<DirectoryMatch x>\n
  <Files f>\n</Files>\n</DirectoryMatch>\n<DirectoryMatch /srv/f$>\n<Files g>\n</Files>\n</DirectoryMatch>\n
  <Files /srv/f>\n</Files>\n<Files [!g]>\n</Files>\n<FilesMatch ^f$>\n</FilesMatch>\n<Files srv>\n</Files>\n
  <Location /f>\n</Location>\n<Location /f/>\n</Location>\n<Location />\n</Location>\n<Location /*>\n</Location>\n
  <Location ?f>\n</Location>\n<Location ~ g>\n</Location>\n<LocationMatch ^f>\n</LocationMatch>\n<Location /F>\n
  </Location>\n<Location \"\">\n</Location>\n
file /srv/f
ask /f trail=true
{"events":11,"outcome":{"file":{"info":"","path":"/srv/f"}},"reads":[["text","MAIN"],["kind","/srv"],["kind","/srv/f"]],
  "trail":[["host","",0],["pass",0,"/f",""],["map","",0,"/srv/f",""],["walk","/srv/f","","file"],
  ["section","MAIN",10,"<DirectoryMatch /srv/f$>"],["section","MAIN",16,"<Files [!g]>"],
  ["section","MAIN",18,"<FilesMatch ^f$>"],["section","MAIN",22,"<Location /f>"],["section","MAIN",26,"<Location />"],
  ["section","MAIN",28,"<Location /*>"],["auth","none"]]}
ask /f/g trail=true
{"events":12,"outcome":{"file":{"info":"/g","path":"/srv/f"}},"reads":[["text","MAIN"],["kind","/srv"],
  ["kind","/srv/f"]],"trail":[["host","",0],["pass",0,"/f/g",""],["map","",0,"/srv/f/g",""],
  ["walk","/srv/f","/g","file"],["section","MAIN",10,"<DirectoryMatch /srv/f$>"],["section","MAIN",16,"<Files [!g]>"],
  ["section","MAIN",18,"<FilesMatch ^f$>"],["section","MAIN",22,"<Location /f>"],["section","MAIN",24,"<Location /f/>"],
  ["section","MAIN",26,"<Location />"],["section","MAIN",32,"<Location ~ g>"],["auth","none"]]}
ask / trail=true
{"events":7,"outcome":{"directory":"/srv/"},"reads":[["text","MAIN"],["kind","/srv"]],"trail":[["host","",0],
  ["pass",0,"/",""],["map","",0,"/srv/",""],["walk","/srv/","","dir"],["section","MAIN",26,"<Location />"],
  ["section","MAIN",28,"<Location /*>"],["auth","none"]]}
ask /fg trail=true
{"events":8,"outcome":{"not_found":true},"reads":[["text","MAIN"],["kind","/srv"],["kind","/srv/fg"]],
  "trail":[["host","",0],["pass",0,"/fg",""],["map","",0,"/srv/fg",""],["walk","/srv/fg","","absent"],
  ["section","MAIN",26,"<Location />"],["section","MAIN",28,"<Location /*>"],["section","MAIN",32,"<Location ~ g>"],
  ["auth","none"]]}
"##,
    // a redirect of a section
    r##"main DocumentRoot /srv\n<Directory />\nRedirect /f /g\n</Directory>\n
file /srv/f
ask /f?q trail=true
{"events":7,"outcome":{"redirect":{"location":"http://localhost/g?q","status":302}},"reads":[["text","MAIN"],
  ["kind","/srv"],["kind","/srv/f"]],"trail":[["host","",0],["pass",0,"/f","q"],["map","",0,"/srv/f",""],
  ["walk","/srv/f","","file"],["section","MAIN",2,"<Directory />"],["auth","none"],
  ["redirect","MAIN",3,"Redirect /f /g"]]}
"##,
    // no line is told of
    r##"main DocumentRoot /srv
/srv/f
ask /f trail=false -> /srv/f
ask /f trail=true
{"events":5,"outcome":{"file":{"info":"","path":"/srv/f"}},"reads":[["text","MAIN"],["kind","/srv"],["kind","/srv/f"]],
  "trail":[["host","",0],["pass",0,"/f",""],["map","",0,"/srv/f",""],["walk","/srv/f","","file"],["auth","none"]]}
{"do":"ask","target":"/\\%c3","trail":true}
{"events":5,"outcome":{"not_found":true},"reads":[["text","MAIN"],["kind","/srv"],["kind","/srv/\\\\\\xc3"]],
  "trail":[["host","",0],["pass",0,"/\\\\\\xc3",""],["map","",0,"/srv/\\\\\\xc3",""],
  ["walk","/srv/\\\\\\xc3","","absent"],["auth","none"]]}
"##,
    // rules and conditions, rounds, a line that is joined, one of another file, and a redirect
    r##"main DocumentRoot /srv\n  Alias /i \\\n   /img  \nRewriteEngine on\nRewriteCond %{REQUEST_METHOD} GET\n
  RewriteRule ^/a(.*) /b$1 [N]\nRedirect /old /new\nInclude /m\n
/m # \n<Files f>\n</Files>\n
/srv/bd/f
/img/f
ask /ad?x trail=true
{"events":10,"outcome":{"directory":"/srv/bd"},"reads":[["kind","/bd"],["text","MAIN"],["text","/m"],["kind","/srv"],
  ["kind","/srv/bd"]],"trail":[["host","",0],["pass",0,"/ad","x"],
  ["cond","MAIN",5,true,"RewriteCond %{REQUEST_METHOD} GET"],["rule","MAIN",6,true,"RewriteRule ^/a(.*) /b$1 [N]"],
  ["text","/bd","x"],["round",2],["rule","MAIN",6,false,"RewriteRule ^/a(.*) /b$1 [N]"],["map","",0,"/srv/bd",""],
  ["walk","/srv/bd","","dir"],["auth","none"]]}
ask /i/f trail=true
{"events":7,"outcome":{"file":{"info":"","path":"/img/f"}},"reads":[["text","MAIN"],["kind","/img"],["kind","/img/f"],
  ["text","/m"]],"trail":[["host","",0],["pass",0,"/i/f",""],["rule","MAIN",6,false,"RewriteRule ^/a(.*) /b$1 [N]"],
  ["map","MAIN",2,"/img/f","Alias /i \\\\\\x0a   /img"],["walk","/img/f","","file"],["section","/m",2,"<Files f>"],
  ["auth","none"]]}
ask /old/x trail=true
{"events":4,"outcome":{"redirect":{"location":"http://localhost/new/x","status":302}},"reads":[["text","MAIN"],
  ["text","/m"]],"trail":[["host","",0],["pass",0,"/old/x",""],["rule","MAIN",6,false,"RewriteRule ^/a(.*) /b$1 [N]"],
  ["redirect","MAIN",7,"Redirect /old /new"]]}
"##,
    // a virtual host, a `.htaccess`, and who may pass
    r##"main DocumentRoot /srv\n<VirtualHost *:80>\nDocumentRoot /www\n</VirtualHost>\n<Directory /www>\n
  AllowOverride All\n</Directory>\n<Location /a>\nRequire all denied\n</Location>\n
/www/.htaccess Require all granted\n
/www/f
ask /f/more trail=true
{"events":7,"outcome":{"file":{"info":"/more","path":"/www/f"}},"reads":[["text","MAIN"],["kind","/www"],
  ["text","/www/.htaccess"],["kind","/www/f"]],"trail":[["host","MAIN",2],["pass",0,"/f/more",""],
  ["map","",0,"/www/f/more",""],["walk","/www/f","/more","file"],["section","MAIN",5,"<Directory /www>"],
  ["section","/www/.htaccess",0,""],["auth","granted"]]}
ask /a trail=true
{"events":8,"outcome":{"status":403},"reads":[["text","MAIN"],["kind","/www"],["text","/www/.htaccess"],
  ["kind","/www/a"]],"trail":[["host","MAIN",2],["pass",0,"/a",""],["map","",0,"/www/a",""],
  ["walk","/www/a","","absent"],["section","MAIN",5,"<Directory /www>"],["section","/www/.htaccess",0,""],
  ["section","MAIN",8,"<Location /a>"],["auth","denied"]]}
"##,
];

#[test]
fn trails_are_printed(rt: HostRuntime) -> Result<(), NoMemory> {
    hold_each(&rt, rt.alloc(), TRAILS)
}
