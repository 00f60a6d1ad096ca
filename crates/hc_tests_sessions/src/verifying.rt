//! Invariants: cells of states for claims, the condition that is false, and what it names.

use crate::dialogue::hold;
use hc_base::NoMemory;

// Restarts of a `.htaccess`.
static WORDPRESS: &str =
    r##"main DocumentRoot \"/var/www/html\"\n<Directory \"/\">\nRequire all denied\n</Directory>\n
  <Directory \"/var/www/html\">\nOptions FollowSymLinks\nAllowOverride All\nRequire all granted\n</Directory>\n
/var/www/html/.htaccess # BEGIN WordPress\n<IfModule mod_rewrite.c>\nRewriteEngine On\n
  RewriteRule .* - [E=HTTP_AUTHORIZATION:%{HTTP:Authorization}]\nRewriteBase /\n
  RewriteRule ^index\\.php$ - [L]\nRewriteCond %{REQUEST_FILENAME} !-f\nRewriteCond %{REQUEST_FILENAME} !-d\n
  RewriteRule . /index.php [L]\n</IfModule>\n# END WordPress\n
file /var/www/html/index.php
file /var/www/html/a.css
file /var/www/html/wp-admin/admin.php
{"do":"verify","claim":{"kind":"stops"},"scope":{},"cells":[{"at":"pass","rank":1,
  "slots":{"path":{"literal":"/index.php"}}},{"at":"pass","rank":0,"slots":{}}]}
{"accepted":true}
{"do":"verify","claim":{"kind":"stops"},"scope":{},"cells":[{"at":"pass","rank":0,
  "slots":{"path":{"literal":"/index.php"}}},{"at":"pass","rank":0,"slots":{}}]}
{"rejected":{"branch":[["rule","/var/www/html/.htaccess",4,true],["rule","/var/www/html/.htaccess",
  6,false],["cond","/var/www/html/.htaccess",7,true],["cond","/var/www/html/.htaccess",8,true],
  ["rule","/var/www/html/.htaccess",9,true]],"cell":1,"condition":"K4","text":""}}
{"do":"verify","claim":{"kind":"stops"},"scope":{},"cells":[{"at":"pass","rank":1,
  "slots":{"path":{"literal":"/index.html"}}},{"at":"pass","rank":0,
  "slots":{"env:REDIRECT_STATUS":{"literal":""}}}]}
{"rejected":{"branch":[["rule","/var/www/html/.htaccess",4,true],["rule","/var/www/html/.htaccess",
  6,false],["cond","/var/www/html/.htaccess",7,true],["cond","/var/www/html/.htaccess",8,true],
  ["rule","/var/www/html/.htaccess",9,true]],"cell":0,"condition":"K2","text":"/index.php"}}
"##;

#[test]
fn restarts_have_ranks(rt: HostRuntime) -> Result<(), NoMemory> {
    hold(&rt, rt.alloc(), WORDPRESS)
}

// A list of the server that shrinks.
static SHRINKING: &str = r##"main DocumentRoot /srv\nRewriteEngine On\nRewriteRule ^(/.*)x$ $1 [N]\n
/srv/f 
{"do":"verify","claim":{"kind":"stops"},"scope":{"path":{"pattern":"^/[a-z]*$"}},
  "cells":[{"at":"pass","rank":0,"slots":{"path":{"pattern":"^/[a-z]*$"}}},{"at":"server","rank":0,
  "slots":{"text":{"pattern":"^/[a-z]*$"}}}]}
{"accepted":true}
{"do":"verify","claim":{"kind":"stops"},"scope":{"path":{"pattern":"^/[a-z]*$"}},
  "cells":[{"at":"pass","rank":0,"slots":{"path":{"pattern":"^/[a-z]*$"}}},{"at":"server","rank":0,
  "slots":{"text":{"pattern":"^/[a-z]*$"}},"round":1}]}
{"rejected":{"branch":[["rule","MAIN",3,true]],"cell":1,"condition":"K4","text":""}}
{"do":"verify","claim":{"kind":"stops"},"scope":{"path":{"pattern":"^/[a-z]*$"}},
  "cells":[{"at":"pass","rank":1,"slots":{"path":{"pattern":"^/[a-z]*$"}}},{"at":"server","rank":0,
  "slots":{"text":{"pattern":"^/[a-z]*$"}}}]}
{"rejected":{"branch":[["rule","MAIN",3,true]],"cell":0,"condition":"K4","text":""}}
{"do":"verify","claim":{"kind":"stops"},"scope":{"path":{"pattern":"^/[a-z]*$"}},
  "cells":[{"at":"pass","rank":0,"slots":{"path":{"pattern":"^/[a-z]*$"}}},{"at":"server","rank":1,
  "slots":{"text":{"pattern":"^/[a-z]*$"}}}]}
{"accepted":true}
{"do":"verify","claim":{"kind":"stops"},"scope":{"path":{"pattern":"^/[a-z]*$"}},
  "cells":[{"at":"pass","rank":0,"slots":{"path":{"pattern":"^/[a-z]*$"}}},{"at":"server","rank":1000,
  "slots":{"text":{"pattern":"^/[a-z]*$"}}}]}
{"accepted":true}
{"do":"verify","claim":{"kind":"stops"},"scope":{"path":{"pattern":"^/[a-z]*$"}},
  "cells":[{"at":"pass","rank":0,"slots":{"path":{"pattern":"^/[a-z]*$"}}}]}
{"rejected":{"branch":[["rule","MAIN",3,true]],"cell":0,"condition":"K2","text":""}}
{"do":"verify","claim":{"kind":"stops"},"scope":{"path":{"pattern":"^/[a-z]*$"}},
  "cells":[{"at":"pass","rank":0,"slots":{"path":{"pattern":"^/[a-z]*$"}}},{"at":"server","rank":0,
  "slots":{"text":{"pattern":"^/[a-w]*$"}}}]}
{"rejected":{"branch":[["rule","MAIN",3,true]],"cell":0,"condition":"K2","text":"/x"}}
{"do":"verify","claim":{"kind":"stops"},"scope":{"path":{"pattern":"^/[a-z]*$"}},
  "cells":[{"at":"pass","rank":0,"slots":{"path":{"pattern":"^/[a-z]*$"}}},{"at":"server","rank":0,
  "slots":{"text":{"pattern":"^/[a-w]*$"}}},{"at":"server","rank":0,
  "slots":{"text":{"pattern":"^/[a-z]*$"}}}]}
{"accepted":true}
{"do":"verify","claim":{"kind":"stops"},"scope":{"path":{"pattern":"^/[a-z]*$"}},
  "cells":[{"at":"server","rank":0,"slots":{"text":{"pattern":"^/[a-z]*$"}}}]}
{"rejected":{"branch":[],"cell":0,"condition":"K1","text":""}}
{"do":"verify","claim":{"kind":"stops"},"scope":{"path":{"pattern":"^/[a-z]*$"}},
  "cells":[{"at":"pass","rank":0,"slots":{"path":{"pattern":"^/[a-w]*$"}}},{"at":"server","rank":0,
  "slots":{"text":{"pattern":"^/[a-z]*$"}}}]}
{"rejected":{"branch":[],"cell":0,"condition":"K1","text":"/x"}}
{"do":"verify","claim":{"kind":"stops"},"scope":{"path":{"pattern":"^/[a-z]*$"}},"cells":[]}
{"rejected":{"branch":[],"cell":0,"condition":"K1","text":""}}
{"do":"verify","claim":{"kind":"stops"},"scope":{"path":{"pattern":"^/[a-z]*$"}},
  "cells":[{"at":"pass","rank":0,"slots":{"path":{"minus":[{"pattern":"^/[a-z]*$"},
  {"pattern":"^/[a-z]*$"}]}}},{"at":"pass","rank":0,"slots":{"path":{"pattern":"^/[a-z]*$"}}},
  {"at":"server","rank":0,"slots":{"text":{"pattern":"^/[a-z]*$"}}}]}
{"accepted":true}
"##;

#[test]
fn rounds_may_shorten(rt: HostRuntime) -> Result<(), NoMemory> {
    hold(&rt, rt.alloc(), SHRINKING)
}

// Numbers of cells.
static LIMITS: &str = r##"main DocumentRoot /srv\nRewriteEngine On\nRewriteRule ^(/.*)x$ $1 [N]\n
/srv/f 
{"do":"verify","claim":{"kind":"stops"},"scope":{"path":{"pattern":"^/[a-z]*$"}},
  "cells":[{"at":"pass","rank":0,"slots":{"path":{"pattern":"^/[a-z]*$"}}},{"at":"pass","rank":0,
  "slots":{"path":{"pattern":"^/[a-z]*$"}}},{"at":"pass","rank":0,
  "slots":{"path":{"pattern":"^/[a-z]*$"}}},{"at":"pass","rank":0,
  "slots":{"path":{"pattern":"^/[a-z]*$"}}},{"at":"pass","rank":0,
  "slots":{"path":{"pattern":"^/[a-z]*$"}}},{"at":"pass","rank":0,
  "slots":{"path":{"pattern":"^/[a-z]*$"}}},{"at":"pass","rank":0,
  "slots":{"path":{"pattern":"^/[a-z]*$"}}},{"at":"pass","rank":0,
  "slots":{"path":{"pattern":"^/[a-z]*$"}}},{"at":"pass","rank":0,
  "slots":{"path":{"pattern":"^/[a-z]*$"}}},{"at":"pass","rank":0,
  "slots":{"path":{"pattern":"^/[a-z]*$"}}},{"at":"pass","rank":0,
  "slots":{"path":{"pattern":"^/[a-z]*$"}}},{"at":"pass","rank":0,
  "slots":{"path":{"pattern":"^/[a-z]*$"}}},{"at":"pass","rank":0,
  "slots":{"path":{"pattern":"^/[a-z]*$"}}},{"at":"pass","rank":0,
  "slots":{"path":{"pattern":"^/[a-z]*$"}}},{"at":"pass","rank":0,
  "slots":{"path":{"pattern":"^/[a-z]*$"}}},{"at":"pass","rank":0,
  "slots":{"path":{"pattern":"^/[a-z]*$"}}},{"at":"pass","rank":0,
  "slots":{"path":{"pattern":"^/[a-z]*$"}}},{"at":"pass","rank":0,
  "slots":{"path":{"pattern":"^/[a-z]*$"}}},{"at":"pass","rank":0,
  "slots":{"path":{"pattern":"^/[a-z]*$"}}},{"at":"pass","rank":0,
  "slots":{"path":{"pattern":"^/[a-z]*$"}}},{"at":"pass","rank":0,
  "slots":{"path":{"pattern":"^/[a-z]*$"}}},{"at":"pass","rank":0,
  "slots":{"path":{"pattern":"^/[a-z]*$"}}},{"at":"pass","rank":0,
  "slots":{"path":{"pattern":"^/[a-z]*$"}}},{"at":"pass","rank":0,
  "slots":{"path":{"pattern":"^/[a-z]*$"}}},{"at":"pass","rank":0,
  "slots":{"path":{"pattern":"^/[a-z]*$"}}},{"at":"pass","rank":0,
  "slots":{"path":{"pattern":"^/[a-z]*$"}}},{"at":"pass","rank":0,
  "slots":{"path":{"pattern":"^/[a-z]*$"}}},{"at":"pass","rank":0,
  "slots":{"path":{"pattern":"^/[a-z]*$"}}},{"at":"pass","rank":0,
  "slots":{"path":{"pattern":"^/[a-z]*$"}}},{"at":"pass","rank":0,
  "slots":{"path":{"pattern":"^/[a-z]*$"}}},{"at":"pass","rank":0,
  "slots":{"path":{"pattern":"^/[a-z]*$"}}},{"at":"pass","rank":0,
  "slots":{"path":{"pattern":"^/[a-z]*$"}}},{"at":"pass","rank":0,
  "slots":{"path":{"pattern":"^/[a-z]*$"}}},{"at":"pass","rank":0,
  "slots":{"path":{"pattern":"^/[a-z]*$"}}},{"at":"pass","rank":0,
  "slots":{"path":{"pattern":"^/[a-z]*$"}}},{"at":"pass","rank":0,
  "slots":{"path":{"pattern":"^/[a-z]*$"}}},{"at":"pass","rank":0,
  "slots":{"path":{"pattern":"^/[a-z]*$"}}},{"at":"pass","rank":0,
  "slots":{"path":{"pattern":"^/[a-z]*$"}}},{"at":"pass","rank":0,
  "slots":{"path":{"pattern":"^/[a-z]*$"}}},{"at":"pass","rank":0,
  "slots":{"path":{"pattern":"^/[a-z]*$"}}},{"at":"pass","rank":0,
  "slots":{"path":{"pattern":"^/[a-z]*$"}}},{"at":"pass","rank":0,
  "slots":{"path":{"pattern":"^/[a-z]*$"}}},{"at":"pass","rank":0,
  "slots":{"path":{"pattern":"^/[a-z]*$"}}},{"at":"pass","rank":0,
  "slots":{"path":{"pattern":"^/[a-z]*$"}}},{"at":"pass","rank":0,
  "slots":{"path":{"pattern":"^/[a-z]*$"}}},{"at":"pass","rank":0,
  "slots":{"path":{"pattern":"^/[a-z]*$"}}},{"at":"pass","rank":0,
  "slots":{"path":{"pattern":"^/[a-z]*$"}}},{"at":"pass","rank":0,
  "slots":{"path":{"pattern":"^/[a-z]*$"}}},{"at":"pass","rank":0,
  "slots":{"path":{"pattern":"^/[a-z]*$"}}},{"at":"pass","rank":0,
  "slots":{"path":{"pattern":"^/[a-z]*$"}}},{"at":"pass","rank":0,
  "slots":{"path":{"pattern":"^/[a-z]*$"}}},{"at":"pass","rank":0,
  "slots":{"path":{"pattern":"^/[a-z]*$"}}},{"at":"pass","rank":0,
  "slots":{"path":{"pattern":"^/[a-z]*$"}}},{"at":"pass","rank":0,
  "slots":{"path":{"pattern":"^/[a-z]*$"}}},{"at":"pass","rank":0,
  "slots":{"path":{"pattern":"^/[a-z]*$"}}},{"at":"pass","rank":0,
  "slots":{"path":{"pattern":"^/[a-z]*$"}}},{"at":"pass","rank":0,
  "slots":{"path":{"pattern":"^/[a-z]*$"}}},{"at":"pass","rank":0,
  "slots":{"path":{"pattern":"^/[a-z]*$"}}},{"at":"pass","rank":0,
  "slots":{"path":{"pattern":"^/[a-z]*$"}}},{"at":"pass","rank":0,
  "slots":{"path":{"pattern":"^/[a-z]*$"}}},{"at":"pass","rank":0,
  "slots":{"path":{"pattern":"^/[a-z]*$"}}},{"at":"pass","rank":0,
  "slots":{"path":{"pattern":"^/[a-z]*$"}}},{"at":"pass","rank":0,
  "slots":{"path":{"pattern":"^/[a-z]*$"}}},{"at":"server","rank":0,
  "slots":{"text":{"pattern":"^/[a-z]*$"}}}]}
{"accepted":true}
{"do":"verify","claim":{"kind":"stops"},"scope":{"path":{"pattern":"^/[a-z]*$"}},
  "cells":[{"at":"pass","rank":0,"slots":{"path":{"pattern":"^/[a-z]*$"}}},{"at":"pass","rank":0,
  "slots":{"path":{"pattern":"^/[a-z]*$"}}},{"at":"pass","rank":0,
  "slots":{"path":{"pattern":"^/[a-z]*$"}}},{"at":"pass","rank":0,
  "slots":{"path":{"pattern":"^/[a-z]*$"}}},{"at":"pass","rank":0,
  "slots":{"path":{"pattern":"^/[a-z]*$"}}},{"at":"pass","rank":0,
  "slots":{"path":{"pattern":"^/[a-z]*$"}}},{"at":"pass","rank":0,
  "slots":{"path":{"pattern":"^/[a-z]*$"}}},{"at":"pass","rank":0,
  "slots":{"path":{"pattern":"^/[a-z]*$"}}},{"at":"pass","rank":0,
  "slots":{"path":{"pattern":"^/[a-z]*$"}}},{"at":"pass","rank":0,
  "slots":{"path":{"pattern":"^/[a-z]*$"}}},{"at":"pass","rank":0,
  "slots":{"path":{"pattern":"^/[a-z]*$"}}},{"at":"pass","rank":0,
  "slots":{"path":{"pattern":"^/[a-z]*$"}}},{"at":"pass","rank":0,
  "slots":{"path":{"pattern":"^/[a-z]*$"}}},{"at":"pass","rank":0,
  "slots":{"path":{"pattern":"^/[a-z]*$"}}},{"at":"pass","rank":0,
  "slots":{"path":{"pattern":"^/[a-z]*$"}}},{"at":"pass","rank":0,
  "slots":{"path":{"pattern":"^/[a-z]*$"}}},{"at":"pass","rank":0,
  "slots":{"path":{"pattern":"^/[a-z]*$"}}},{"at":"pass","rank":0,
  "slots":{"path":{"pattern":"^/[a-z]*$"}}},{"at":"pass","rank":0,
  "slots":{"path":{"pattern":"^/[a-z]*$"}}},{"at":"pass","rank":0,
  "slots":{"path":{"pattern":"^/[a-z]*$"}}},{"at":"pass","rank":0,
  "slots":{"path":{"pattern":"^/[a-z]*$"}}},{"at":"pass","rank":0,
  "slots":{"path":{"pattern":"^/[a-z]*$"}}},{"at":"pass","rank":0,
  "slots":{"path":{"pattern":"^/[a-z]*$"}}},{"at":"pass","rank":0,
  "slots":{"path":{"pattern":"^/[a-z]*$"}}},{"at":"pass","rank":0,
  "slots":{"path":{"pattern":"^/[a-z]*$"}}},{"at":"pass","rank":0,
  "slots":{"path":{"pattern":"^/[a-z]*$"}}},{"at":"pass","rank":0,
  "slots":{"path":{"pattern":"^/[a-z]*$"}}},{"at":"pass","rank":0,
  "slots":{"path":{"pattern":"^/[a-z]*$"}}},{"at":"pass","rank":0,
  "slots":{"path":{"pattern":"^/[a-z]*$"}}},{"at":"pass","rank":0,
  "slots":{"path":{"pattern":"^/[a-z]*$"}}},{"at":"pass","rank":0,
  "slots":{"path":{"pattern":"^/[a-z]*$"}}},{"at":"pass","rank":0,
  "slots":{"path":{"pattern":"^/[a-z]*$"}}},{"at":"pass","rank":0,
  "slots":{"path":{"pattern":"^/[a-z]*$"}}},{"at":"pass","rank":0,
  "slots":{"path":{"pattern":"^/[a-z]*$"}}},{"at":"pass","rank":0,
  "slots":{"path":{"pattern":"^/[a-z]*$"}}},{"at":"pass","rank":0,
  "slots":{"path":{"pattern":"^/[a-z]*$"}}},{"at":"pass","rank":0,
  "slots":{"path":{"pattern":"^/[a-z]*$"}}},{"at":"pass","rank":0,
  "slots":{"path":{"pattern":"^/[a-z]*$"}}},{"at":"pass","rank":0,
  "slots":{"path":{"pattern":"^/[a-z]*$"}}},{"at":"pass","rank":0,
  "slots":{"path":{"pattern":"^/[a-z]*$"}}},{"at":"pass","rank":0,
  "slots":{"path":{"pattern":"^/[a-z]*$"}}},{"at":"pass","rank":0,
  "slots":{"path":{"pattern":"^/[a-z]*$"}}},{"at":"pass","rank":0,
  "slots":{"path":{"pattern":"^/[a-z]*$"}}},{"at":"pass","rank":0,
  "slots":{"path":{"pattern":"^/[a-z]*$"}}},{"at":"pass","rank":0,
  "slots":{"path":{"pattern":"^/[a-z]*$"}}},{"at":"pass","rank":0,
  "slots":{"path":{"pattern":"^/[a-z]*$"}}},{"at":"pass","rank":0,
  "slots":{"path":{"pattern":"^/[a-z]*$"}}},{"at":"pass","rank":0,
  "slots":{"path":{"pattern":"^/[a-z]*$"}}},{"at":"pass","rank":0,
  "slots":{"path":{"pattern":"^/[a-z]*$"}}},{"at":"pass","rank":0,
  "slots":{"path":{"pattern":"^/[a-z]*$"}}},{"at":"pass","rank":0,
  "slots":{"path":{"pattern":"^/[a-z]*$"}}},{"at":"pass","rank":0,
  "slots":{"path":{"pattern":"^/[a-z]*$"}}},{"at":"pass","rank":0,
  "slots":{"path":{"pattern":"^/[a-z]*$"}}},{"at":"pass","rank":0,
  "slots":{"path":{"pattern":"^/[a-z]*$"}}},{"at":"pass","rank":0,
  "slots":{"path":{"pattern":"^/[a-z]*$"}}},{"at":"pass","rank":0,
  "slots":{"path":{"pattern":"^/[a-z]*$"}}},{"at":"pass","rank":0,
  "slots":{"path":{"pattern":"^/[a-z]*$"}}},{"at":"pass","rank":0,
  "slots":{"path":{"pattern":"^/[a-z]*$"}}},{"at":"pass","rank":0,
  "slots":{"path":{"pattern":"^/[a-z]*$"}}},{"at":"pass","rank":0,
  "slots":{"path":{"pattern":"^/[a-z]*$"}}},{"at":"pass","rank":0,
  "slots":{"path":{"pattern":"^/[a-z]*$"}}},{"at":"pass","rank":0,
  "slots":{"path":{"pattern":"^/[a-z]*$"}}},{"at":"pass","rank":0,
  "slots":{"path":{"pattern":"^/[a-z]*$"}}},{"at":"pass","rank":0,
  "slots":{"path":{"pattern":"^/[a-z]*$"}}},{"at":"server","rank":0,
  "slots":{"text":{"pattern":"^/[a-z]*$"}}}]}
{"rejected":{"branch":[],"cell":64,"condition":"K5","text":""}}
"##;

#[test]
fn cells_have_limits(rt: HostRuntime) -> Result<(), NoMemory> {
    hold(&rt, rt.alloc(), LIMITS)
}

// Forms of cells.
static FORMS: &str = r##"main DocumentRoot /srv\nRewriteEngine On\nRewriteRule ^(/.*)x$ $1 [N]\n
{"do":"verify","claim":{"kind":"stops"},"scope":{"path":{"pattern":"^/[a-z]*$"}},
  "cells":[{"at":"pass","rank":0,"slots":{"path":{"pattern":"^/[a-z]*$"}}},{"at":"server","rank":1001,
  "slots":{}}]}
{"refused":{"at":0,"code":46,"field":"cells","file":"","line":0,"name":"BadCommand"}}
{"do":"verify","claim":{"kind":"stops"},"scope":{"path":{"pattern":"^/[a-z]*$"}},
  "cells":[{"at":"pass","rank":0,"slots":{"path":{"pattern":"^/[a-z]*$"}}},{"at":"server","rank":0,
  "slots":{"text":{"pattern":"^/[a-z]*$"}},"round":31999}]}
{"rejected":{"branch":[["rule","MAIN",3,true]],"cell":0,"condition":"K4","text":""}}
{"do":"verify","claim":{"kind":"stops"},"scope":{"path":{"pattern":"^/[a-z]*$"}},
  "cells":[{"at":"pass","rank":0,"slots":{"path":{"pattern":"^/[a-z]*$"}}},{"at":"server","rank":0,
  "slots":{},"round":32000}]}
{"refused":{"at":0,"code":46,"field":"cells","file":"","line":0,"name":"BadCommand"}}
{"do":"verify","claim":{"kind":"stops"},"scope":{"path":{"pattern":"^/[a-z]*$"}},
  "cells":[{"at":"pass","rank":0,"slots":{"path":{"pattern":"^/[a-z]*$"}}},{"at":"server","rank":0,
  "slots":{},"round":0}]}
{"refused":{"at":0,"code":46,"field":"cells","file":"","line":0,"name":"BadCommand"}}
{"do":"verify","claim":{"kind":"stops"},"scope":{"path":{"pattern":"^/[a-z]*$"}},
  "cells":[{"at":"pass","rank":0,"slots":{},"round":1}]}
{"refused":{"at":0,"code":46,"field":"cells","file":"","line":0,"name":"BadCommand"}}
{"do":"verify","claim":{"kind":"stops"},"scope":{"path":{"pattern":"^/[a-z]*$"}},
  "cells":[{"at":"pass","rank":0,"slots":{"foo":{"pattern":"^/[a-z]*$"}}}]}
{"refused":{"at":0,"code":46,"field":"cells","file":"","line":0,"name":"BadCommand"}}
{"do":"verify","claim":{"kind":"stops"},"scope":{"path":{"pattern":"^/[a-z]*$"}},
  "cells":[{"at":"pass","rank":0,"slots":{"header:Accept":{"pattern":"^/[a-z]*$"},
  "header:accept":{"pattern":"^/[a-z]*$"}}}]}
{"refused":{"at":0,"code":46,"field":"cells","file":"","line":0,"name":"BadCommand"}}
{"do":"verify","claim":{"kind":"stops"},"scope":{"path":{"pattern":"^/[a-z]*$"}},
  "cells":[{"at":"foo","rank":0,"slots":{}}]}
{"refused":{"at":0,"code":46,"field":"cells","file":"","line":0,"name":"BadCommand"}}
{"do":"verify","claim":{"kind":"stops"},"scope":{"path":{"pattern":"^/[a-z]*$"}},
  "cells":[{"at":"pass","rank":0}]}
{"refused":{"at":0,"code":46,"field":"cells","file":"","line":0,"name":"BadCommand"}}
{"do":"verify","claim":{"kind":"stops"},"scope":{"path":{"pattern":"^/[a-z]*$"}}}
{"refused":{"at":0,"code":46,"field":"cells","file":"","line":0,"name":"BadCommand"}}
{"do":"verify","claim":{"kind":"stops"},"scope":{"path":{"pattern":"^/[a-z]*$"}},
  "cells":[{"at":"pass","rank":0,"slots":{"path":3}}]}
{"refused":{"at":0,"code":44,"field":"cells","file":"","line":0,"name":"SetSyntax"}}
{"do":"verify","claim":{"kind":"stops"},"scope":{"path":{"pattern":"^/[a-z]*$"}},
  "cells":[{"at":"pass","rank":0,"slots":{"path":{"x":1}}}]}
{"refused":{"at":0,"code":44,"field":"cells","file":"","line":0,"name":"SetSyntax"}}
{"do":"verify","claim":{"kind":"stops"},"scope":{"path":{"pattern":"^/[a-z]*$"}},
  "cells":[{"at":"pass","rank":0,"slots":{"path":{"pattern":"("}}}]}
{"refused":{"at":0,"code":14,"field":"cells","file":"","line":0,"name":"PatternSyntax"}}
"##;

#[test]
fn cells_have_forms(rt: HostRuntime) -> Result<(), NoMemory> {
    hold(&rt, rt.alloc(), FORMS)
}

// Other claims.
static CLAIMS: &str = r##"main DocumentRoot /srv\nRewriteEngine On\nRewriteRule ^(/.*)x$ $1 [N]\n
/srv/f 
{"do":"verify","claim":{"kind":"shadowed","file":"MAIN","line":3},
  "scope":{"path":{"pattern":"^/[a-z]*$"}},"cells":[{"at":"pass","rank":0,
  "slots":{"path":{"pattern":"^/[a-z]*$"}}},{"at":"server","rank":0,
  "slots":{"text":{"pattern":"^/[a-z]*$"}}}]}
{"rejected":{"branch":[["rule","MAIN",3,true]],"cell":0,"condition":"K3","text":""}}
{"do":"verify","claim":{"kind":"shadowed","file":"MAIN","line":2},
  "scope":{"path":{"pattern":"^/[a-z]*$"}},"cells":[{"at":"pass","rank":0,
  "slots":{"path":{"pattern":"^/[a-z]*$"}}},{"at":"server","rank":0,
  "slots":{"text":{"pattern":"^/[a-z]*$"}}}]}
{"refused":{"at":0,"code":48,"field":"","file":"","line":0,"name":"NoSuchPlace"}}
{"do":"verify","claim":{"kind":"shadowed","file":"MAIN","line":3},
  "scope":{"path":{"pattern":"^/[a-w]*$"}},"cells":[{"at":"pass","rank":0,
  "slots":{"path":{"pattern":"^/[a-w]*$"}}}]}
{"accepted":true}
"##;

#[test]
fn other_claims(rt: HostRuntime) -> Result<(), NoMemory> {
    hold(&rt, rt.alloc(), CLAIMS)
}

// A list that doesn't shrink.
static GROWING: &str = r##"main DocumentRoot /srv\nRewriteEngine On\nRewriteRule ^(/.*)x$ $1yy [N]\n
/srv/f 
{"do":"verify","claim":{"kind":"stops"},"scope":{"path":{"pattern":"^/[a-z]*$"}},
  "cells":[{"at":"pass","rank":0,"slots":{"path":{"pattern":"^/[a-z]*$"}}},{"at":"server","rank":0,
  "slots":{"text":{"pattern":"^/[a-z]*$"}}}]}
{"rejected":{"branch":[["rule","MAIN",3,true]],"cell":0,"condition":"K4","text":""}}
"##;

#[test]
fn rounds_grow_no_text(rt: HostRuntime) -> Result<(), NoMemory> {
    hold(&rt, rt.alloc(), GROWING)
}

// Rounds that are counted.
static BOUNDED: &str = r##"main DocumentRoot /srv\nRewriteEngine On\nRewriteRule ^(/.*)x$ $1 [N=3]\n
/srv/f 
{"do":"verify","claim":{"kind":"stops"},"scope":{"path":{"minus":[{"pattern":"^/[a-z]*$"},
  {"pattern":"xxx$"}]}},"cells":[{"at":"pass","rank":0,
  "slots":{"path":{"minus":[{"pattern":"^/[a-z]*$"},{"pattern":"xxx$"}]}}},{"at":"server","rank":0,
  "slots":{"text":{"minus":[{"pattern":"^/[a-z]*$"},{"pattern":"x$"}]}},"round":2},{"at":"server",
  "rank":0,"slots":{"text":{"minus":[{"pattern":"^/[a-z]*$"},{"pattern":"xx$"}]}},"round":1}]}
{"accepted":true}
{"do":"verify","claim":{"kind":"stops"},"scope":{"path":{"minus":[{"pattern":"^/[a-z]*$"},
  {"pattern":"xxx$"}]}},"cells":[{"at":"pass","rank":0,
  "slots":{"path":{"minus":[{"pattern":"^/[a-z]*$"},{"pattern":"xxx$"}]}}},{"at":"server","rank":0,
  "slots":{"text":{"minus":[{"pattern":"^/[a-z]*$"},{"pattern":"x$"}]}},"round":3},{"at":"server",
  "rank":0,"slots":{"text":{"minus":[{"pattern":"^/[a-z]*$"},{"pattern":"xx$"}]}},"round":1}]}
{"rejected":{"branch":[["rule","MAIN",3,true]],"cell":2,"condition":"K4","text":""}}
{"do":"verify","claim":{"kind":"stops"},"scope":{"path":{"pattern":"^/[a-z]*$"}},
  "cells":[{"at":"pass","rank":0,"slots":{"path":{"pattern":"^/[a-z]*$"}}},{"at":"server","rank":0,
  "slots":{"text":{"pattern":"^/[a-z]*$"}}}]}
{"rejected":{"branch":[["rule","MAIN",3,true]],"cell":0,"condition":"K4","text":""}}
"##;

#[test]
fn rounds_are_counted(rt: HostRuntime) -> Result<(), NoMemory> {
    hold(&rt, rt.alloc(), BOUNDED)
}

// The list of a directory.
static DIRECTORY: &str =
    r##"main DocumentRoot /srv\n<Directory /srv>\nAllowOverride All\n</Directory>\n
/srv/.htaccess RewriteEngine On\nRewriteBase /\nRewriteRule ^(.*)x$ $1 [N,DPI]\n
/srv/f 
{"do":"verify","claim":{"kind":"stops"},"scope":{"path":{"pattern":"^/[a-z]*$"}},
  "cells":[{"at":"pass","rank":1,"slots":{"path":{"minus":[{"pattern":"^/[a-z]*$"},
  {"pattern":"x$"}]}}},{"at":"pass","rank":0,"slots":{"path":{"pattern":"^/[a-z]*$"}}},{"at":"/srv",
  "rank":0,"slots":{"text":{"pattern":"^/srv/[a-z]*$"},"path":{"pattern":"^/[a-z]*$"},
  "info":{"literal":""}}}]}
{"accepted":true}
{"do":"verify","claim":{"kind":"stops"},"scope":{},"cells":[{"at":"pass","rank":0,"slots":{}},
  {"at":"/srv","rank":0,"slots":{}}]}
{"rejected":{"branch":[["rule","/srv/.htaccess",3,false]],"cell":1,"condition":"K2","text":""}}
/srv/.htaccess RewriteEngine On\nRewriteBase /\nRewriteRule ^(.*)x$ $1 [N]\n
{"do":"verify","claim":{"kind":"stops"},"scope":{"path":{"pattern":"^/[a-z]*$"}},
  "cells":[{"at":"pass","rank":1,"slots":{"path":{"minus":[{"pattern":"^/[a-z]*$"},
  {"pattern":"x$"}]}}},{"at":"pass","rank":0,"slots":{"path":{"pattern":"^/[a-z]*$"}}},{"at":"/srv",
  "rank":0,"slots":{"text":{"pattern":"^/srv/[a-z]*$"},"path":{"pattern":"^/[a-z]*$"},
  "info":{"literal":""}}}]}
{"rejected":{"branch":[["rule","/srv/.htaccess",3,true]],"cell":1,"condition":"K4","text":""}}
/srv/.htaccess RewriteEngine On\nRewriteBase /\nRewriteRule ^([a-z]*)x$ $1$1 [N,DPI]\n
{"do":"verify","claim":{"kind":"stops"},"scope":{"path":{"pattern":"^/[a-z]*$"}},
  "cells":[{"at":"pass","rank":1,"slots":{"path":{"minus":[{"pattern":"^/[a-z]*$"},
  {"pattern":"x$"}]}}},{"at":"pass","rank":0,"slots":{"path":{"pattern":"^/[a-z]*$"}}},{"at":"/srv",
  "rank":0,"slots":{"text":{"pattern":"^/srv/[a-z]*$"},"path":{"pattern":"^/[a-z]*$"},
  "info":{"literal":""}}}]}
{"rejected":{"branch":[["rule","/srv/.htaccess",3,true]],"cell":1,"condition":"K4","text":""}}
"##;

#[test]
fn directories_have_lists(rt: HostRuntime) -> Result<(), NoMemory> {
    hold(&rt, rt.alloc(), DIRECTORY)
}
