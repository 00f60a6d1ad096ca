ghost use Rattle.std.specs.Prelude.{◌≡◌, IfOk};
ghost use Rattle.hc_says.specs.Says.{with_define, with_module, with_root};

use crate::defines::Defines;
use crate::modules::Modules;
use crate::says::Says;
use crate::utf8::Utf8;
use hc_base::NoMemory;

/// The Define lines behind a directive that says this.
pub fn with_define(defines: Defines, says: &Says) -> Result<Defines, NoMemory>
    ensures { IfOk result (λ later. later ≡ with_define defines says.now) }
{
    match says {
        Says::Define { name, value: None } => defines.with_name(name.as_str()),
        Says::Define {
            name,
            value: Some(value),
        } => defines.with_value(name.as_str(), value.as_str()),
        _ => Ok(defines),
    }
}

/// The modules behind a directive that says this.
pub fn with_module(modules: Modules, says: &Says) -> Result<Modules, NoMemory>
    ensures { IfOk result (λ later. later ≡ with_module modules says.now) }
{
    match says {
        Says::Loads(name) => modules.with(name.as_str()),
        _ => Ok(modules),
    }
}

/// The server root behind a directive that says this.
pub fn with_root(root: Option<Utf8>, says: Says) -> Option<Utf8>
    ensures { result ≡ with_root root says }
{
    match says {
        Says::Roots(path) => Some(path),
        _ => root,
    }
}
