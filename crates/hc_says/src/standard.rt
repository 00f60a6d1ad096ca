ghost use Rattle.std.specs.Prelude.{◌≡◌, ◌++◌, IfOk, map};
ghost use Rattle.hc_says.specs.Says.{built_in};

use crate::modules::Modules;
use hc_base::NoMemory;
use std::alloc::Global;

// The modules that are there without LoadModule, each as the file and as the module.
static BUILT_IN: [&str; 40] = [
    "core.c",
    "core_module",
    "mod_so.c",
    "so_module",
    "mod_alias.c",
    "alias_module",
    "mod_rewrite.c",
    "rewrite_module",
    "mod_authz_core.c",
    "authz_core_module",
    "mod_authz_host.c",
    "authz_host_module",
    "mod_dir.c",
    "dir_module",
    "mod_mime.c",
    "mime_module",
    "mod_log_config.c",
    "log_config_module",
    "mod_headers.c",
    "headers_module",
    "mod_expires.c",
    "expires_module",
    "mod_setenvif.c",
    "setenvif_module",
    "mod_env.c",
    "env_module",
    "mod_deflate.c",
    "deflate_module",
    "mod_filter.c",
    "filter_module",
    "mod_autoindex.c",
    "autoindex_module",
    "mod_negotiation.c",
    "negotiation_module",
    "mod_status.c",
    "status_module",
    "mod_ssl.c",
    "ssl_module",
    "mod_unixd.c",
    "unixd_module",
];

/// The modules that are present before the first line.
pub fn built_in(alloc: Global) -> Result<Modules, NoMemory>
    ensures { IfOk result (λ modules. modules ≡ built_in) }
{
    with_each(Modules::none(alloc), &BUILT_IN)
}

fn with_each(mut modules: Modules, names: &[&str]) -> Result<Modules, NoMemory>
    ensures { IfOk result (λ later. later ≡ modules ++ map (λ name. name.now) names.now) }
{
    for name in names {
        modules = modules.with(name)?;
    }
    Ok(modules)
}
