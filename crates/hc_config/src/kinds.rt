ghost use Rattle.std.specs.Prelude.{◌≡◌};
ghost use Rattle.hc_config.specs.Kinds.{is_transparent};

use hc_table::{Meaning, SectionName};

/// A section in which rules stand as if they stood around it: `<IfDefine>`, `<IfModule>` and the containers of
/// Require (Apache manual, core and mod_authz_core).
pub(crate) fn is_transparent(meaning: Option<Meaning>) -> bool
    ensures { result ≡ is_transparent meaning }
{
    matches!(
        meaning,
        Some(Meaning::Section(
            SectionName::IfDefine
                | SectionName::IfModule
                | SectionName::RequireAll
                | SectionName::RequireAny
                | SectionName::RequireNone
        ))
    )
}
