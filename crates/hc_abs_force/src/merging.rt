//! Which sections set something that is merged (Apache manual, "Configuration Sections", "How the sections are
//! merged").
ghost use Rattle.std.specs.Prelude.{◌≡◌};
ghost use Rattle.std.specs.List.{list_any};
ghost use Rattle.hc_model.specs.declared.section.Body.{out-Body};
ghost use Rattle.hc_abs_force.specs.Merging.{merges, section_merges, sets};

use hc_base::List;
use hc_model::{Body, Section};

/// Whether a section, or one inside it at any depth, sets something that is merged: an Options line, Require lines,
/// mod_rewrite, a Redirect.
#[cycle(merges)]
pub fn merges(body: &Body) -> bool
    ensures { result ≡ merges body.now }
{
    if sets(body) {
        return true;
    }
    some_merges(&body.inner)
}

#[cycle(merges)]
fn some_merges(sections: &List<Section>) -> bool
    ensures { result ≡ list_any section_merges sections.now }
{
    for section in sections.as_slice() {
        if merges(&section.body) {
            return true;
        }
    }
    false
}

/// Whether the body itself does.
fn sets(body: &Body) -> bool
    ensures { result ≡ sets (out-Body body.now) }
{
    !body.options.as_slice().is_empty()
        || body.require.is_some()
        || body.rewrites
        || !body.redirects.as_slice().is_empty()
}
