//! The own servers to which redirects are followed.
ghost use Rattle.std.specs.Prelude.{◌≡◌, IfOk, map};
ghost use Rattle.hc_ends.specs.Asking.{HaveNames};
ghost use Rattle.serde_json.specs.View.{items_view};
ghost use Rattle.hc_json.specs.CommandView.{host_view};
ghost use Rattle.hc_json.specs.Hosts.{hosts_of};
ghost use Rattle.hc_session.specs.Following.{origin_of};

use hc_base::{NoMemory, Text};
use hc_follow::Origin;
use hc_json::{HostForm, hosts_of};
use serde_json::Value;
use std::alloc::Global;

/// The own servers that these values are.
pub(crate) fn origins_in(alloc: Global, values: &[Value]) -> Result<Vec<Origin>, NoMemory>
    ensures origins { IfOk result (λ origins. origins.items ≡ map origin_of (hosts_of (items_view values.now))) }
    ensures named { IfOk result (λ origins. HaveNames origins.items) }
{
    let forms = hosts_of(alloc, values)?;
    origins_of(alloc, forms.as_slice())
}

fn origins_of(alloc: Global, forms: &[HostForm<'_>]) -> Result<Vec<Origin>, NoMemory>
    ensures { IfOk result (λ origins. origins.items ≡ map origin_of (map host_view forms.now)) }
{
    let mut origins = Vec::with_capacity(alloc, forms.len())?;
    for form in forms {
        origins.push(Origin {
            scheme: form.scheme,
            host: Text::copy_of(alloc, form.host.as_bytes())?,
            port: form.port,
        })?;
    }
    Ok(origins)
}
