//! Headers of a request.
ghost use Rattle.std.specs.Prelude.{◌≡◌, [], ◌&&◌, IfOk};
ghost use Rattle.std.specs.Str.{str_to_ascii_lowercase};
ghost use Rattle.hc_forms.specs.Forms.{is_name, is_value};
ghost use Rattle.hc_members.specs.Requests.{are_headers};

use hc_base::{NoMemory, Text};
use hc_forms::{is_name, is_value};
use hc_model::Header;
use std::alloc::Global;
use std::collections::BTreeSet;

/// Each is a header, and no two names are equal without case.
pub(crate) fn are_headers(alloc: Global, headers: &[Header]) -> Result<bool, NoMemory>
    ensures { IfOk result (λ are. are ≡ are_headers [] headers.now) }
{
    let mut names = BTreeSet::new(alloc);
    for header in headers {
        if !is_header(header) {
            return Ok(false);
        }
        if !names.insert(lower_name(alloc, header)?)? {
            return Ok(false);
        }
    }
    Ok(true)
}

fn is_header(header: &Header) -> bool
    ensures { result ≡ (is_name header.now.name && is_value header.now.value) }
{
    is_name(header.name.as_bytes()) && is_value(header.value.as_bytes())
}

fn lower_name(alloc: Global, header: &Header) -> Result<Text, NoMemory>
    ensures { IfOk result (λ lower. lower ≡ str_to_ascii_lowercase header.now.name) }
{
    Ok(Text::from(header.name.as_bytes().to_ascii_lowercase(alloc)?))
}
