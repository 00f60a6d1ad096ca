ghost use Rattle.std.specs.Prelude.{◌≡◌, map};
ghost use Rattle.std.specs.Option.{option_map};
ghost use Rattle.serde_json.specs.View.{view, members_view};
ghost use Rattle.hc_json.specs.CommandView.{field_view, value_view};
ghost use Rattle.hc_json.specs.Forms.{line_from, line_in};
ghost use Rattle.hc_json.specs.Fields.{required, unknown_field, unknown_member};

use hc_base::bytes::is_among;
use serde_json::{Map, Value};

/// The highest number of a line that a command names.
pub(crate) const LAST_LINE: u64 = 4_294_967_295;

/// The first wrong field of a value that is no command.
#[derive(Clone, Copy)]
pub(crate) struct BadField<'v>(pub(crate) &'v str);

/// The text at a key that must be there.
pub(crate) fn required<'v>(value: &'v Value, key: &'v str) -> Result<&'v str, BadField<'v>>
    ensures { field_view result ≡ required key.now (view value.now) }
{
    value.get(key).and_then(Value::as_str).ok_or(BadField(key))
}

/// The number of a line at a key.
pub(crate) fn line_in<'v>(value: &'v Value, key: &'v str) -> Result<u32, BadField<'v>>
    ensures { value_view result ≡ line_in key.now (view value.now) }
{
    value.get(key).and_then(line_from).ok_or(BadField(key))
}

fn line_from(value: &Value) -> Option<u32>
    ensures { result ≡ line_from (view value.now) }
{
    let line = value.as_u64()?;
    if line <= LAST_LINE {
        Some(line as u32)
    } else {
        None
    }
}

/// The first key, in byte order, that is not among the known ones.
pub(crate) fn unknown_field<'v>(value: &'v Value, known: &[&str]) -> Option<&'v str>
    ensures { option_map (λ field. field.now) result
        ≡ unknown_field (map (λ k. k.now) known.now) (view value.now) }
{
    unknown_member(value.as_object()?, known)
}

fn unknown_member<'v>(members: &'v Map<String, Value>, known: &[&str]) -> Option<&'v str>
    ensures { option_map (λ field. field.now) result
        ≡ unknown_member (map (λ k. k.now) known.now) (members_view members.now.entries) }
{
    for (key, _) in members.iter() {
        if !is_among(known, key.as_str()) {
            return Some(key.as_str());
        }
    }
    None
}
