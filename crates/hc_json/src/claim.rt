ghost use Rattle.std.specs.Prelude.{◌≡◌, ◌∷◌, [], Ok, codes};
ghost use Rattle.serde_json.specs.View.{view};
ghost use Rattle.hc_json.specs.Claims.{claim_from, claim_in, guarded_in, place_in, shadowed_in, stops};
ghost use Rattle.hc_json.specs.CommandView.{claim_field_view, place_field_view};
ghost use Rattle.hc_json.specs.Fields.{no_other};

use crate::fields::{BadField, line_in, required, unknown_field};
use serde_json::Value;

/// The place of a line that a claim speaks of.
#[derive(Clone, Copy)]
pub struct PlaceForm<'v> {
    pub file: &'v str,
    pub line: u32,
}

/// What is claimed of all requests of a scope. It borrows from the JSON value that it is read from.
#[derive(Clone, Copy)]
pub enum ClaimForm<'v> {
    /// No run reaches a limit.
    Stops,
    /// The RewriteRule of a line matches no request.
    Shadowed(PlaceForm<'v>),
    /// Where a file or directory of a set of names is given, the Require line of a place was in force. The set is as
    /// it is written.
    Guarded {
        target: &'v Value,
        by: PlaceForm<'v>,
    },
}

/// The claim of a command. Whatever is wrong within it, `claim` is the wrong field.
pub(crate) fn claim_in(value: &Value) -> Result<ClaimForm<'_>, BadField<'_>>
    ensures { claim_field_view result ≡ claim_in (view value.now) }
{
    let Some(own) = value.get("claim") else {
        return Err(BadField("claim"));
    };
    match claim_from(own) {
        Ok(claim) => Ok(claim),
        Err(_) => Err(BadField("claim")),
    }
}

fn claim_from(value: &Value) -> Result<ClaimForm<'_>, BadField<'_>>
    ensures { claim_field_view result ≡ claim_from (view value.now) }
{
    match required(value, "kind")? {
        "stops" => stops_from(value),
        "shadowed" => shadowed_from(value),
        "guarded" => guarded_from(value),
        _ => Err(BadField("kind")),
    }
}

fn stops_from(value: &Value) -> Result<ClaimForm<'_>, BadField<'_>>
    ensures { claim_field_view result ≡ no_other (codes "kind" ∷ []) (view value.now) (Ok stops) }
{
    match unknown_field(value, &["kind"]) {
        Some(field) => Err(BadField(field)),
        None => Ok(ClaimForm::Stops),
    }
}

fn shadowed_from(value: &Value) -> Result<ClaimForm<'_>, BadField<'_>>
    ensures { claim_field_view result
        ≡ no_other (codes "kind" ∷ codes "file" ∷ codes "line" ∷ []) (view value.now)
        (shadowed_in (view value.now)) }
{
    if let Some(field) = unknown_field(value, &["kind", "file", "line"]) {
        return Err(BadField(field));
    }
    Ok(ClaimForm::Shadowed(place_in(value)?))
}

fn guarded_from(value: &Value) -> Result<ClaimForm<'_>, BadField<'_>>
    ensures { claim_field_view result ≡ no_other
        (codes "kind" ∷ codes "target" ∷ codes "file" ∷ codes "line" ∷ []) (view value.now)
        (guarded_in (view value.now)) }
{
    if let Some(field) = unknown_field(value, &["kind", "target", "file", "line"]) {
        return Err(BadField(field));
    }
    let target = value.get("target").ok_or(BadField("target"))?;
    let by = place_in(value)?;
    Ok(ClaimForm::Guarded { target, by })
}

fn place_in(value: &Value) -> Result<PlaceForm<'_>, BadField<'_>>
    ensures { place_field_view result ≡ place_in (view value.now) }
{
    let file = required(value, "file")?;
    let line = line_in(value, "line")?;
    Ok(PlaceForm { file, line })
}
