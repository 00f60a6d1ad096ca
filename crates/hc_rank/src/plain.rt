//! Templates that hold each used part of a match once.
ghost use Rattle.std.specs.Prelude.{◌≡◌, ◌<◌, ◌^◌, ◌∷◌, ◌&&◌, ℕ, List, Some};
ghost use Rattle.hc_pattern.specs.Pattern.{pattern_of};
ghost use Rattle.hc_model.specs.declared.template.Piece.{Piece};
ghost use Rattle.hc_rank.specs.Ranks.{added, bytes_in, has_used, is_used, nests};
ghost use Rattle.hc_rank.specs.Sets.{AreGroups, IsSetOf};

use hc_model::Piece;
use hc_pattern::{ByteSet, Pat};

/// Whether a used group stands in the pattern.
fn has_used(pat: &Pat, set: ByteSet) -> bool
    ensures { (used : List ℕ) → IsSetOf set used → result ≡ has_used used (pattern_of pat.now) }
{
    match pat {
        Pat::Empty | Pat::Byte(_) | Pat::Class(_) | Pat::Start | Pat::Finish => false,
        Pat::Cat(first, second) | Pat::Alt(first, second) => has_used(first, set)
            || has_used(second, set),
        Pat::Group(number, body) => set.has(*number) || has_used(body, set),
        Pat::Repeat(body, _, _, _) => has_used(body, set),
    }
}

/// Whether a group is used, and a used group stands in its body.
fn is_around(number: u8, body: &Pat, set: ByteSet) -> bool
    ensures { (used : List ℕ) → IsSetOf set used
        → result ≡ (is_used used number && has_used used (pattern_of body.now)) }
{
    set.has(number) && has_used(body, set)
}

/// Whether a used group lies inside another one.
pub(crate) fn nests(pat: &Pat, set: ByteSet) -> bool
    ensures { (used : List ℕ) → IsSetOf set used → result ≡ nests used (pattern_of pat.now) }
{
    match pat {
        Pat::Empty | Pat::Byte(_) | Pat::Class(_) | Pat::Start | Pat::Finish => false,
        Pat::Cat(first, second) | Pat::Alt(first, second) => nests(first, set)
            || nests(second, set),
        Pat::Group(number, body) => is_around(*number, body, set) || nests(body, set),
        Pat::Repeat(body, _, _, _) => nests(body, set),
    }
}

/// The groups of a template that holds nothing but bytes and groups, each group once and none of them the whole match.
pub(crate) fn groups_of(template: &[Piece]) -> Option<ByteSet>
    ensures { AreGroups result template.now }
{
    let mut groups = Some(ByteSet::empty());
    let mut left = template.len();
    while left > 0 {
        left -= 1;
        groups = with_piece(groups, &template[left]);
    }
    groups
}

/// The groups of a piece and of those behind it.
#[tactic(auto, using(crate::proofs::Groups::never_plain))]
fn with_piece(groups: Option<ByteSet>, piece: &Piece) -> Option<ByteSet>
    ensures { (template : List Piece) → AreGroups groups template → AreGroups result (piece.now ∷ template) }
{
    let set = groups?;
    match piece {
        Piece::Bytes(_) => Some(set),
        Piece::Group(number) => {
            if *number > 0 && !set.has(*number) {
                Some(set.with(*number))
            } else {
                None
            }
        }
        _ => None,
    }
}

/// How many bytes a template adds.
pub(crate) fn added(template: &[Piece]) -> u128
    ensures number { result ≡ added template.now }
    ensures bound { result < 2 ^ 127 }
{
    let mut count = 0;
    for piece in template {
        count += bytes_in(piece);
    }
    count
}

fn bytes_in(piece: &Piece) -> u128
    ensures number { result ≡ bytes_in piece.now }
    ensures bound { result < 2 ^ 64 }
{
    match piece {
        Piece::Bytes(text) => text.as_bytes().len() as u128,
        _ => 0,
    }
}
