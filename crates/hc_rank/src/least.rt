//! The bytes that a match takes outside the used groups.
ghost use Rattle.std.specs.Prelude.{◌≡◌, ◌^◌, ◌-◌, ℕ, List, min};
ghost use Rattle.hc_pattern.specs.Pattern.{pattern_of};
ghost use Rattle.hc_rank.specs.Ranks.{counted, least_rest};
ghost use Rattle.hc_rank.specs.Sets.{IsSetOf};

use hc_pattern::{ByteSet, Pat};

/// The least number of bytes that a match takes outside the used groups. It stops growing at 4,294,967,295. Takes no
/// memory.
pub fn rest(pat: &Pat, used: &[u8]) -> u32
    ensures { result ≡ counted (least_rest used.now (pattern_of pat.now)) }
{
    rest_outside(pat, set_of(used)).min(u128::from(u32::MAX)) as u32
}

/// The numbers as a set.
fn set_of(used: &[u8]) -> ByteSet
    ensures { IsSetOf result used.now }
{
    let mut set = ByteSet::empty();
    for number in used {
        set = set.with(*number);
    }
    set
}

/// The same count for a set of used groups. It stops growing at the greatest number of 128 bits, which is more than any
/// template adds.
pub(crate) fn rest_outside(pat: &Pat, set: ByteSet) -> u128
    ensures { (used : List ℕ) → IsSetOf set used
        → result ≡ min (2 ^ 128 - 1) (least_rest used (pattern_of pat.now)) }
{
    match pat {
        Pat::Empty | Pat::Start | Pat::Finish => 0,
        Pat::Byte(_) | Pat::Class(_) => 1,
        Pat::Cat(first, second) => {
            let before = rest_outside(first, set);
            before.saturating_add(rest_outside(second, set))
        }
        Pat::Alt(first, second) => rest_outside(first, set).min(rest_outside(second, set)),
        Pat::Group(number, body) => {
            if set.has(*number) {
                0
            } else {
                rest_outside(body, set)
            }
        }
        Pat::Repeat(body, least, _, _) => {
            let turn = rest_outside(body, set);
            u128::from(*least).saturating_mul(turn)
        }
    }
}
