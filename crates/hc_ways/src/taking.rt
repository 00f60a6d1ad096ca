ghost use Rattle.std.specs.Prelude.{◌≡◌};
ghost use Rattle.hc_pattern.specs.Pattern.{pattern_of};
ghost use Rattle.hc_ways.specs.Taking.{takes_a_byte};

use hc_pattern::Pat;

/// As far as its form tells, each way of the pattern takes at least one byte.
pub fn takes_a_byte(pat: &Pat) -> bool
    ensures { result ≡ takes_a_byte (pattern_of pat.now) }
{
    match pat {
        Pat::Empty | Pat::Start | Pat::Finish => false,
        Pat::Byte(_) | Pat::Class(_) => true,
        Pat::Cat(first, second) => takes_a_byte(first) || takes_a_byte(second),
        Pat::Alt(first, second) => takes_a_byte(first) && takes_a_byte(second),
        Pat::Group(_, body) => takes_a_byte(body),
        Pat::Repeat(body, least, _, _) => *least > 0 && takes_a_byte(body),
    }
}
