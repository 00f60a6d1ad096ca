ghost use Rattle.std.specs.Prelude.{◌≡◌, ◌≤◌, length, take, drop};
ghost use Rattle.hc_kept_lines.specs.Runs.{Parts};

use hc_lines::cut_behind;

/// A text before a place at which a logical line ends, and behind it.
pub(crate) fn split_line(text: &str, at: usize) -> (&str, &str)
    requires inside { at ≤ length text.now }
    requires parts { Parts (take at text.now) (drop at text.now) }
    ensures line { result.0.now ≡ take at text.now }
    ensures behind { result.1.now ≡ drop at text.now }
{
    if at == 0 {
        return ("", text);
    }
    if at == text.len() {
        return (text, "");
    }
    cut_behind(text, at - 1)
}
