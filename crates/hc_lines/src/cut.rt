ghost use Rattle.std.specs.Prelude.{◌≡◌, ◌+◌, ◌<◌, ◌≤◌, drop, length, slice_index, take};

/// The text before a byte of ASCII, or before its end, and what follows from there on.
pub fn cut_before<'t>(text: &'t str, at: usize) -> (&'t str, &'t str)
    requires within { at ≤ length text.now }
    requires ascii { at < length text.now → slice_index text.now at < 128 }
    ensures front { result.0.now ≡ take at text.now }
    ensures back { result.1.now ≡ drop at text.now }
{
    text.split_at(at)
}

/// The text up to a byte of ASCII with that byte, and what follows behind it.
pub fn cut_behind<'t>(text: &'t str, at: usize) -> (&'t str, &'t str)
    requires within { at < length text.now }
    requires ascii { slice_index text.now at < 128 }
    ensures front { result.0.now ≡ take (at + 1) text.now }
    ensures back { result.1.now ≡ drop (at + 1) text.now }
{
    text.split_at(at + 1)
}
