ghost use Rattle.std.specs.Prelude.{◌≡◌};
ghost use Rattle.hc_texts.specs.Texts.{begins_below};
ghost use Rattle.hc_world.specs.Edits.{is_within};

/// The path, and what lies below it.
pub(crate) fn is_within(path: &[u8], other: &[u8]) -> bool
    ensures { result ≡ is_within path.now other.now }
{
    match other.strip_prefix(path) {
        Some(rest) => begins_below(rest),
        None => false,
    }
}

// What stands behind a path is nothing, or begins with a slash.
fn begins_below(rest: &[u8]) -> bool
    ensures { result ≡ begins_below rest.now }
{
    match rest {
        [] => true,
        [first, ..] => *first == b'/',
    }
}
