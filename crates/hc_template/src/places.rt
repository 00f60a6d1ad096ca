ghost use Rattle.std.specs.Prelude.{◌≡◌, ◌+◌, ◌<◌, ◌==◌, drop, length, option_map};
ghost use Rattle.std.specs.Prelude.{position, IfSome};
ghost use Rattle.hc_template.specs.Fronts.{up_to};

/// What stands before the first such byte of a text, and what follows that byte.
pub(crate) fn split_at_first(byte: u8, text: &[u8]) -> Option<(&[u8], &[u8])>
    ensures before { option_map (λ parts. parts.0.now) result ≡ up_to byte text.now }
    ensures behind { IfSome result (λ parts. parts.1.now ≡ drop (length parts.0.now + 1) text.now) }
{
    let Some(end) = first_place(byte, text) else {
        return None;
    };
    let (before, behind) = text.split_at(end);
    Some((before, behind.split_at(1).1))
}

fn first_place(byte: u8, text: &[u8]) -> Option<usize>
    ensures value { result ≡ position (λ each. each == byte) text.now }
    ensures within { IfSome result (λ end. end < length text.now) }
{
    text.iter().position(|each| *each == byte)
}
