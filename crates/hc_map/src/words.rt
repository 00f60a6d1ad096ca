ghost use Rattle.std.specs.Prelude.{◌≡◌, ◌<◌, [], ◌∷◌, length, not, position, IfSome, MatchOption};
ghost use Rattle.std.specs.List.{after_first, before_first};
ghost use Rattle.hc_base.specs.Lines.{between_blanks, is_blank};

use hc_base::bytes::is_blank;

/// The first word of a line, and what follows the blank behind it; none where the line has no word.
#[tactic(auto, using(crate::proofs::Blanks::first_of_words, crate::proofs::Blanks::no_words))]
pub(crate) fn first_word(line: &[u8]) -> Option<(&[u8], &[u8])>
    ensures { MatchOption result (between_blanks line.now ≡ [])
        (λ parts. between_blanks line.now ≡ parts.0.now ∷ between_blanks parts.1.now) }
{
    match first_other(line) {
        Some(start) => Some(split_word(line.split_at(start).1)),
        None => None,
    }
}

// The place of the first byte that is no blank.
fn first_other(line: &[u8]) -> Option<usize>
    ensures value { result ≡ position (λ b. not (is_blank b)) line.now }
    ensures within { IfSome result (λ start. start < length line.now) }
{
    line.iter().position(|byte| !is_blank(*byte))
}

// The place of the first blank.
fn first_blank(words: &[u8]) -> Option<usize>
    ensures value { result ≡ position is_blank words.now }
    ensures within { IfSome result (λ end. end < length words.now) }
{
    words.iter().position(|byte| is_blank(*byte))
}

// What stands before the first blank, and what follows that.
#[tactic(auto, using(crate::proofs::Blanks::cut_there, crate::proofs::Blanks::cut_nowhere))]
fn split_word(words: &[u8]) -> (&[u8], &[u8])
    ensures word { result.0.now ≡ before_first is_blank words.now }
    ensures behind { result.1.now ≡ after_first is_blank words.now }
{
    let Some(end) = first_blank(words) else {
        return (words, &[]);
    };
    let (word, behind) = words.split_at(end);
    (word, behind.split_at(1).1)
}
