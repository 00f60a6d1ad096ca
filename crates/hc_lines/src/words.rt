ghost use Rattle.std.specs.Prelude.{◌≡◌, ◌==◌, ◌+◌, ◌<◌, ◌≤◌, ◌++◌};
ghost use Rattle.std.specs.Prelude.{true, false, drop, length, position, slice_index};
ghost use Rattle.std.specs.Prelude.{string_bytes, take, IfOk, IfSome, MatchOption, MatchResult};
ghost use Rattle.std.specs.List.{position_or_len};
ghost use Rattle.hc_base.specs.Gives.{GivesList};
ghost use Rattle.hc_base.specs.Lines.{is_blank};
ghost use Rattle.hc_lines.specs.Words.{conf_spelling, first_word, is_quote, quoted_word, read_words, rewrite_spelling};
ghost use Rattle.hc_lines.specs.Words.{skip_blanks, unclosed, unescaped, unescaped_blank, unescaped_quote};
ghost use Rattle.hc_lines.specs.WordsView.{begins_escape, escapable_view, first_view, quote_view};
ghost use Rattle.hc_lines.specs.WordsView.{said, spelled_len, spelling_view};

use crate::cut::{cut_before, cut_behind};
use crate::escape::{Escapable, Quote};
use hc_base::bytes::is_blank;
use hc_base::codes::UNCLOSED_QUOTE;
use hc_base::{AtByte, CowStr, Fault, NoMemory};
use std::alloc::Global;

/// A quoted word without its end (6), at byte 0.
pub type WordFault = Fault<AtByte>;

const UNCLOSED: WordFault = Fault::Refused(AtByte {
    code: UNCLOSED_QUOTE,
    at: 0,
});

/// The words of a directive's line (Apache manual, "Configuration Files"): blanks separate them, and
/// one in quotes may have blanks. A backslash before a backslash is dropped, and in quotes one
/// before that quote; this and that a word ends at its closing quote is our own choice. A word is
/// lent from the text where no backslash was dropped.
pub fn conf_words<'t>(alloc: Global, text: &'t str) -> Result<Vec<CowStr<'t>>, WordFault>
    ensures { GivesList result (read_words conf_spelling text.now) }
{
    words(Spelling::Conf, alloc, text)
}

/// The words of a rewriting directive's line, which are lent from the text: every backslash stays,
/// and one before a blank outside of quotes keeps that blank in the word. Our own choice.
pub fn rewrite_words<'t>(alloc: Global, text: &'t str) -> Result<Vec<CowStr<'t>>, WordFault>
    ensures { GivesList result (read_words rewrite_spelling text.now) }
{
    words(Spelling::Rewrite, alloc, text)
}

#[tactic(auto, unfolding(crate::specs::Words::read_words))]
fn words<'t>(spelling: Spelling, alloc: Global, text: &'t str) -> Result<Vec<CowStr<'t>>, WordFault>
    ensures { GivesList result (read_words (spelling_view spelling) text.now) }
{
    let mut words = Vec::new(alloc);
    let mut rest = text;
    while let Some(piece) = spelling.first_piece(rest)? {
        words.push(spelling.said(alloc, piece.quote, piece.word)?)?;
        rest = piece.rest;
    }
    Ok(words)
}

// A word as it is spelled, without the quotes that it may stand in, and what follows it.
#[derive(Clone, Copy)]
struct Spelled<'t> {
    quote: Option<Quote>,
    word: &'t str,
    rest: &'t str,
}

// How words are spelled.
#[derive(Clone, Copy)]
enum Spelling {
    Conf,
    Rewrite,
}

impl Spelling {
    // The word that the text begins with behind its blanks, if there is one.
    fn first_piece<'t>(self, text: &'t str) -> Result<Option<Spelled<'t>>, WordFault>
        ensures { MatchResult result
            (λ piece. first_word (spelling_view self) (skip_blanks text.now) ≡ first_view (spelling_view self) piece)
            (λ fault. (fault ≡ UNCLOSED) × (first_word (spelling_view self) (skip_blanks text.now) ≡ unclosed)) }
    {
        let text = skip_blanks(text);
        let Some(first) = text.as_bytes().first() else {
            return Ok(None);
        };
        match Quote::of(*first) {
            Some(quote) => self.quoted_piece(quote, cut_behind(text, 0).1),
            None => Ok(Some(self.plain_piece(text))),
        }
    }

    // The quoted word, in what follows its first quote.
    fn quoted_piece<'t>(self, quote: Quote, text: &'t str) -> Result<Option<Spelled<'t>>, WordFault>
        ensures { let closing = (spelling_view self).closing (quote_view quote) text.now in
            let first = quoted_word (spelling_view self) (quote_view quote) text.now closing in
            MatchResult result
            (λ piece. first ≡ first_view (spelling_view self) piece)
            (λ fault. (fault ≡ UNCLOSED) × (first ≡ unclosed)) }
    {
        match self.closing(quote, text.as_bytes()) {
            None => Err(UNCLOSED),
            Some(end) => Ok(Some(Spelled {
                quote: Some(quote),
                word: cut_before(text, end).0,
                rest: cut_behind(text, end).1,
            })),
        }
    }

    fn plain_piece<'t>(self, text: &'t str) -> Spelled<'t>
        ensures quote { result.quote ≡ None }
        ensures word { result.word.now ≡ take ((spelling_view self).plain_end text.now) text.now }
        ensures rest { result.rest.now ≡ drop ((spelling_view self).plain_end text.now) text.now }
    {
        let (word, rest) = cut_before(text, self.plain_end(text.as_bytes()));
        Spelled {
            quote: None,
            word,
            rest,
        }
    }

    // How many bytes the word without quotes has that the bytes begin with.
    fn plain_end(self, bytes: &[u8]) -> usize
        ensures value { result ≡ (spelling_view self).plain_end bytes.now }
        ensures within { result ≤ length bytes.now }
        ensures ascii { result < length bytes.now → slice_index bytes.now result < 128 }
    {
        match self {
            Spelling::Conf => first_blank(bytes),
            Spelling::Rewrite => unescaped_blank(bytes),
        }
    }

    // Where this quote closes a word, in what follows the quote that begins it.
    fn closing(self, quote: Quote, bytes: &[u8]) -> Option<usize>
        ensures value { result ≡ (spelling_view self).closing (quote_view quote) bytes.now }
        ensures within { IfSome result (λ end. end < length bytes.now) }
        ensures is_quote { IfSome result (λ end. slice_index bytes.now end ≡ quote_view quote) }
    {
        match self {
            Spelling::Conf => unescaped_quote(quote, bytes),
            Spelling::Rewrite => first_quote(quote, bytes),
        }
    }

    // What a word says that stands in these quotes, or in none.
    fn said<'t>(
        self,
        alloc: Global,
        quote: Option<Quote>,
        word: &'t str,
    ) -> Result<CowStr<'t>, NoMemory>
        ensures { IfOk result (λ text. text ≡ said (spelling_view self) quote word.now) }
    {
        match (self, quote) {
            (Spelling::Conf, None) => Escapable::Backslash.unescaped(alloc, word),
            (Spelling::Conf, Some(quote)) => Escapable::Within(quote).unescaped(alloc, word),
            (Spelling::Rewrite, _) => Ok(CowStr::from(word)),
        }
    }
}

// The bytes that a backslash before them makes plain.
// The first such quote that no backslash makes plain.
fn unescaped_quote(quote: Quote, bytes: &[u8]) -> Option<usize>
    ensures value { result ≡ unescaped_quote (quote_view quote) bytes.now }
    ensures within { IfSome result (λ end. end < length bytes.now) }
    ensures is_quote { IfSome result (λ end. slice_index bytes.now end ≡ quote_view quote) }
{
    let mut index = 0;
    while index < bytes.len() {
        if bytes[index] == quote.byte() {
            return Some(index);
        }
        index += Escapable::Within(quote).spelled_len(&bytes[index..]);
    }
    None
}

fn first_quote(quote: Quote, bytes: &[u8]) -> Option<usize>
    ensures value { result ≡ position (λ b. b == quote_view quote) bytes.now }
    ensures within { IfSome result (λ end. end < length bytes.now) }
    ensures is_quote { IfSome result (λ end. slice_index bytes.now end ≡ quote_view quote) }
{
    let quote = quote.byte();
    bytes.iter().position(|byte| *byte == quote)
}

// How many bytes come before the first blank that no backslash makes plain.
fn unescaped_blank(bytes: &[u8]) -> usize
    ensures value { result ≡ unescaped_blank bytes.now }
    ensures within { result ≤ length bytes.now }
    ensures ascii { result < length bytes.now → slice_index bytes.now result < 128 }
{
    let mut index = 0;
    while index < bytes.len() {
        if is_blank(bytes[index]) {
            return index;
        }
        index += Escapable::Blank.spelled_len(&bytes[index..]);
    }
    bytes.len()
}

// How many bytes come before the first blank.
fn first_blank(bytes: &[u8]) -> usize
    ensures value { result ≡ position_or_len is_blank bytes.now }
    ensures within { result ≤ length bytes.now }
    ensures ascii { result < length bytes.now → slice_index bytes.now result < 128 }
{
    for (index, byte) in bytes.iter().enumerate() {
        if is_blank(*byte) {
            return index;
        }
    }
    bytes.len()
}

/// The text behind its first blanks.
pub fn skip_blanks(text: &str) -> &str
    ensures { result.now ≡ skip_blanks text.now }
{
    for (index, byte) in text.as_bytes().iter().enumerate() {
        if !is_blank(*byte) {
            return text.split_at(index).1;
        }
    }
    ""
}
