ghost use Rattle.std.specs.Prelude.{◌≡◌, ◌<◌, ◌≤◌, ◌++◌, true};
ghost use Rattle.std.specs.Prelude.{false, drop, length, string_bytes, take};
ghost use Rattle.std.specs.Prelude.{IfOk, IfSome, MatchOption};
ghost use Rattle.hc_lines.specs.Words.{is_quote, unescaped};
ghost use Rattle.hc_lines.specs.WordsView.{begins_escape, escapable_view, quote_view, spelled_len};

use crate::cut::{cut_before, cut_behind};
use hc_base::bytes::is_blank;
use hc_base::{CowStr, NoMemory};
use std::alloc::Global;

#[derive(Clone, Copy)]
pub(crate) enum Quote {
    Double,
    Single,
}

impl Quote {
    pub(crate) fn of(byte: u8) -> Option<Quote>
        ensures { MatchOption result (is_quote byte ≡ false)
            (λ quote. (is_quote byte ≡ true) × (byte ≡ quote_view quote)) }
    {
        match byte {
            b'"' => Some(Quote::Double),
            b'\'' => Some(Quote::Single),
            _ => None,
        }
    }

    pub(crate) fn byte(self) -> u8
        ensures { result ≡ quote_view self }
    {
        match self {
            Quote::Double => b'"',
            Quote::Single => b'\'',
        }
    }
}

// What a backslash makes plain.
#[derive(Clone, Copy)]
pub(crate) enum Escapable {
    // The backslash.
    Backslash,
    // The backslash and this quote.
    Within(Quote),
    // The blanks.
    Blank,
}

impl Escapable {
    // The text with the backslashes dropped that make a byte plain.
    pub(crate) fn unescaped<'t>(self, alloc: Global, text: &'t str) -> Result<CowStr<'t>, NoMemory>
        ensures { IfOk result (λ made. made ≡ unescaped (escapable_view self) text.now) }
    {
        match self.split_escape(text) {
            None => Ok(CowStr::from(text)),
            Some(_) => Ok(CowStr::from(self.made(alloc, text)?)),
        }
    }

    // The same as a text of its own.
    pub(crate) fn made(self, alloc: Global, text: &str) -> Result<String, NoMemory>
        ensures { IfOk result (λ made. string_bytes made ≡ unescaped (escapable_view self) text.now) }
    {
        let mut made = String::with_capacity(alloc, text.len())?;
        let mut rest = text;
        while let Some((front, kept, behind)) = self.split_escape(rest) {
            made.push_str(front)?;
            made.push_str(kept)?;
            rest = behind;
        }
        made.push_str(rest)?;
        Ok(made)
    }

    // What stands before the first backslash that makes a byte plain, that byte, and what follows.
    pub(crate) fn split_escape<'t>(self, text: &'t str) -> Option<(&'t str, &'t str, &'t str)>
        ensures shorter { IfSome result (λ parts. length parts.2.now < length text.now) }
        ensures value { MatchOption result (unescaped (escapable_view self) text.now ≡ text.now)
            (λ parts. unescaped (escapable_view self) text.now
            ≡ parts.0.now ++ parts.1.now ++ unescaped (escapable_view self) parts.2.now) }
    {
        let at = self.first_escape(text.as_bytes())?;
        let (kept, behind) = cut_behind(cut_behind(text, at).1, 0);
        Some((cut_before(text, at).0, kept, behind))
    }

    pub(crate) fn first_escape(self, bytes: &[u8]) -> Option<usize>
        ensures value { MatchOption result (unescaped (escapable_view self) bytes.now ≡ bytes.now)
            (λ at. unescaped (escapable_view self) bytes.now
            ≡ take at bytes.now ++ unescaped (escapable_view self) (drop at bytes.now)) }
        ensures escape { IfSome result (λ at. begins_escape (escapable_view self) (drop at bytes.now) ≡ true) }
    {
        for index in 0..bytes.len() {
            if self.begins(&bytes[index..]) {
                return Some(index);
            }
        }
        None
    }

    // With how many bytes the first byte is spelled.
    pub(crate) fn spelled_len(self, bytes: &[u8]) -> usize
        requires { 0 < length bytes.now }
        ensures value { result ≡ spelled_len (escapable_view self) bytes.now }
        ensures some { 0 < result }
        ensures within { result ≤ length bytes.now }
    {
        if self.begins(bytes) { 2 } else { 1 }
    }

    // The bytes begin with a backslash that makes the next one plain.
    pub(crate) fn begins(self, bytes: &[u8]) -> bool
        ensures value { result ≡ begins_escape (escapable_view self) bytes.now }
        ensures two { result ≡ true → 2 ≤ length bytes.now }
    {
        match bytes {
            [b'\\', next, ..] => self.has(*next),
            _ => false,
        }
    }

    pub(crate) fn has(self, byte: u8) -> bool
        ensures { result ≡ escapable_view self byte }
    {
        match self {
            Escapable::Backslash => byte == b'\\',
            Escapable::Within(quote) => byte == b'\\' || byte == quote.byte(),
            Escapable::Blank => is_blank(byte),
        }
    }
}
