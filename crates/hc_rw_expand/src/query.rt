ghost use Rattle.std.specs.Prelude.{◌≡◌, ◌<◌, is_some, length, position, IfOk, IfSome, MatchOption};
ghost use Rattle.std.specs.List.{after_first, before_first, list_any};
ghost use Rattle.hc_base.specs.Bytes.{is_question};
ghost use Rattle.hc_rw_expand.specs.Queries.{appended, if_appended, kept, split};

use hc_base::{NoMemory, Text};
use std::alloc::Global;

/// A text without its query, and the query.
#[derive(Drop)]
pub struct Split {
    pub text: Text,
    pub query: Text,
}

impl Clone for Split {
    ghost is_clone = { λ split copy. copy ≡ split };

    fn clone(&self) -> Result<Split, NoMemory> {
        Ok(Split {
            text: self.text.clone()?,
            query: self.query.clone()?,
        })
    }
}

/// Splits a text at its first `?`. What follows it is the query, behind which QSA puts the one from
/// before; a text without `?` leaves the query. QSD drops the one from before (Apache manual, mod_rewrite,
/// "Modifying the Query String"; "RewriteRule Flags"). `NoMemory` where memory is refused.
pub fn split_query(
    alloc: Global,
    text: &Text,
    old: &Text,
    append: bool,
    discard: bool,
) -> Result<Split, NoMemory>
    ensures { IfOk result (λ made. made ≡ split text.now old.now append discard) }
{
    let old = kept(discard, old.as_bytes());
    match cut_at_question(text.as_bytes()) {
        Some((front, new)) => Ok(Split {
            text: Text::copy_of(alloc, front)?,
            query: if_appended(alloc, append, new, old)?,
        }),
        None => Ok(Split {
            text: text.clone()?,
            query: Text::copy_of(alloc, old)?,
        }),
    }
}

// The query from before, where QSD does not drop it.
fn kept(discard: bool, old: &[u8]) -> &[u8]
    ensures { result.now ≡ kept discard old.now }
{
    if discard { &[] } else { old }
}

// What stands before the first `?`, and what follows it.
#[tactic(auto, using(crate::proofs::Cuts::cuts))]
fn cut_at_question(text: &[u8]) -> Option<(&[u8], &[u8])>
    ensures any { is_some result ≡ list_any is_question text.now }
    ensures parts { MatchOption result (before_first is_question text.now ≡ text.now) (λ parts.
        (parts.0.now ≡ before_first is_question text.now) × (parts.1.now ≡ after_first is_question text.now)) }
{
    let Some(place) = first_question(text) else {
        return None;
    };
    let (front, behind) = text.split_at(place);
    Some((front, behind.split_at(1).1))
}

// The place of the first `?`.
fn first_question(text: &[u8]) -> Option<usize>
    ensures value { result ≡ position is_question text.now }
    ensures within { IfSome result (λ place. place < length text.now) }
{
    text.iter().position(|byte| *byte == b'?')
}

// QSA puts the query from before behind the new one.
fn if_appended(alloc: Global, append: bool, new: &[u8], old: &[u8]) -> Result<Text, NoMemory>
    ensures { IfOk result (λ query. query ≡ if_appended append new.now old.now) }
{
    if append {
        appended(alloc, new, old)
    } else {
        Text::copy_of(alloc, new)
    }
}

// The one behind the other, with `&` between them where neither is empty.
fn appended(alloc: Global, new: &[u8], old: &[u8]) -> Result<Text, NoMemory>
    ensures { IfOk result (λ query. query ≡ appended new.now old.now) }
{
    if new.is_empty() {
        return Text::copy_of(alloc, old);
    }
    let mut query = new.to_vec(alloc)?;
    if !old.is_empty() {
        query.push(b'&')?;
        query.extend_from_slice(old)?;
    }
    Ok(Text::from(query))
}
