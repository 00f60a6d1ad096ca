ghost use Rattle.std.specs.Prelude.{◌≡◌, ◌++◌, IfOk, OnOk};
ghost use Rattle.hc_rw_expand.specs.Contexts.{context_of};
ghost use Rattle.hc_rw_expand.specs.LookReads.{piece_reads, reads_in};
ghost use Rattle.hc_rw_expand.specs.Lookups.{filled_with, looked_up, piece_with};
ghost use Rattle.hc_rw_expand.specs.Values.{filling_in};

use crate::context::RwContext;
use crate::filling::StateFilling;
use crate::state::RwState;
use hc_base::{NoMemory, Text};
use hc_model::{Lookups, Piece, Read, Template};
use hc_template::Fills;
use std::alloc::Global;

/// A template with its parts filled in, which are not escaped (Apache manual, mod_rewrite, "Test String",
/// "Substitution" and RewriteMap). `NoMemory` where memory is refused.
pub fn expand<P: Lookups>(
    alloc: Global,
    template: &Template,
    context: &RwContext<'_>,
    state: &RwState,
    look: &P,
) -> Result<Text, NoMemory>
    ensures { IfOk result (λ text.
        text ≡ filled_with (P.values look.now) (filling_in (context_of context.now) state.now) template.now) }
{
    let fills = StateFilling { context, state };
    fill(alloc, template.as_slice(), &fills, look)
}

/// What the look-ups of a template look at (Apache manual, mod_rewrite, RewriteMap): the maps look themselves.
/// `NoMemory` where memory is refused.
pub fn looks_of<P: Lookups>(
    alloc: Global,
    template: &Template,
    look: &P,
) -> Result<Vec<Read>, NoMemory>
    ensures { IfOk result (λ reads. reads.items ≡ reads_in (P.files look.now) template.now) }
{
    looks_in(alloc, template.as_slice(), look)
}

fn fill<F: Fills, P: Lookups>(
    alloc: Global,
    pieces: &[Piece],
    fills: &F,
    look: &P,
) -> Result<Text, NoMemory>
    ensures { IfOk result (λ text. text ≡ filled_with (P.values look.now) (F.filling fills.now) pieces.now) }
{
    let mut text = Vec::new(alloc);
    for piece in pieces {
        push_piece(&mut text, piece, fills, look)?;
    }
    Ok(Text::from(text))
}

fn push_piece<F: Fills, P: Lookups>(
    out: &mut Vec<u8>,
    piece: &Piece,
    fills: &F,
    look: &P,
) -> Result<(), NoMemory>
    ensures { OnOk result (out.new.items
        ≡ out.old.items ++ piece_with (P.values look.now) (F.filling fills.now) piece.now) }
{
    match piece {
        Piece::Bytes(bytes) => out.extend_from_slice(bytes.as_bytes()),
        Piece::Group(number) => fills.push_group(out, *number),
        Piece::CondGroup(number) => fills.push_condition(out, *number),
        Piece::Var(var) => fills.push_variable(out, var),
        Piece::Lookup { map, key, fallback } => {
            push_looked_up(out, map.get(), key.get(), fallback.get(), fills, look)
        }
    }
}

// What a map gives for a key, else the fallback.
fn push_looked_up<F: Fills, P: Lookups>(
    out: &mut Vec<u8>,
    map: &Text,
    key: &Template,
    fallback: &Template,
    fills: &F,
    look: &P,
) -> Result<(), NoMemory>
    ensures { OnOk result (out.new.items ≡ out.old.items
        ++ looked_up (P.values look.now) (F.filling fills.now) map.now key.now fallback.now) }
{
    let alloc = *out.allocator();
    let key = hc_template::expand(alloc, key.as_slice(), fills)?;
    let value = look.value(map.as_bytes(), key.as_bytes())?;
    let text = match value {
        Some(value) => value,
        None => hc_template::expand(alloc, fallback.as_slice(), fills)?,
    };
    out.extend_from_slice(text.as_bytes())
}

fn looks_in<P: Lookups>(alloc: Global, pieces: &[Piece], look: &P) -> Result<Vec<Read>, NoMemory>
    ensures { IfOk result (λ reads. reads.items ≡ reads_in (P.files look.now) pieces.now) }
{
    let mut reads = Vec::new(alloc);
    for piece in pieces {
        push_look(&mut reads, piece, look)?;
    }
    Ok(reads)
}

fn push_look<P: Lookups>(reads: &mut Vec<Read>, piece: &Piece, look: &P) -> Result<(), NoMemory>
    ensures { OnOk result (reads.new.items ≡ reads.old.items ++ piece_reads (P.files look.now) piece.now) }
{
    let Piece::Lookup { map, .. } = piece else {
        return Ok(());
    };
    let Some(path) = look.file(map.get().as_bytes()) else {
        return Ok(());
    };
    let path = Text::copy_of(*reads.allocator(), path)?;
    Ok(reads.push(Read::TextOf(path))?)
}
