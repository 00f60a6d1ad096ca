ghost use Rattle.std.specs.Prelude.{◌≡◌, IfOk};

use hc_base::{Boxed, List, NoMemory, Text};
use hc_table::Variable;

/// A text with parts that are filled in where it is used (Apache manual, mod_rewrite, "Test String"
/// and "Substitution").
pub type Template = List<Piece>;

/// A part of a template.
#[derive(Drop)]
pub enum Piece {
    /// These bytes.
    Bytes(Text),
    /// `$0` to `$9`: what a group of the rule's pattern matched, or of that of an AliasMatch or a
    /// RedirectMatch.
    Group(u8),
    /// `%0` to `%9`: what a group of the last condition's pattern matched.
    CondGroup(u8),
    /// `%{NAME}`.
    Var(Var),
    /// `${map:key|fallback}` (Apache manual, mod_rewrite, RewriteMap). Its parts stand in blocks of
    /// their own: most pieces are bytes.
    Lookup {
        map: Boxed<Text>,
        key: Boxed<Template>,
        fallback: Boxed<Template>,
    },
}

/// A variable (Apache manual, mod_rewrite, RewriteCond).
#[derive(Clone, Drop)]
pub enum Var {
    /// `HTTP:name`.
    Header(Text),
    /// `ENV:name`.
    Env(Text),
    Named(Variable),
}

impl Clone for Piece {
    ghost is_clone = { λ piece copy. copy ≡ piece };

    fn clone(&self) -> Result<Piece, NoMemory> {
        copy_piece(self)
    }
}

#[cycle(copy)]
fn copy_piece(piece: &Piece) -> Result<Piece, NoMemory>
    ensures { IfOk result (λ copy. copy ≡ piece.now) }
{
    match piece {
        Piece::Bytes(bytes) => Ok(Piece::Bytes(bytes.clone()?)),
        Piece::Group(number) => Ok(Piece::Group(*number)),
        Piece::CondGroup(number) => Ok(Piece::CondGroup(*number)),
        Piece::Var(var) => Ok(Piece::Var(var.clone()?)),
        Piece::Lookup { map, key, fallback } => Ok(Piece::Lookup {
            map: map.copy()?,
            key: copy_boxed(key)?,
            fallback: copy_boxed(fallback)?,
        }),
    }
}

#[cycle(copy)]
fn copy_boxed(pieces: &Boxed<Template>) -> Result<Boxed<Template>, NoMemory>
    ensures { IfOk result (λ copy. copy ≡ pieces.now) }
{
    Boxed::new(pieces.allocator(), copy_pieces(pieces.get())?)
}

#[cycle(copy)]
fn copy_pieces(pieces: &Template) -> Result<Template, NoMemory>
    ensures { IfOk result (λ copy. copy ≡ pieces.now) }
{
    let mut copy = List::new(pieces.allocator());
    for piece in pieces.as_slice() {
        copy.push(copy_piece(piece)?)?;
    }
    Ok(copy)
}

/// A copy of a template that may not be there.
pub(crate) fn copy_template(template: &Option<Template>) -> Result<Option<Template>, NoMemory>
    ensures { IfOk result (λ copy. copy ≡ template.now) }
{
    match template {
        Some(pieces) => Ok(Some(pieces.copy()?)),
        None => Ok(None),
    }
}
