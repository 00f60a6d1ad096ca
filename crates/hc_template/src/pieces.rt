ghost use Rattle.std.specs.Prelude.{◌≡◌, [], ◌∷◌, ◌++◌, IfOk, OnOk};
ghost use Rattle.hc_base.specs.Bytes.{brace_open};
ghost use Rattle.hc_template.specs.Fronts.{Adds, AddsCut, cut, cut_of, part_of, with_run};
ghost use Rattle.hc_template.specs.Reading.{lookup_sign, name_part};

use crate::front::{Front, Sign};
use crate::lookup::read_lookup;
use crate::signs::{Names, Signs};
use crate::variables::named_by;
use hc_base::codes::UNSUPPORTED_VARIABLE;
use hc_base::{AtByte, Fault, List, NoMemory, Text};
use hc_model::{Piece, Template};
use std::alloc::Global;
use std::mem::replace;

/// What was read of a template: its pieces, and the bytes behind them. Bytes that stand beside each other
/// are one piece.
#[derive(Drop)]
pub(crate) struct Pieces {
    pub(crate) done: Template,
    pub(crate) run: Vec<u8>,
}

impl Pieces {
    /// Nothing was read so far.
    pub(crate) fn new(alloc: Global) -> Pieces
        ensures done { result.done ≡ [] }
        ensures run { result.run.items ≡ [] }
    {
        Pieces {
            done: List::new(alloc),
            run: Vec::new(alloc),
        }
    }

    /// Adds what a sign stands for, or answers its refusal. What follows the sign is answered.
    pub(crate) fn add_sign<'t>(
        &mut self,
        signs: Signs,
        sign: Sign<'t>,
    ) -> Result<&'t [u8], Fault<AtByte>>
        ensures { AddsCut result self.old self.new
            (cut_of (lookup_sign signs) signs.names sign.entry.front sign.entry.behind.now) }
    {
        if let Front::Braced = sign.front {
            return self.add_lookup(signs, sign.behind);
        }
        self.add(signs.names, sign.front)?;
        Ok(sign.behind)
    }

    // The same of what begins with `${`.
    fn add_lookup<'t>(&mut self, signs: Signs, text: &'t [u8]) -> Result<&'t [u8], Fault<AtByte>>
        ensures { AddsCut result self.old self.new
            (cut (lookup_sign signs text.now) (brace_open ∷ text.now)) }
    {
        let lookup = read_lookup(self.done.allocator(), signs, text)?;
        self.add_piece(Piece::Lookup {
            map: lookup.map,
            key: lookup.key,
            fallback: lookup.fallback,
        })?;
        Ok(lookup.behind)
    }

    /// Adds what stands in a look-up, where no other may stand, or answers its refusal.
    pub(crate) fn add(&mut self, names: Names, front: Front<'_>) -> Result<(), Fault<AtByte>>
        ensures { Adds result self.old self.new (part_of names front.entry) }
    {
        match front {
            Front::Byte(byte) => Ok(self.run.push(byte)?),
            Front::Group(number) => Ok(self.add_piece(Piece::Group(number))?),
            Front::Condition(number) => Ok(self.add_piece(Piece::CondGroup(number))?),
            Front::Name(name) => self.add_variable(names, name),
            Front::Braced => Err(Fault::Refused(AtByte::rule(UNSUPPORTED_VARIABLE))),
        }
    }

    // A name that may not stand here is refused.
    fn add_variable(&mut self, names: Names, name: &[u8]) -> Result<(), Fault<AtByte>>
        ensures { Adds result self.old self.new (name_part names name.now) }
    {
        match named_by(self.done.allocator(), names, name)? {
            Some(var) => Ok(self.add_piece(Piece::Var(var))?),
            None => Err(Fault::Refused(AtByte::rule(UNSUPPORTED_VARIABLE))),
        }
    }

    fn add_piece(&mut self, piece: Piece) -> Result<(), NoMemory>
        ensures done { OnOk result (
            self.new.done ≡ (self.old.done ++ with_run self.old.run.items []) ++ piece ∷ []) }
        ensures run { OnOk result (self.new.run.items ≡ []) }
    {
        self.end_run()?;
        self.done.push(piece)
    }

    // The bytes behind the pieces become one.
    fn end_run(&mut self) -> Result<(), NoMemory>
        ensures done { OnOk result (self.new.done ≡ self.old.done ++ with_run self.old.run.items []) }
        ensures run { OnOk result (self.new.run.items ≡ []) }
    {
        if self.run.is_empty() {
            return Ok(());
        }
        let run = replace(&mut self.run, Vec::new(self.done.allocator()));
        self.done.push(Piece::Bytes(Text::from(run)))
    }

    /// The pieces of the whole text.
    pub(crate) fn into_template(self) -> Result<Template, NoMemory>
        ensures { IfOk result (λ pieces. pieces ≡ self.done ++ with_run self.run.items []) }
    {
        let mut pieces = self;
        pieces.end_run()?;
        Ok(pieces.done)
    }
}
