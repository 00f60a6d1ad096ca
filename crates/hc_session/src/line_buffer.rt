ghost use Rattle.std.specs.Prelude.{◌≡◌, ◌+◌, ◌≤◌, [], ◌++◌, IfOk, length, IsTrue, ◌↔◌};
ghost use Rattle.hc_session.specs.declared.limits.TheConstants.{LINE_LIMIT};

use crate::limits::LINE_LIMIT;
use hc_base::NoMemory;
use std::alloc::Global;
use std::marker::Model;

/// The bytes of the line that has not ended yet. Its memory is taken when it is made.
#[derive(Drop)]
pub struct LineBuffer {
    bytes: Vec<u8>,
}

impl Model for LineBuffer {
    ghost use Rattle.std.specs.Prelude.{ℕ, ◌≤◌, List, vec_len, vec_capacity};
    ghost use Rattle.hc_session.specs.declared.limits.TheConstants.{LINE_LIMIT};

    ghost Value = { List ℕ };

    ghost view = { λ l. l.bytes.items };

    ghost invariant = { λ l. LINE_LIMIT ≤ vec_capacity l.bytes };
}

impl LineBuffer {
    pub fn new(alloc: Global) -> Result<LineBuffer, NoMemory>
        ensures { IfOk result (λ line. line ≡ []) }
    {
        Ok(LineBuffer {
            bytes: Vec::with_capacity(alloc, LINE_LIMIT)?,
        })
    }

    pub fn len(&self) -> usize
        ensures { result ≡ length self.now }
    {
        self.bytes.len()
    }

    pub fn is_empty(&self) -> bool
        ensures { IsTrue result ↔ (self.now ≡ []) }
    {
        self.bytes.is_empty()
    }

    pub fn as_slice(&self) -> &[u8]
        ensures { result.now ≡ self.now }
    {
        &self.bytes
    }

    pub fn extend(&mut self, piece: &[u8])
        requires { length self.old + length piece.now ≤ LINE_LIMIT }
        ensures { self.new ≡ self.old ++ piece.now }
    {
        self.bytes.extend_from_slice(piece).unwrap();
    }

    pub fn clear(&mut self)
        ensures { self.new ≡ [] }
    {
        self.bytes.clear();
    }
}
