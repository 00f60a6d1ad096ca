ghost use Rattle.std.specs.Prelude.{◌≡◌, ◌+◌, ◌≤◌, [], ◌++◌, IfOk, length};
ghost use Rattle.hc_generate.specs.Summary.{member_text, summary_line};
ghost use Rattle.hc_generate.specs.declared.summary_line.TheConstants.{LONGEST_SUMMARY};

use crate::tally::Tally;
use hc_base::{NoMemory, Text};
use hc_session::Session;
use itoa::Buffer;
use std::alloc::Global;
use std::marker::Model;

/// A summary has no more bytes than this.
pub const LONGEST_SUMMARY: usize = 512;

/// The front of the line of a summary. Its memory is taken when it is made.
#[derive(Drop)]
pub(crate) struct SummaryLine {
    bytes: Vec<u8>,
}

impl Model for SummaryLine {
    ghost use Rattle.std.specs.Prelude.{ℕ, ◌≤◌, List, vec_capacity};
    ghost use Rattle.hc_generate.specs.declared.summary_line.TheConstants.{LONGEST_SUMMARY};

    ghost Value = { List ℕ };

    ghost view = { λ l. l.bytes.items };

    ghost invariant = { λ l. LONGEST_SUMMARY ≤ vec_capacity l.bytes };
}

impl SummaryLine {
    pub(crate) fn new(alloc: Global) -> Result<SummaryLine, NoMemory>
        ensures { IfOk result (λ line. line ≡ []) }
    {
        Ok(SummaryLine {
            bytes: Vec::with_capacity(alloc, LONGEST_SUMMARY)?,
        })
    }

    fn put(&mut self, piece: &[u8])
        requires { length self.old + length piece.now ≤ LONGEST_SUMMARY }
        ensures { self.new ≡ self.old ++ piece.now }
    {
        self.bytes.extend_from_slice(piece).unwrap();
    }

    // Puts a number behind its name.
    fn member(&mut self, name: &[u8], count: u64)
        requires { length self.old + length name.now + 40 ≤ LONGEST_SUMMARY }
        ensures text { self.new ≡ self.old ++ member_text name.now count }
        ensures short { length self.new ≤ length self.old + length name.now + 40 }
    {
        let mut digits = Buffer::new();
        self.put(name);
        self.put(digits.format(count).as_bytes());
    }

    /// The summary of a session that has said so much.
    #[tactic(auto, unfolding(crate::specs::Summary::summary_line))]
    pub(crate) fn tell(mut self, session: &Session, tally: Tally) -> Text
        requires { self ≡ [] }
        ensures { result ≡ summary_line session.now tally }
    {
        self.member(b"{\"summary\":{\"asks\":", session.asks());
        self.member(b",\"denied\":", tally.denied);
        self.member(b",\"evaluations\":", session.evaluations());
        self.member(b",\"files\":", tally.files);
        self.member(b",\"missing\":", tally.missing);
        self.member(b",\"no_memory\":", tally.no_memory);
        self.put(b"}}\n");
        Text::from(self.bytes)
    }
}
