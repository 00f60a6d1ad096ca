ghost use Rattle.std.specs.Prelude.{◌≡◌, ◌-◌, ◌≤◌, ◌==◌, ℕ, Bool, IfOk, if◌then◌else◌};
ghost use Rattle.std.specs.Prelude.{length};
ghost use Rattle.hc_pattern.specs.Bits.{has_byte};
ghost use Rattle.hc_pattern.specs.Pattern.{group, pattern_of};
ghost use Rattle.hc_pat_lang.specs.Fragments.{IsFragment, IsLooped, IsReady};
ghost use Rattle.hc_pat_lang.specs.Turned.{part_ways, seen, step_by, times_of};
ghost use Rattle.hc_ways.specs.Ways.{any_turns, stop, turns_then, turns_up_to};

use crate::gates::{Gate, GroupPart, Point};
use crate::nodes::{Node, Nodes};
use hc_base::NoMemory;
use hc_pattern::{ByteSet, Pat};

/// How many turns of a repeat there are. Which of them are tried first doesn't matter here.
#[derive(Clone, Copy)]
pub struct Times {
    pub least: u16,
    pub most: Option<u16>,
    pub greedy: bool,
}

impl Nodes {
    /// Adds the nodes of these ways of a pattern, behind which stands what the exits take. The answer is
    /// where it begins.
    #[cycle(build)]
    pub fn build(&mut self, pat: &Pat, part: GroupPart, exits: Gate) -> Result<Gate, NoMemory>
        requires { IsReady self.old.list.items exits }
        ensures { IfOk result (IsFragment (λ text. part_ways part text (pattern_of pat.now))
            exits self.old.list.items self.new.list.items) }
    {
        match pat {
            Pat::Empty => Ok(exits),
            Pat::Byte(byte) => self.byte(*byte, part, exits),
            Pat::Class(set) => self.class(*set, part, exits),
            Pat::Start => Ok(exits.start()),
            Pat::Finish => Ok(exits.finish()),
            Pat::Cat(first, second) => {
                let middle = self.build(second, part, exits)?;
                let entries = self.build(first, part, middle)?;
                Ok(entries)
            }
            Pat::Alt(first, second) => {
                let one = self.build(first, part, exits)?;
                let other = self.build(second, part, exits)?;
                let entries = self.join(one, other)?;
                Ok(entries)
            }
            Pat::Group(number, body) => self.group(*number, body, part, exits),
            Pat::Repeat(body, least, most, greedy) => {
                let times = Times {
                    least: *least,
                    most: *most,
                    greedy: *greedy,
                };
                self.repeat(body, times, part, exits)
            }
        }
    }

    fn byte(&mut self, byte: u8, part: GroupPart, exits: Gate) -> Result<Gate, NoMemory>
        requires { IsReady self.old.list.items exits }
        ensures { IfOk result (IsFragment (λ text. step_by (seen part text) (λ c. c == byte))
            exits self.old.list.items self.new.list.items) }
    {
        let entries = self.step(ByteSet::empty().with(byte), part, exits)?;
        Ok(entries)
    }

    fn class(&mut self, set: ByteSet, part: GroupPart, exits: Gate) -> Result<Gate, NoMemory>
        requires { IsReady self.old.list.items exits }
        ensures { IfOk result (IsFragment (λ text. step_by (seen part text) (has_byte set))
            exits self.old.list.items self.new.list.items) }
    {
        let entries = self.step(set, part, exits)?;
        Ok(entries)
    }

    #[cycle(build)]
    fn group(
        &mut self,
        number: u8,
        body: &Pat,
        part: GroupPart,
        exits: Gate,
    ) -> Result<Gate, NoMemory>
        requires { IsReady self.old.list.items exits }
        ensures { IfOk result (IsFragment (λ text. part_ways part text (group number (pattern_of body.now)))
            exits self.old.list.items self.new.list.items) }
    {
        if part.leaves_out(number) {
            return Ok(Gate::nowhere());
        }
        let entries = self.build(body, part, exits)?;
        Ok(entries)
    }

    #[cycle(build)]
    fn repeat(
        &mut self,
        body: &Pat,
        times: Times,
        part: GroupPart,
        exits: Gate,
    ) -> Result<Gate, NoMemory>
        requires { IsReady self.old.list.items exits }
        ensures { IfOk result (IsFragment (λ text. part_ways part text (times_of (pattern_of body.now) times))
            exits self.old.list.items self.new.list.items) }
    {
        match times.most {
            None if times.least == 0 => {
                let entries = self.any_turns(body, times.greedy, part, exits)?;
                Ok(entries)
            }
            None => {
                let more = self.looped(body, part, exits)?;
                let entries = self.turns(body, times.least - 1, part, more)?;
                Ok(entries)
            }
            Some(most) if most < times.least => Ok(Gate::nowhere()),
            Some(most) => {
                let more = self.turns_up_to(body, most - times.least, times.greedy, part, exits)?;
                let entries = self.turns(body, times.least, part, more)?;
                Ok(entries)
            }
        }
    }

    /// So many turns.
    #[cycle(build)]
    pub fn turns(
        &mut self,
        body: &Pat,
        count: u16,
        part: GroupPart,
        exits: Gate,
    ) -> Result<Gate, NoMemory>
        requires { IsReady self.old.list.items exits }
        ensures { IfOk result (IsFragment (λ text. turns_then (part_ways part text (pattern_of body.now)) count stop)
            exits self.old.list.items self.new.list.items) }
    {
        let mut gate = exits;
        for _turn in 0..count {
            gate = self.build(body, part, gate)?;
        }
        Ok(gate)
    }

    /// At most so many turns.
    #[cycle(build)]
    pub fn turns_up_to(
        &mut self,
        body: &Pat,
        count: u16,
        _greedy: bool,
        part: GroupPart,
        exits: Gate,
    ) -> Result<Gate, NoMemory>
        requires { IsReady self.old.list.items exits }
        ensures { IfOk result (IsFragment (λ text.
            turns_up_to _greedy (part_ways part text (pattern_of body.now)) count)
            exits self.old.list.items self.new.list.items) }
    {
        let mut gate = exits;
        for _turn in 0..count {
            let turn = self.build(body, part, gate)?;
            gate = self.join(turn, exits)?;
        }
        Ok(gate)
    }

    /// Any number of turns, each of which takes a byte.
    #[cycle(build)]
    pub fn any_turns(
        &mut self,
        body: &Pat,
        _greedy: bool,
        part: GroupPart,
        exits: Gate,
    ) -> Result<Gate, NoMemory>
        requires { IsReady self.old.list.items exits }
        ensures { IfOk result (IsFragment (λ text.
            any_turns _greedy (part_ways part text (pattern_of body.now)) (length text))
            exits self.old.list.items self.new.list.items) }
    {
        let turn = self.looped(body, part, exits)?;
        let entries = self.join(turn, exits)?;
        Ok(entries)
    }

    /// A turn, and then any number of turns, each of which takes a byte: they lead back into the one.
    #[cycle(build)]
    fn looped(&mut self, body: &Pat, part: GroupPart, exits: Gate) -> Result<Gate, NoMemory>
        requires { IsReady self.old.list.items exits }
        ensures { IfOk result (IsLooped (λ text. part_ways part text (pattern_of body.now))
            exits self.old.list.items self.new.list.items) }
    {
        let again = Point {
            state: self.add(Node::Dead)?,
            ends: exits.moved.ends,
        };
        let turn = self.build(body, part, exits.with_moved(again))?;
        self.set(again.state, Node::Fork(exits.moved.state, turn.still.state));
        Ok(turn)
    }
}
