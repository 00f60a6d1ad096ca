ghost use Rattle.std.specs.Prelude.{◌≡◌, ◌-◌, ◌==◌, ◌≤◌, Bool, IfOk, List, ℕ};
ghost use Rattle.std.specs.Prelude.{None, if◌then◌else◌, length};
ghost use Rattle.hc_pattern.specs.Pattern.{group, pattern_of, repeat};
ghost use Rattle.hc_pat_lang.specs.Fragments.{AreTurns, IsFragment, IsReady};
ghost use Rattle.hc_pat_lang.specs.Turned.{any_chosen, chosen_ways, has_turn, part_ways, then_chosen};
ghost use Rattle.hc_pat_lang.specs.Turned.{times_of, up_to_chosen};
ghost use Rattle.hc_pat_lang.specs.declared.gates.Gate.{Gate as G};
ghost use Rattle.hc_pat_lang.specs.declared.nodes.Node.{Node as N};
ghost use Rattle.hc_ways.specs.Kept.{Turns as Held};
ghost use Rattle.hc_ways.specs.Ways.{Ways, any_turns, behind, none, turns_up_to};
ghost use Rattle.hc_pat_lang.specs.declared.gates.GroupPart.TheVariants.{Outside};

use crate::build::Times;
use crate::gates::{Gate, GroupPart};
use crate::nodes::Nodes;
use hc_base::NoMemory;
use hc_pattern::Pat;
use hc_ways::takes_a_byte;

/// Where the turns of a repeat begin: all ways of them, and those with a chosen turn of a group.
#[derive(Clone, Copy)]
pub struct Turns {
    pub all: Gate,
    pub chosen: Gate,
}

/// Whether the pattern has the group.
#[cycle(has_group)]
fn has_group(pat: &Pat, number: u8) -> bool
    ensures { result ≡ has_turn number (pattern_of pat.now) }
{
    match pat {
        Pat::Empty | Pat::Byte(_) | Pat::Class(_) | Pat::Start | Pat::Finish => false,
        Pat::Cat(first, second) | Pat::Alt(first, second) => {
            let one = has_group(first, number);
            let other = has_group(second, number);
            one || other
        }
        Pat::Group(own, body) => {
            let inner = has_group(body, number);
            *own == number || inner
        }
        Pat::Repeat(body, _, _, _) => has_group(body, number),
    }
}

impl Nodes {
    /// Adds the nodes of the ways of a pattern with one turn of the group chosen, behind which stands
    /// what the exits take. The answer is where they begin.
    #[cycle(choose)]
    pub fn choose(&mut self, pat: &Pat, number: u8, exits: Gate) -> Result<Gate, NoMemory>
        requires { IsReady self.old.list.items exits }
        ensures { IfOk result (IsFragment (λ text. chosen_ways number text (pattern_of pat.now))
            exits self.old.list.items self.new.list.items) }
    {
        match pat {
            Pat::Empty | Pat::Byte(_) | Pat::Class(_) | Pat::Start | Pat::Finish => {
                Ok(Gate::nowhere())
            }
            Pat::Cat(first, second) => {
                let later = self.choose(second, number, exits)?;
                let rest = self.build_if(has_group(first, number), second, exits)?;
                let one = self.choose(first, number, rest)?;
                let other = self.build_if(has_group(second, number), first, later)?;
                let entries = self.join(one, other)?;
                Ok(entries)
            }
            Pat::Alt(first, second) => {
                let one = self.choose(first, number, exits)?;
                let other = self.choose(second, number, exits)?;
                let entries = self.join(one, other)?;
                Ok(entries)
            }
            Pat::Group(own, body) => self.choose_group(*own, body, number, exits),
            Pat::Repeat(body, least, most, greedy) => {
                let times = Times {
                    least: *least,
                    most: *most,
                    greedy: *greedy,
                };
                self.choose_repeat(body, times, number, exits)
            }
        }
    }

    /// Adds the nodes of a pattern only where they are needed.
    fn build_if(&mut self, needed: bool, pat: &Pat, exits: Gate) -> Result<Gate, NoMemory>
        requires { IsReady self.old.list.items exits }
        ensures { IfOk result (IsFragment (λ text.
            if needed then part_ways Outside text (pattern_of pat.now) else none)
            exits self.old.list.items self.new.list.items) }
    {
        if !needed {
            return Ok(Gate::nowhere());
        }
        let entries = self.build(pat, GroupPart::Outside, exits)?;
        Ok(entries)
    }

    #[cycle(choose)]
    fn choose_group(
        &mut self,
        own: u8,
        body: &Pat,
        number: u8,
        exits: Gate,
    ) -> Result<Gate, NoMemory>
        requires { IsReady self.old.list.items exits }
        ensures { IfOk result (IsFragment (λ text. chosen_ways number text (group own (pattern_of body.now)))
            exits self.old.list.items self.new.list.items) }
    {
        let inner = self.choose(body, number, exits)?;
        if own != number {
            return Ok(inner);
        }
        let whole = self.build(body, GroupPart::Inside, exits)?;
        let entries = self.join(whole, inner)?;
        Ok(entries)
    }

    #[cycle(choose)]
    fn choose_repeat(
        &mut self,
        body: &Pat,
        times: Times,
        number: u8,
        exits: Gate,
    ) -> Result<Gate, NoMemory>
        requires { IsReady self.old.list.items exits }
        ensures { IfOk result (IsFragment (λ text. chosen_ways number text (times_of (pattern_of body.now) times))
            exits self.old.list.items self.new.list.items) }
    {
        match times.most {
            None => {
                let entries = self.choose_endless(body, times, number, exits)?;
                Ok(entries)
            }
            Some(most) if most < times.least => Ok(Gate::nowhere()),
            Some(most) => {
                let more = self.choose_up_to(
                    body,
                    most - times.least,
                    times.greedy,
                    number,
                    exits,
                )?;
                let entries = self.choose_turns(body, times.least, number, more)?;
                Ok(entries)
            }
        }
    }

    /// So many turns or more. Where each takes a byte, the last that has to be is one of any number.
    #[cycle(choose)]
    fn choose_endless(
        &mut self,
        body: &Pat,
        times: Times,
        number: u8,
        exits: Gate,
    ) -> Result<Gate, NoMemory>
        requires { IsReady self.old.list.items exits }
        ensures { IfOk result (IsFragment (λ text.
            chosen_ways number text (repeat (pattern_of body.now) times.least None times.greedy))
            exits self.old.list.items self.new.list.items) }
    {
        let more = self.choose_any(body, times.greedy, number, exits)?;
        if !takes_a_byte(body) {
            let entries = self.choose_turns(body, times.least, number, more)?;
            return Ok(entries);
        }
        let all = self.build(body, GroupPart::Outside, more.all)?;
        let some = Turns {
            all,
            chosen: more.chosen,
        };
        let entries = self.choose_turns(body, times.least.saturating_sub(1), number, some)?;
        Ok(entries)
    }

    /// So many turns before others.
    #[cycle(choose)]
    fn choose_turns(
        &mut self,
        body: &Pat,
        count: u16,
        number: u8,
        more: Turns,
    ) -> Result<Gate, NoMemory>
        requires all { IsReady self.old.list.items more.all }
        requires chosen { IsReady self.old.list.items more.chosen }
        ensures { IfOk result (λ gate. (exits : G) (base : List N) (all chosen : List ℕ → Ways Held)
            → AreTurns all chosen exits base self.old.list.items more
            → IsFragment (λ text. then_chosen number count text (pattern_of body.now) (all text) (chosen text))
            exits base self.new.list.items gate) }
    {
        let mut turns = more;
        for _turn in 0..count {
            turns = self.choose_turn(body, number, turns)?;
        }
        Ok(turns.chosen)
    }

    /// A turn before others.
    #[cycle(choose)]
    fn choose_turn(&mut self, body: &Pat, number: u8, turns: Turns) -> Result<Turns, NoMemory>
        requires all { IsReady self.old.list.items turns.all }
        requires chosen { IsReady self.old.list.items turns.chosen }
        ensures all { IfOk result (λ more. IsReady self.new.list.items more.all) }
        ensures chosen { IfOk result (λ more. IsReady self.new.list.items more.chosen) }
        ensures turns { IfOk result (λ more. (exits : G) (base : List N) (all chosen : List ℕ → Ways Held)
            → AreTurns all chosen exits base self.old.list.items turns
            → AreTurns (λ text. behind (part_ways Outside text (pattern_of body.now)) (all text))
            (λ text. then_chosen number 1 text (pattern_of body.now) (all text) (chosen text))
            exits base self.new.list.items more) }
    {
        let one = self.choose(body, number, turns.all)?;
        let other = self.build(body, GroupPart::Outside, turns.chosen)?;
        let chosen = self.join(one, other)?;
        let all = self.build(body, GroupPart::Outside, turns.all)?;
        Ok(Turns { all, chosen })
    }

    /// At most so many turns.
    #[cycle(choose)]
    fn choose_up_to(
        &mut self,
        body: &Pat,
        count: u16,
        _greedy: bool,
        number: u8,
        exits: Gate,
    ) -> Result<Turns, NoMemory>
        requires { IsReady self.old.list.items exits }
        ensures { IfOk result (AreTurns (λ text.
            turns_up_to _greedy (part_ways Outside text (pattern_of body.now)) count)
            (λ text. up_to_chosen _greedy number count text (pattern_of body.now))
            exits self.old.list.items self.new.list.items) }
    {
        let mut turns = Turns {
            all: exits,
            chosen: Gate::nowhere(),
        };
        for _turn in 0..count {
            let turn = self.choose_turn(body, number, turns)?;
            let all = self.join(turn.all, exits)?;
            turns = Turns { all, ..turn };
        }
        Ok(turns)
    }

    /// Any number of turns, each of which takes a byte.
    #[cycle(choose)]
    fn choose_any(
        &mut self,
        body: &Pat,
        greedy: bool,
        number: u8,
        exits: Gate,
    ) -> Result<Turns, NoMemory>
        requires { IsReady self.old.list.items exits }
        ensures { IfOk result (AreTurns (λ text.
            any_turns greedy (part_ways Outside text (pattern_of body.now)) (length text))
            (λ text. any_chosen greedy number text (pattern_of body.now))
            exits self.old.list.items self.new.list.items) }
    {
        let all = self.any_turns(body, greedy, GroupPart::Outside, exits)?;
        let turn = self.choose(body, number, Gate::nowhere().with_moved(all.moved))?;
        let chosen = self.any_turns(body, greedy, GroupPart::Outside, turn.alone())?;
        Ok(Turns { all, chosen })
    }
}
