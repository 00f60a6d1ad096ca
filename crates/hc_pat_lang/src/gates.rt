ghost use Rattle.std.specs.Prelude.{◌≡◌, ◌||◌, ◌++◌, ◌∷◌, [], IfOk, if◌then◌else◌, length};
ghost use Rattle.hc_pat_lang.specs.Fragments.{IsReady};
ghost use Rattle.hc_pat_lang.specs.Gates.{IsJoin, IsFork, IsStep, alone_gate, anything, finish_gate, finish_point};
ghost use Rattle.hc_pat_lang.specs.Gates.{nowhere, nowhere_gate, start_gate};
ghost use Rattle.hc_pat_lang.specs.Turned.{leaves_out, step_node};

use crate::nodes::{Node, Nodes};
use hc_base::NoMemory;
use hc_pattern::ByteSet;

/// A node of a fragment of the machine, and whether it takes the empty text.
#[derive(Clone, Copy)]
pub struct Point {
    pub state: u32,
    pub ends: bool,
}

/// Where a part of a pattern begins, or what stands behind it: the node for the text's start, the one
/// for a later place where the turn of a repeat that is going on has taken no byte, and the one where
/// it has.
#[derive(Clone, Copy)]
pub struct Gate {
    pub first: Point,
    pub still: Point,
    pub moved: Point,
}

/// Which ways of a pattern nodes are made for, and whether their bytes are those of the chosen turn of a
/// group.
#[derive(Clone, Copy)]
pub enum GroupPart {
    /// All ways, before or behind the turn.
    Outside,
    /// All ways, in the turn.
    Inside,
    /// The ways without a turn of the group, where none is chosen.
    Without(u8),
}

impl GroupPart {
    /// Whether the ways through this group are left out.
    pub fn leaves_out(self, number: u8) -> bool
        ensures { result ≡ leaves_out self number }
    {
        match self {
            GroupPart::Outside | GroupPart::Inside => false,
            GroupPart::Without(group) => group == number,
        }
    }

    /// The node for a byte of the set, and then the texts of another node.
    fn step(self, set: ByteSet, to: u32) -> Node
        ensures { result ≡ step_node self set to }
    {
        match self {
            GroupPart::Outside | GroupPart::Without(_) => Node::Step(set, to),
            GroupPart::Inside => Node::Marked(set, to),
        }
    }
}

impl Point {
    /// The node that takes no text.
    pub fn nowhere() -> Point
        ensures { result ≡ nowhere }
    {
        Point {
            state: 0,
            ends: false,
        }
    }

    // Only the empty text, where this point takes it.
    fn finish(self) -> Point
        ensures { result ≡ finish_point self }
    {
        if !self.ends {
            return Point::nowhere();
        }
        Point {
            state: 1,
            ends: true,
        }
    }
}

impl Gate {
    /// The gate that takes no text.
    pub fn nowhere() -> Gate
        ensures { result ≡ nowhere_gate }
    {
        Gate {
            first: Point::nowhere(),
            still: Point::nowhere(),
            moved: Point::nowhere(),
        }
    }

    /// The gate that takes every text, by the third node.
    pub fn anything() -> Gate
        ensures { result ≡ anything }
    {
        let point = Point {
            state: 2,
            ends: true,
        };
        Gate {
            first: point,
            still: point,
            moved: point,
        }
    }

    /// The gate with another point where the turn has taken a byte.
    pub fn with_moved(self, moved: Point) -> Gate
        ensures { result ≡ record self { moved = moved } }
    {
        Gate { moved, ..self }
    }

    /// The gate of a turn that has to take a byte, whether the turn around it has taken one or not.
    pub fn alone(self) -> Gate
        ensures { result ≡ alone_gate self }
    {
        Gate {
            moved: self.still,
            ..self
        }
    }

    /// The gate before a `^`.
    pub fn start(self) -> Gate
        ensures { result ≡ start_gate self }
    {
        Gate {
            first: self.first,
            still: Point::nowhere(),
            moved: Point::nowhere(),
        }
    }

    /// The gate before a `$`.
    pub fn finish(self) -> Gate
        ensures { result ≡ finish_gate self }
    {
        Gate {
            first: self.first.finish(),
            still: self.still.finish(),
            moved: self.moved.finish(),
        }
    }
}

impl Nodes {
    /// A node for a byte of the set.
    pub fn step(&mut self, set: ByteSet, part: GroupPart, exits: Gate) -> Result<Gate, NoMemory>
        ensures { IfOk result (IsStep self.old.list.items self.new.list.items (step_node part set exits.moved.state)) }
    {
        let state = self.add(part.step(set, exits.moved.state))?;
        let point = Point { state, ends: false };
        Ok(Gate {
            first: point,
            still: point,
            moved: point,
        })
    }

    /// A node that takes what either takes.
    pub fn fork(&mut self, first: Point, second: Point) -> Result<Point, NoMemory>
        ensures { IfOk result (IsFork self.old.list.items self.new.list.items first second) }
    {
        let state = self.add(Node::Fork(first.state, second.state))?;
        Ok(Point {
            state,
            ends: first.ends || second.ends,
        })
    }

    /// The gate that takes what either takes.
    pub fn join(&mut self, first: Gate, second: Gate) -> Result<Gate, NoMemory>
        ensures { IfOk result (IsJoin self.old.list.items self.new.list.items first second) }
    {
        Ok(Gate {
            first: self.fork(first.first, second.first)?,
            still: self.fork(first.still, second.still)?,
            moved: self.fork(first.moved, second.moved)?,
        })
    }
}
