ghost use Rattle.std.specs.Prelude.{◌≡◌, ◌<◌, [], ◌∷◌, ◌++◌, length, slice_set, IfOk, OnOk};
ghost use Rattle.hc_pat_lang.specs.Matching.{first_nodes};

use hc_base::NoMemory;
use hc_pattern::ByteSet;
use std::alloc::Global;

/// A node stands for texts. A machine of nodes is built from a pattern, and a machine of steps from it.
#[derive(Clone, Copy)]
pub enum Node {
    /// No text.
    Dead,
    /// The empty text.
    End,
    /// A byte of the set, and then the texts of another node.
    Step(ByteSet, u32),
    /// The same, for a byte in the chosen turn of a group.
    Marked(ByteSet, u32),
    /// The texts of either node.
    Fork(u32, u32),
}

/// Nodes by their numbers. The first is `Dead`, and the second `End`.
#[derive(Drop)]
pub struct Nodes {
    pub list: Vec<Node>,
}

impl Nodes {
    /// The nodes that there are from the start on. The third takes every text of bytes of the set.
    pub fn new(alloc: Global, every: ByteSet) -> Result<Nodes, NoMemory>
        ensures { IfOk result (λ nodes. nodes.list.items ≡ first_nodes every) }
    {
        let mut list = Vec::new(alloc);
        list.push(Node::Dead)?;
        list.push(Node::End)?;
        list.push(Node::Fork(1, 3))?;
        list.push(Node::Step(every, 2))?;
        Ok(Nodes { list })
    }

    /// A new node. Its number is how many there were; a `u32` numbers them.
    pub fn add(&mut self, node: Node) -> Result<u32, NoMemory>
        ensures number { IfOk result (λ number. number ≡ length self.old.list.items) }
        ensures ok { OnOk result (self.new.list.items ≡ self.old.list.items ++ node ∷ []) }
    {
        let Ok(number) = u32::try_from(self.list.len()) else {
            return Err(NoMemory);
        };
        self.list.push(node)?;
        Ok(number)
    }

    /// Another node in place of one.
    pub fn set(&mut self, number: u32, node: Node)
        requires { number < length self.old.list.items }
        ensures { self.new.list.items ≡ slice_set self.old.list.items number node }
    {
        self.list[number as usize] = node;
    }
}
