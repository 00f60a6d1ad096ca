//! Where requests go on.
use crate::leaf::Leaf;
use hc_abs_left::Settings;
use hc_abs_pass::SoFar;
use hc_base::List;
use hc_model::Decision;
use hc_plan::Tied;
use std::rc::Rc;

/// Where a segment of a pass begins.
#[derive(Drop)]
pub enum At {
    Pass,
    /// Before this round of the server's list of rules.
    Server {
        round: u32,
        so_far: SoFar,
    },
    /// Before this round of a directory's list.
    Directory {
        round: u32,
        settings: Rc<Settings>,
        so_far: SoFar,
    },
}

/// Where requests go on.
#[derive(Drop)]
pub struct Node {
    /// The number of the pass, counted from 0.
    pub number: u32,
    pub at: At,
    pub tied: Tied,
    /// What was decided in the passes before.
    pub decided: List<Decision>,
}

/// What is still to come.
#[derive(Drop)]
pub enum Pending {
    /// An end of requests.
    Ends(Leaf),
    /// All that is behind a node.
    Goes(Node),
}
