use hc_base::List;
use hc_follow::Chain;
use hc_model::{Decision, Request};

/// The answer to the claim that each chain ends.
#[derive(Drop)]
pub enum DecidedEnds {
    /// The chain of no request of the scope breaks the claim.
    Proved,
    /// The chain of this request does.
    Refuted { request: Request, chain: Chain },
    /// Chains that decide so may, and none of a candidate does.
    Undecided { branch: List<Decision> },
    /// So many ends are there at least.
    TooMany { count: u32 },
}
