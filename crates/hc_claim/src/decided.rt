use hc_base::List;
use hc_model::{Decision, Request};
use hc_serve::WholeRun;

/// The answer to a claim.
#[derive(Drop)]
pub enum Decided {
    /// No request of the scope breaks the claim.
    Proved,
    /// This request breaks it, by this run.
    Refuted { request: Request, run: WholeRun },
    /// Requests that decide so may break it, and no candidate does.
    Undecided { branch: List<Decision> },
    /// The tree has so many leaves at least.
    TooMany { count: u32 },
}
