//! Who may pass over a set of requests (Apache manual, mod_authz_core, mod_authz_host).
//!
//! `admitted_branches` finds exactly the branches of the question who may pass (`admitted_plan` of hc_abs_pass), where
//! the clients are those of a network. What each leaf of the tree may answer is exact: of another network by the client
//! that is the nearest to it and the one that is the farthest (`nets`), of the methods by automata (`methods`). What
//! lines and trees may come to is worked out with the sets of answers and values of their parts (`leaves`, `values`,
//! `trees`), since each leaf is taken by itself.
//!
//! `proofs/Keeping`: each branch of any plan has the clients of the state before.
#![tactic(auto)]

mod admitting;
mod answers;
mod leaves;
mod methods;
mod nets;
mod trees;
mod values;

pub use admitting::{Admitted, admitted_branches};
