//! Tests of the calls that answer a request. Tables of cases, whose answers come from the manual or from our own
//! rules, and never from the code.
#![tactic(auto)]

#[cfg(test)]
mod answers;
#[cfg(test)]
mod chains;
#[cfg(test)]
mod configs;
#[cfg(test)]
mod model;
#[cfg(test)]
mod overrides;
#[cfg(test)]
mod target;
