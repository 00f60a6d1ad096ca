//! Tests of the crates of texts and sets: addresses, patterns and matches, templates, expressions, trees
//! of authorization, automata and what they are made of, maps. Tables of cases, whose answers come from the
//! manual or from our own rules, and never from the code.
#![tactic(auto)]

#[cfg(test)]
mod addr;
#[cfg(test)]
mod cells;
#[cfg(test)]
mod dfa;
#[cfg(test)]
mod expressions;
#[cfg(test)]
mod groups;
#[cfg(test)]
mod hands;
#[cfg(test)]
mod hostile;
#[cfg(test)]
mod languages;
#[cfg(test)]
mod maps;
#[cfg(test)]
mod matches;
#[cfg(test)]
mod patterns;
#[cfg(test)]
mod regset;
#[cfg(test)]
mod templates;
#[cfg(test)]
mod trees;
