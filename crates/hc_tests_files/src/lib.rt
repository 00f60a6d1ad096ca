//! Tests of the crates of files: lines, words and sections, the tables of names, the world. Tables of cases,
//! whose answers come from the manual or from our own rules, and never from the code.
#![tactic(auto)]

#[cfg(test)]
mod base;
#[cfg(test)]
mod edits;
#[cfg(test)]
mod flat;
#[cfg(test)]
mod htaccess;
#[cfg(test)]
mod kept;
#[cfg(test)]
mod lines;
#[cfg(test)]
mod nodes;
#[cfg(test)]
mod show;
#[cfg(test)]
mod table;
#[cfg(test)]
mod words;
#[cfg(test)]
mod world;
