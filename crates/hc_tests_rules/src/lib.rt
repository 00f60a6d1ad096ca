//! Tests of the branches of rules. Tables of cases, whose answers come from the manual or from our
//! own rules, and never from the code.
#![tactic(auto)]

#[cfg(test)]
mod conditions;
#[cfg(test)]
mod directories;
#[cfg(test)]
mod files;
#[cfg(test)]
mod lists;
#[cfg(test)]
mod maps;
#[cfg(test)]
mod networks;
#[cfg(test)]
mod patterns;
#[cfg(test)]
mod queries;
#[cfg(test)]
mod ranks;
#[cfg(test)]
mod rules;
#[cfg(test)]
mod shown;
#[cfg(test)]
mod ties;
#[cfg(test)]
mod urls;
#[cfg(test)]
mod variables;
#[cfg(test)]
mod walks;
