//! Tests of sessions, most of them as dialogues. Tables of cases, whose answers come from the manual or from our own
//! rules; the reasons of claims that end outside what is read, and the files that a decision names, were filled in from
//! replies.
#![tactic(auto)]

#[cfg(test)]
mod authorization;
#[cfg(test)]
mod claim_forms;
#[cfg(test)]
mod claimed;
#[cfg(test)]
mod claims;
#[cfg(test)]
mod commands;
#[cfg(test)]
mod conditions;
#[cfg(test)]
mod dialogue;
#[cfg(test)]
mod directory_rules;
#[cfg(test)]
mod edits;
#[cfg(test)]
mod ends;
#[cfg(test)]
mod extremes;
#[cfg(test)]
mod folder_files;
#[cfg(test)]
mod following;
#[cfg(test)]
mod follows;
#[cfg(test)]
mod generated;
#[cfg(test)]
mod guarded;
#[cfg(test)]
mod hosts;
#[cfg(test)]
mod include;
#[cfg(test)]
mod kept;
#[cfg(test)]
mod main_files;
#[cfg(test)]
mod rewrite_files;
#[cfg(test)]
mod rewrite_flags;
#[cfg(test)]
mod rewriting;
#[cfg(test)]
mod section_files;
#[cfg(test)]
mod sections;
#[cfg(test)]
mod serve;
#[cfg(test)]
mod session;
#[cfg(test)]
mod shadowed;
#[cfg(test)]
mod steps;
#[cfg(test)]
mod stops;
#[cfg(test)]
mod trails;
#[cfg(test)]
mod verifying;
#[cfg(test)]
mod words;
