//! Where each rule of a list shortens the text by its form, each further round begins with a shorter text
//! (specs/Shortening.antt).
#![tactic(auto)]

pub mod laws;
