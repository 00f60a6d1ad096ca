//! The addresses of a network as sets of texts.
//!
//! `addresses` accepts exactly the texts that hc_addr reads as an address of the network's family that is the
//! network's own in the bits of its mask, whatever the mask, each in every spelling: bytes with leading zeros, groups
//! with leading zeros and in letters of either case, and `::` wherever it may stand.
//!
//! A text is read byte by byte (`Mark`): its numbers by their places, and of a group, digit by digit, after how many
//! more digits it would fit. For each count of groups behind `::` there is a set of its own, and one for the
//! addresses without it; all of them are joined.
#![tactic(auto)]

mod digits;
mod marks;
mod networks;
mod sought;

pub use networks::addresses;
