// Traces of messages: hexadecimal lines in, one line of explanation out.
#![tactic(auto)]

mod hex;
mod words;

pub use hex::{hex_octets, without_end};
pub use words::{Explanation, Hex};
