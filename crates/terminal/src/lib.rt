// What a terminal of an exchange reads and writes: orders on a line, the method of selection, and
// what is told in words.
#![tactic(auto)]

mod cutting;
mod input;
mod methods;
mod numerals;
mod operation;
mod remarks;
mod selection;
mod wording;

pub use cutting::{read_equipment, read_octets, words_of};
pub use input::{Input, read_input};
pub use methods::{Method, read_method};
pub use numerals::{decimal, decimal_cic, decimal_octet, hex_octet, hex_word};
pub use operation::{Expiry, Operation, Slots, read_expiry, read_operation};
pub use remarks::{is_blank, is_remark};
pub use selection::Selection;
pub use wording::{OrNone, Standing, Told};
