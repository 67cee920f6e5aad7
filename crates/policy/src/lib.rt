// Selection policies: which circuit the next call takes.
#![tactic(auto)]

mod interface;
mod links;
mod one_end;
mod release;

pub use interface::{MOST_PLACES, Place, Policy, Update, follow};
pub use one_end::{End, Sequential};
pub use release::ReleaseOrder;
