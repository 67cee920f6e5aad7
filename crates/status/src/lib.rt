// Circuit identification codes, ranges of circuits and the status bits of a range.
#![tactic(auto)]

mod cic;
mod fault;
mod group;
mod naming;
mod parameter;
mod range;

pub use cic::Cic;
pub use fault::ParamFault;
pub use group::{Group, MAX_SET_BITS};
pub use naming::Named;
pub use parameter::read_group;
pub use range::{MAX_BLOCKING_RANGE, MAX_RESET_RANGE, Range};
