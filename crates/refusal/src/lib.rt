// Why an operation is refused, and messages read with these refusals.
#![tactic(auto)]

mod reading;
mod reasons;

pub use reading::read;
pub use reasons::Refusal;
