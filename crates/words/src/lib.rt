// The words that a host is told: calls that began and ended, messages to send, alerts.
#![tactic(auto)]

mod kinds;
mod numbers;

pub use kinds::{Direction, EndCause, Timer, Word};
pub use numbers::UnknownNumber;
