// Supervision of the circuits of a trunk: opening, orders of our side, messages from the far exchange
// and expiries, each over a table, a policy and outputs that are lent to it.
#![tactic(auto, using(crate::proofs::Turning::tells_same))]

mod due;
mod effects;
mod expiring;
mod group;
mod judging;
mod limits;
mod opening;
mod ordering;
mod receiving;
mod seizing;
mod sending;
mod single;
mod slots;
mod trunk;

pub use circuit::{Blocks, Call, CauseOctets, Circuit, FarBlocks, LocalBlock, LocalBlocks, Reset};
pub use limits::{MOST_SYSTEMS, OCTETS, SLOTS, WORDS};
pub use ordering::Order;
pub use policy::{End, Place, Policy, ReleaseOrder, Sequential, Update};
pub use refusal::Refusal;
pub use status::Cic;
pub use trunk::{Config, Trunk};
pub use words::{Direction, EndCause, Timer, UnknownNumber, Word};
