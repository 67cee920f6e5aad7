// An exchange as one value: an open trunk with all that its operations are lent. A host names this
// crate alone.
#![tactic(auto)]

mod events;
mod exchange;

pub use events::{Event, Events};
pub use exchange::Exchange;
pub use supervision::{
    Blocks, Call, CauseOctets, Cic, Circuit, Config, Direction, End, EndCause, FarBlocks,
    LocalBlock, LocalBlocks, MOST_SYSTEMS, OCTETS, Order, Place, Policy, Refusal, ReleaseOrder,
    Reset, SLOTS, Sequential, Timer, Trunk, UnknownNumber, Update, WORDS, Word,
};
