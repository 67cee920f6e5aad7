// One circuit: its record, and what orders and messages do to it. So the methods of `Circuit` and of `LocalBlock`
// stand in three files: what a record says in `record`, what orders make of it in `rules`, messages in `signals`.
#![tactic(auto)]

mod record;
mod rules;
mod signals;

pub use record::{Blocks, Call, CauseOctets, Circuit, FarBlocks, LocalBlock, LocalBlocks, Reset};
pub use rules::{Change, Rule};
pub use signals::Signal;
