// Supervision messages of a Q.767 trunk: what the octets of one say, and the octets of one.
#![tactic(auto)]

mod brief;
mod cause;
mod content;
mod fault;
mod kinds;
mod reader;
mod types;
mod writer;

pub use brief::{Brief, Heading};
pub use cause::Cause;
pub use content::Message;
pub use fault::MessageFault;
pub use kinds::{BlockType, CallKind, Grouped, Kind, Single, UnknownIndicator};
pub use reader::read;
pub use writer::write;
