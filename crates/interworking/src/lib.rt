// Two exchanges and the two lines between them.
#![tactic(auto)]

mod acting;
mod bench;
mod carrying;
mod end;
mod fault;
mod line;
mod opening;
mod running;
mod settling;
mod showing;
mod step;
mod stepping;

pub use bench::Bench;
pub use end::End;
pub use fault::Fault;
pub use line::Line;
pub use step::{Side, Step};
