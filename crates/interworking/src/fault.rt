// The faults of steps.
ghost use Rattle.std.specs.Prelude.{◌≡◌};
ghost use Rattle.interworking.specs.declared.fault.Fault.TheVariants.{Memory};

use refusal::Refusal;
use std::alloc::AllocError;
use std::error::Error;
use std::fmt;

/// Why a step was not taken. Nothing is changed then.
#[derive(Clone, Copy, PartialEq, Eq, Debug)]
pub enum Fault {
    /// the operation is refused
    Refused(Refusal),
    /// no message is on the line
    Empty,
    /// memory is wanting
    Memory,
}

impl fmt::Display for Fault {
    fn fmt<W: fmt::Write>(&self, f: &mut fmt::Formatter<W>) -> fmt::Result {
        match self {
            Fault::Refused(refusal) => write!(f, "{refusal}"),
            Fault::Empty => f.write_str("no message on the line"),
            Fault::Memory => f.write_str("no memory"),
        }
    }
}

impl Error for Fault {}

impl From<AllocError> for Fault {
    ghost from_gives = { λ _ fault. fault ≡ Memory };

    fn from(_error: AllocError) -> Fault {
        Fault::Memory
    }
}

impl From<Refusal> for Fault {
    ghost use Rattle.interworking.specs.declared.fault.Fault.TheVariants.{Refused};

    ghost from_gives = { λ refusal fault. fault ≡ Refused refusal };

    fn from(refusal: Refusal) -> Fault {
        Fault::Refused(refusal)
    }
}
