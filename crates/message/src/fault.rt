// Why octets are no message, or a message has no octets.
ghost use Rattle.std.specs.Prelude.{◌≡◌};
ghost use Rattle.message.specs.Faults.{raised, number_of, type_of_fault};

use crate::brief::{Brief, Heading};
use status::ParamFault;
use std::error::Error;
use std::fmt;

/// Why octets are no message, or why a message was not written. `Display` says it in words, `brief` in one line of
/// numbers. Nothing was written then.
// The type octet is carried as it was received, and comes up so to the operations. One that is not listed has no kind.
#[derive(Clone, Copy, PartialEq, Eq, Debug)]
pub enum MessageFault {
    /// Writing: the output is shorter than the message. A longer one may be lent, and the message written again.
    NoRoom,
    /// Reading: fewer than three octets, so that there is no type.
    Short,
    /// Reading: the type is none of the listed ones.
    Unknown(u8),
    /// Pointers, length or end differ from the layout of the type and the range; in writing, body, cause or status has
    /// not the size that it has there.
    Layout(u8),
    /// The indicator, the range or the number of set bits is outside its limits; in writing also the CIC.
    Limit(u8),
}

impl MessageFault {
    /// The number of the refusal, 3 to 7.
    // A method and no `From`, since a fault has its type octet too.
    #[inline(always)]
    pub fn number(self) -> u8
        ensures { result ≡ number_of self }
    {
        match self {
            MessageFault::NoRoom => 3,
            MessageFault::Short => 4,
            MessageFault::Unknown(_) => 5,
            MessageFault::Layout(_) => 6,
            MessageFault::Limit(_) => 7,
        }
    }

    /// The type octet of the message, where there is one.
    #[inline(always)]
    pub fn type_octet(self) -> Option<u8>
        ensures { result ≡ type_of_fault self }
    {
        match self {
            MessageFault::NoRoom | MessageFault::Short => None,
            MessageFault::Unknown(octet)
            | MessageFault::Layout(octet)
            | MessageFault::Limit(octet) => Some(octet),
        }
    }

    /// The fault as one line of numbers, without words.
    pub fn brief(self) -> Brief
        ensures number { result.number ≡ number_of self }
        ensures type_octet { result.type_octet ≡ type_of_fault self }
    {
        Brief {
            number: self.number(),
            type_octet: self.type_octet(),
        }
    }

    /// All that the number may mean, in words.
    pub fn meanings(self) -> &'static str {
        match self {
            MessageFault::NoRoom => "the output is shorter than the message",
            MessageFault::Short => "the message has fewer than three octets",
            MessageFault::Unknown(_) => "the type is not listed",
            MessageFault::Layout(_) => {
                "the pointers, the length or the end differ from the layout; \
                 or, in writing, the body, the cause or the status has another size"
            }
            MessageFault::Limit(_) => {
                "the indicator, the range or the number of set bits is outside its limits; \
                 or, in writing, the CIC is past 4,095"
            }
        }
    }
}

impl fmt::Display for MessageFault {
    fn fmt<W: fmt::Write>(&self, f: &mut fmt::Formatter<W>) -> fmt::Result {
        write!(f, "{}: {}", Heading(self.brief()), self.meanings())
    }
}

impl Error for MessageFault {}

impl From<ParamFault> for MessageFault {
    ghost from_gives = { λ p m. m ≡ raised p };

    #[inline(always)]
    fn from(fault: ParamFault) -> MessageFault {
        match fault {
            ParamFault::Layout(octet) => MessageFault::Layout(octet),
            ParamFault::Limit(octet) => MessageFault::Limit(octet),
        }
    }
}
