// Why an operation is refused.
ghost use Rattle.std.specs.Prelude.{◌≡◌};
ghost use Rattle.refusal.specs.Refusals.{refused_as, number_of, type_in};

use message::{Brief, Heading, MessageFault};
use std::error::Error;
use std::fmt;

/// Why an operation is refused: the first that holds is answered, and nothing is changed then. `Display` says in words
/// what a number may mean, `brief` gives the number in one line.
#[derive(Clone, Copy, PartialEq, Eq, Debug)]
pub enum Refusal {
    /// 1, opening: the first CIC, the number of PCM systems, an equipment word or the table's length is wrong, or CICs
    /// pass 4,095.
    Opening,
    /// 2: the policy states fewer places than the table has.
    Places,
    /// 3: the table has another length than the trunk, or an output is too short: for an operation fewer than 96 words
    /// or 320 octets, for writing a message shorter than the message. A longer one may be lent, and the order given
    /// again.
    Buffers,
    /// 4, receiving: fewer than three octets.
    Short,
    /// 5, receiving: the type octet, which it carries, is not listed.
    /// This and the next two come up from the message part by `From`.
    Unknown(u8),
    /// 6, receiving: pointers, length or end differ from the layout of the type octet that it carries.
    Layout(u8),
    /// 7, receiving: the indicator, the range or the number of set bits is outside its limits; it carries the type
    /// octet. Writing a message adds a CIC past 4,095.
    Limit(u8),
    /// 8, orders and expiries: a body's length, a location, a cause, a timer or a type is out of range, or a mask is
    /// empty.
    Argument,
    /// 9: a CIC, a range or a PCM system leaves the table, or a circuit that is addressed singly, or by a set bit of a
    /// status or a mask, is not equipped.
    Address,
    /// 10: releasing finds no call that calls or talks, blocking or unblocking names a circuit with a waiting reset, or
    /// a circuit reset finds a group reset.
    State,
    /// 11, seizing: the policy's set is empty. A circuit may open later.
    NoneOpen,
    /// 12, seizing: the policy's choice is past the table or not open, so the policy does not keep what it was told.
    Choice,
}

impl Refusal {
    /// The number, 1 to 12.
    #[inline(always)]
    pub fn number(self) -> u8
        ensures { result ≡ number_of self }
    {
        match self {
            Refusal::Opening => 1,
            Refusal::Places => 2,
            Refusal::Buffers => 3,
            Refusal::Short => 4,
            Refusal::Unknown(_) => 5,
            Refusal::Layout(_) => 6,
            Refusal::Limit(_) => 7,
            Refusal::Argument => 8,
            Refusal::Address => 9,
            Refusal::State => 10,
            Refusal::NoneOpen => 11,
            Refusal::Choice => 12,
        }
    }

    /// The type octet of the message that was refused, for 5, 6 and 7.
    #[inline(always)]
    pub fn type_octet(self) -> Option<u8>
        ensures { result ≡ type_in self }
    {
        match self {
            Refusal::Unknown(octet) | Refusal::Layout(octet) | Refusal::Limit(octet) => Some(octet),
            _ => None,
        }
    }

    /// The refusal as one line of numbers, without words.
    pub fn brief(self) -> Brief
        ensures number { result.number ≡ number_of self }
        ensures type_octet { result.type_octet ≡ type_in self }
    {
        Brief {
            number: self.number(),
            type_octet: self.type_octet(),
        }
    }

    /// All that the number may mean, in words.
    pub fn meanings(self) -> &'static str {
        match self {
            Refusal::Opening => {
                "the first CIC, the number of PCM systems, an equipment word \
                 or the table's length is wrong; or CICs pass 4,095"
            }
            Refusal::Places => "the policy states fewer places than the table has",
            Refusal::Buffers => {
                "the table has another length than the trunk; or an output is too short: \
                 fewer than 96 words or 320 octets, or, in writing, shorter than the message"
            }
            Refusal::Short => MessageFault::Short.meanings(),
            Refusal::Unknown(octet) => MessageFault::Unknown(octet).meanings(),
            Refusal::Layout(octet) => MessageFault::Layout(octet).meanings(),
            Refusal::Limit(octet) => MessageFault::Limit(octet).meanings(),
            Refusal::Argument => {
                "the length of a body, a location, a cause, a timer or a type is out of range; \
                 or a mask is empty"
            }
            Refusal::Address => {
                "a CIC, a range or a PCM system leaves the table; or a circuit addressed singly, \
                 or by a set bit of a status or a mask, is not equipped"
            }
            Refusal::State => {
                "releasing finds no calling or talking call; blocking or unblocking names \
                 a circuit with a waiting reset; or a circuit reset finds a group reset"
            }
            Refusal::NoneOpen => "seizing finds the policy's set empty",
            Refusal::Choice => "the policy's choice is past the table or not open",
        }
    }
}

impl fmt::Display for Refusal {
    fn fmt<W: fmt::Write>(&self, f: &mut fmt::Formatter<W>) -> fmt::Result {
        write!(f, "{}: {}", Heading(self.brief()), self.meanings())
    }
}

impl Error for Refusal {}

impl From<MessageFault> for Refusal {
    ghost from_gives = { λ f r. r ≡ refused_as f };

    #[inline(always)]
    fn from(fault: MessageFault) -> Refusal {
        match fault {
            MessageFault::NoRoom => Refusal::Buffers,
            MessageFault::Short => Refusal::Short,
            MessageFault::Unknown(octet) => Refusal::Unknown(octet),
            MessageFault::Layout(octet) => Refusal::Layout(octet),
            MessageFault::Limit(octet) => Refusal::Limit(octet),
        }
    }
}
