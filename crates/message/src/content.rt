// A message, with the parts of the received octets that it does not take apart.
ghost use Rattle.std.specs.Prelude.{◌≡◌};
ghost use Rattle.message.specs.Encode.{type_in};
ghost use Rattle.message.specs.Meaning.{meaning};
ghost use Rattle.message.specs.Msg.{cic_in, kind_in};

use crate::cause::Cause;
use crate::kinds::{BlockType, CallKind, Grouped, Kind, Single};
use status::{Cic, Group, Range};

/// A message: each case has the CIC, of a group that of its first circuit, and holds parts of the octets received. One
/// that was read keeps all limits; one that a host made may not, and is then refused when it is written.
#[derive(Clone, Copy)]
pub enum Message<'a> {
    /// RSC, BLO, UBL, BLA, UBA
    Single(Cic, Single),
    /// RLC
    ReleaseComplete(Cic),
    /// GRS, whose range is from 1 to 31
    GroupReset(Cic, Range),
    /// GRA: a set bit is a circuit that the far end has blocked for maintenance
    GroupResetAck(Cic, Group<'a>),
    /// CGB, CGU, CGBA, CGUA
    Grouped(Cic, Grouped, BlockType, Group<'a>),
    /// REL
    Release(Cic, Cause<'a>),
    /// IAM, ACM, CON, ANM, CPG, with the body, of one octet or more
    Call(Cic, CallKind, &'a [u8]),
}

impl Message<'_> {
    /// The circuit that the message is of, the first one of a group.
    #[inline(always)]
    pub fn cic(self) -> Cic
        ensures { result.0 ≡ cic_in (meaning self.entry) }
    {
        match self {
            Message::Single(cic, _)
            | Message::ReleaseComplete(cic)
            | Message::GroupResetAck(cic, _)
            | Message::Grouped(cic, _, _, _)
            | Message::Release(cic, _)
            | Message::Call(cic, _, _)
            | Message::GroupReset(cic, _) => cic,
        }
    }

    /// What the message is, without its parts.
    #[inline(always)]
    pub fn kind(self) -> Kind
        ensures { result ≡ kind_in (meaning self.entry) }
    {
        match self {
            Message::Single(_, what) => Kind::Single(what),
            Message::ReleaseComplete(_) => Kind::ReleaseComplete,
            Message::GroupReset(_, _) => Kind::GroupReset,
            Message::GroupResetAck(_, _) => Kind::GroupResetAck,
            Message::Grouped(_, what, _, _) => Kind::Grouped(what),
            Message::Release(_, _) => Kind::Release,
            Message::Call(_, what, _) => Kind::Call(what),
        }
    }

    /// The type octet that the message is written with.
    #[inline(always)]
    pub fn type_octet(self) -> u8
        ensures { result ≡ type_in (meaning self.entry) }
    {
        u8::from(self.kind())
    }
}
