// The kinds of messages, by the abbreviations of the field, with their names and type octets.
ghost use Rattle.std.specs.Prelude.{◌≡◌, ◌<◌, None, Some, MatchResult};
ghost use Rattle.message.specs.Meaning.{indicator_of};
ghost use Rattle.message.specs.Types.{kind_of, type_of};
ghost use Rattle.message.specs.declared.fault.MessageFault.TheVariants.{Unknown};

use crate::fault::MessageFault;
use crate::types::*;
use std::error::Error;
use std::fmt;

/// Why circuits are blocked: the low two bits of an indicator.
#[derive(Clone, Copy, PartialEq, Eq, Debug)]
pub enum BlockType {
    /// For maintenance: a call on the circuit goes on.
    Maintenance = 0,
    /// For a hardware failure: a call on the circuit ends.
    Hardware = 1,
}

/// An indicator that stands for no block type: it is not 0 and not 1.
#[derive(Clone, Copy, PartialEq, Eq, Debug)]
pub struct UnknownIndicator(pub u8);

// The indicator, without its spare bits.
impl From<BlockType> for u8 {
    ghost from_gives = { λ why indicator. indicator ≡ indicator_of why };

    #[inline(always)]
    fn from(why: BlockType) -> u8 {
        why as u8
    }
}

impl TryFrom<u8> for BlockType {
    type Error = UnknownIndicator;

    ghost try_from_gives = { λ indicator result.
        MatchResult result (λ why. indicator_of why ≡ indicator)
        (λ unknown. (1 < indicator) × (unknown.0 ≡ indicator)) };

    #[inline(always)]
    fn try_from(indicator: u8) -> Result<BlockType, UnknownIndicator> {
        match indicator {
            0 => Ok(BlockType::Maintenance),
            1 => Ok(BlockType::Hardware),
            _ => Err(UnknownIndicator(indicator)),
        }
    }
}

impl fmt::Display for BlockType {
    fn fmt<W: fmt::Write>(&self, f: &mut fmt::Formatter<W>) -> fmt::Result {
        f.write_str(match self {
            BlockType::Maintenance => "maintenance",
            BlockType::Hardware => "hardware",
        })
    }
}

impl fmt::Display for UnknownIndicator {
    fn fmt<W: fmt::Write>(&self, f: &mut fmt::Formatter<W>) -> fmt::Result {
        write!(
            f,
            "the indicator {} is neither 0 (maintenance) nor 1 (hardware)",
            self.0
        )
    }
}

impl Error for UnknownIndicator {}

/// Messages of one circuit of which nothing follows the type.
#[derive(Clone, Copy, PartialEq, Eq, Debug)]
pub enum Single {
    /// reset circuit
    Rsc,
    /// blocking
    Blo,
    /// unblocking
    Ubl,
    /// blocking acknowledgement
    Bla,
    /// unblocking acknowledgement
    Uba,
}

/// Blocking messages of a group of circuits.
#[derive(Clone, Copy, PartialEq, Eq, Debug)]
pub enum Grouped {
    /// circuit group blocking
    Cgb,
    /// circuit group unblocking
    Cgu,
    /// circuit group blocking acknowledgement
    Cgba,
    /// circuit group unblocking acknowledgement
    Cgua,
}

/// Messages of a call whose body is not looked at.
#[derive(Clone, Copy, PartialEq, Eq, Debug)]
pub enum CallKind {
    /// initial address
    Iam,
    /// address complete
    Acm,
    /// connect
    Con,
    /// answer
    Anm,
    /// call progress
    Cpg,
}

/// What a type octet says a message is. `Display` gives the abbreviation, `name` the full name.
#[derive(Clone, Copy, PartialEq, Eq, Debug)]
pub enum Kind {
    Single(Single),
    /// RLC, release complete
    ReleaseComplete,
    /// GRS, circuit group reset
    GroupReset,
    /// GRA, circuit group reset acknowledgement
    GroupResetAck,
    Grouped(Grouped),
    /// REL, release
    Release,
    Call(CallKind),
}

// The type octet.
impl From<Kind> for u8 {
    ghost from_gives = { λ kind octet. octet ≡ type_of kind };

    #[inline(always)]
    fn from(kind: Kind) -> u8 {
        match kind {
            Kind::Call(CallKind::Iam) => IAM,
            Kind::Call(CallKind::Acm) => ACM,
            Kind::Call(CallKind::Con) => CON,
            Kind::Call(CallKind::Anm) => ANM,
            Kind::Release => REL,
            Kind::ReleaseComplete => RLC,
            Kind::Single(Single::Rsc) => RSC,
            Kind::Single(Single::Blo) => BLO,
            Kind::Single(Single::Ubl) => UBL,
            Kind::Single(Single::Bla) => BLA,
            Kind::Single(Single::Uba) => UBA,
            Kind::GroupReset => GRS,
            Kind::Grouped(Grouped::Cgb) => CGB,
            Kind::Grouped(Grouped::Cgu) => CGU,
            Kind::Grouped(Grouped::Cgba) => CGBA,
            Kind::Grouped(Grouped::Cgua) => CGUA,
            Kind::GroupResetAck => GRA,
            Kind::Call(CallKind::Cpg) => CPG,
        }
    }
}

impl TryFrom<u8> for Kind {
    type Error = MessageFault;

    ghost try_from_gives = { λ octet result. MatchResult result (λ kind. kind_of octet ≡ Some kind)
        (λ fault. (kind_of octet ≡ None) × (fault ≡ Unknown octet)) };

    #[inline(always)]
    fn try_from(octet: u8) -> Result<Kind, MessageFault> {
        match octet {
            IAM => Ok(Kind::Call(CallKind::Iam)),
            ACM => Ok(Kind::Call(CallKind::Acm)),
            CON => Ok(Kind::Call(CallKind::Con)),
            ANM => Ok(Kind::Call(CallKind::Anm)),
            REL => Ok(Kind::Release),
            RLC => Ok(Kind::ReleaseComplete),
            RSC => Ok(Kind::Single(Single::Rsc)),
            BLO => Ok(Kind::Single(Single::Blo)),
            UBL => Ok(Kind::Single(Single::Ubl)),
            BLA => Ok(Kind::Single(Single::Bla)),
            UBA => Ok(Kind::Single(Single::Uba)),
            GRS => Ok(Kind::GroupReset),
            CGB => Ok(Kind::Grouped(Grouped::Cgb)),
            CGU => Ok(Kind::Grouped(Grouped::Cgu)),
            CGBA => Ok(Kind::Grouped(Grouped::Cgba)),
            CGUA => Ok(Kind::Grouped(Grouped::Cgua)),
            GRA => Ok(Kind::GroupResetAck),
            CPG => Ok(Kind::Call(CallKind::Cpg)),
            _ => Err(MessageFault::Unknown(octet)),
        }
    }
}

impl Kind {
    // The abbreviation and the full name.
    fn names(self) -> (&'static str, &'static str) {
        match self {
            Kind::Single(Single::Rsc) => ("RSC", "reset circuit"),
            Kind::Single(Single::Blo) => ("BLO", "blocking"),
            Kind::Single(Single::Ubl) => ("UBL", "unblocking"),
            Kind::Single(Single::Bla) => ("BLA", "blocking acknowledgement"),
            Kind::Single(Single::Uba) => ("UBA", "unblocking acknowledgement"),
            Kind::ReleaseComplete => ("RLC", "release complete"),
            Kind::GroupReset => ("GRS", "circuit group reset"),
            Kind::GroupResetAck => ("GRA", "circuit group reset acknowledgement"),
            Kind::Grouped(Grouped::Cgb) => ("CGB", "circuit group blocking"),
            Kind::Grouped(Grouped::Cgu) => ("CGU", "circuit group unblocking"),
            Kind::Grouped(Grouped::Cgba) => ("CGBA", "circuit group blocking acknowledgement"),
            Kind::Grouped(Grouped::Cgua) => ("CGUA", "circuit group unblocking acknowledgement"),
            Kind::Release => ("REL", "release"),
            Kind::Call(CallKind::Iam) => ("IAM", "initial address"),
            Kind::Call(CallKind::Acm) => ("ACM", "address complete"),
            Kind::Call(CallKind::Con) => ("CON", "connect"),
            Kind::Call(CallKind::Anm) => ("ANM", "answer"),
            Kind::Call(CallKind::Cpg) => ("CPG", "call progress"),
        }
    }

    /// The full name, as `circuit group blocking`.
    pub fn name(self) -> &'static str {
        self.names().1
    }
}

impl fmt::Display for Kind {
    fn fmt<W: fmt::Write>(&self, f: &mut fmt::Formatter<W>) -> fmt::Result {
        f.write_str(self.names().0)
    }
}
