// A fault or a refusal by its number, for scripts and for people.
use crate::kinds::Kind;
use std::fmt;

/// A fault or a refusal as one line of numbers, as programs print it and scripts read it: `refused 6 type=18`, or
/// `refused 4` where there is no type octet.
#[derive(Clone, Copy, PartialEq, Eq, Debug)]
pub struct Brief {
    /// 1 to 12
    pub number: u8,
    /// The type octet of the message that was refused.
    pub type_octet: Option<u8>,
}

impl fmt::Display for Brief {
    fn fmt<W: fmt::Write>(&self, f: &mut fmt::Formatter<W>) -> fmt::Result {
        write!(f, "refused {}", self.number)?;
        match self.type_octet {
            Some(octet) => write!(f, " type={octet:02X}"),
            None => Ok(()),
        }
    }
}

/// The same at the head of what was wrong, with the message's name: `refused 6, CGB (circuit group blocking, type 18)`.
#[derive(Clone, Copy, PartialEq, Eq, Debug)]
pub struct Heading(pub Brief);

impl fmt::Display for Heading {
    fn fmt<W: fmt::Write>(&self, f: &mut fmt::Formatter<W>) -> fmt::Result {
        write!(f, "refused {}", self.0.number)?;
        let Some(octet) = self.0.type_octet else {
            return Ok(());
        };
        match Kind::try_from(octet) {
            Ok(kind) => write!(f, ", {kind} ({}, type {octet:02X})", kind.name()),
            Err(_) => write!(f, ", type {octet:02X}"),
        }
    }
}
