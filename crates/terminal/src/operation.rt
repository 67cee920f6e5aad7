// What an exchange is told to do, as it is written on a line.
use crate::cutting::read_octets;
use crate::numerals::{decimal, decimal_cic, decimal_octet, hex_word};
use status::Cic;
use std::alloc::{AllocError, Global};
use supervision::Order;

/// Circuits of a PCM system, to block or unblock for a type of reason.
#[derive(Clone, Copy)]
pub struct Slots {
    /// a number, as operations take it
    pub kind: u8,
    pub system: usize,
    /// bit k names time slot k
    pub mask: u32,
}

/// An order, with a body of its own.
#[derive(Drop)]
pub enum Operation {
    /// with the body of the IAM
    Seize(Vec<u8>),
    /// with the location and the value of the cause
    Release(Cic, u8, u8),
    Block(Cic),
    Unblock(Cic),
    Reset(Cic),
    GroupBlock(Slots),
    GroupUnblock(Slots),
    /// the number of the PCM system
    GroupReset(usize),
}

impl Operation {
    /// The order, as a trunk takes it.
    pub fn as_order(&self) -> Order<'_> {
        match self {
            Operation::Seize(body) => Order::Seize(body.as_slice()),
            Operation::Release(cic, location, value) => Order::Release {
                cic: *cic,
                location: *location,
                value: *value,
            },
            Operation::Block(cic) => Order::Block(*cic),
            Operation::Unblock(cic) => Order::Unblock(*cic),
            Operation::Reset(cic) => Order::Reset(*cic),
            Operation::GroupBlock(Slots { kind, system, mask }) => Order::GroupBlock {
                kind: *kind,
                system: *system,
                mask: *mask,
            },
            Operation::GroupUnblock(Slots { kind, system, mask }) => Order::GroupUnblock {
                kind: *kind,
                system: *system,
                mask: *mask,
            },
            Operation::GroupReset(system) => Order::GroupReset(*system),
        }
    }
}

/// The order that words say, or `None` where they say none.
pub fn read_operation(heap: Global, words: &[&[u8]]) -> Result<Option<Operation>, AllocError> {
    match words {
        [b"seize", body @ ..] => Ok(read_octets(heap, body)?.map(Operation::Seize)),
        others => Ok(read_plain(others)),
    }
}

// The orders that hold no list.
fn read_plain(words: &[&[u8]]) -> Option<Operation> {
    match words {
        [b"release", cic, location, cause] => Some(Operation::Release(
            decimal_cic(cic)?,
            decimal_octet(location)?,
            decimal_octet(cause)?,
        )),
        [b"block", cic] => Some(Operation::Block(decimal_cic(cic)?)),
        [b"unblock", cic] => Some(Operation::Unblock(decimal_cic(cic)?)),
        [b"reset", cic] => Some(Operation::Reset(decimal_cic(cic)?)),
        [b"group-block", kind, system, mask] => {
            Some(Operation::GroupBlock(read_slots(kind, system, mask)?))
        }
        [b"group-unblock", kind, system, mask] => {
            Some(Operation::GroupUnblock(read_slots(kind, system, mask)?))
        }
        [b"group-reset", system] => Some(Operation::GroupReset(decimal(system)? as usize)),
        _ => None,
    }
}

fn read_slots(kind: &[u8], system: &[u8], mask: &[u8]) -> Option<Slots> {
    Some(Slots {
        kind: decimal_octet(kind)?,
        system: decimal(system)? as usize,
        mask: hex_word(mask)?,
    })
}

/// A timer that expires, at a CIC or a PCM system and of a type as it asks, by its numbers.
#[derive(Clone, Copy)]
pub struct Expiry {
    pub timer: u8,
    pub at: u16,
    pub kind: u8,
}

/// The expiry that words say; a type left out is 0.
pub fn read_expiry(words: &[&[u8]]) -> Option<Expiry> {
    let (timer, at, kind) = match words {
        [timer, at] => (timer, at, 0),
        [timer, at, kind] => (timer, at, decimal_octet(kind)?),
        _ => return None,
    };
    Some(Expiry {
        timer: decimal_octet(timer)?,
        at: decimal_cic(at)?.0,
        kind,
    })
}
