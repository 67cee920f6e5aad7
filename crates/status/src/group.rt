// The range and status of a group, which bits are set, and the circuits that they name.
ghost use Rattle.std.specs.Prelude.{◌≡◌, ℕ, ◌+◌, ◌*◌, ◌<◌, List, length};
ghost use Rattle.status.specs.Bits.{is_named, set_bits, SameBits};
ghost use Rattle.status.specs.Naming.{circuits_of, left_named, NextSet};

use crate::cic::Cic;
use crate::naming::Named;
use crate::range::Range;

/// How many bits of a group's status may be set.
pub const MAX_SET_BITS: u32 = 32;

/// A range, and the status octets of its circuits as they stand in the message, with their spare bits. Bits past the
/// range are passed over, and bits of octets that are not there are 0.
#[derive(Clone, Copy)]
pub struct Group<'a> {
    pub range: Range,
    pub status: &'a [u8],
}

// How many bits of at most 31 octets are set, which an octet holds.
#[inline(always)]
fn ones_in(octets: &[u8]) -> u8
    requires { length octets.now < 32 }
    ensures { result ≡ set_bits octets.now (8 * length octets.now) }
{
    let mut count = 0;
    for octet in octets {
        count += octet.count_ones() as u8;
    }
    count
}

impl<'a> Group<'a> {
    /// Whether the range has a circuit `n`, counted from 0 at the circuit of the message, and its bit is set.
    #[inline(always)]
    pub fn is_set(self, n: u8) -> bool
        ensures { result ≡ is_named self.entry.range.0 self.entry.status.now n }
    {
        let octet = self.status.get(n as usize / 8);
        n <= self.range.0 && octet.is_some_and(|octet| (octet >> (n % 8)) % 2 == 1)
    }

    /// How many circuits have their bit set, 0 to 256. A message may set `MAX_SET_BITS`.
    #[inline(always)]
    pub fn count_set(self) -> u32
        ensures value { result ≡ set_bits self.entry.status.now (self.entry.range.0 + 1) }
        ensures names { (m : ℕ)
            → result ≡ length (circuits_of m self.entry.range.0 self.entry.status.now) }
        ensures spare { (xs : List ℕ) → SameBits self.entry.range.0 self.entry.status.now xs
            → result ≡ set_bits xs (self.entry.range.0 + 1) }
    {
        let last = self.range.0 as usize / 8;
        let whole = ones_in(&self.status[..last.min(self.status.len())]) as u32;
        match self.status.get(last) {
            Some(octet) => whole + (octet & self.range.last_mask()).count_ones(),
            None => whole,
        }
    }

    /// The circuits of the range whose bits are set, rising, where `first` is the CIC of the message.
    pub fn named(self, first: Cic) -> Named<'a>
        ensures value { left_named result
            ≡ circuits_of first.0 self.entry.range.0 self.entry.status.now }
        ensures spare { (xs : List ℕ) → SameBits self.entry.range.0 self.entry.status.now xs
            → left_named result ≡ circuits_of first.0 self.entry.range.0 xs }
    {
        Named {
            first,
            group: self,
            next: 0,
        }
    }

    // The first bit from `from` on that is set.
    pub(crate) fn next_set(self, from: u16) -> Option<u8>
        ensures { NextSet self.entry.range.0 self.entry.status.now from result }
    {
        let n = (from..self.range.0 as u16 + 1).find(|n| self.is_set(*n as u8))?;
        Some(n as u8)
    }
}
