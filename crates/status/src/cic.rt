// The circuit identification code.
ghost use Rattle.std.specs.Prelude.{◌≡◌, ◌/◌, ◌%◌, ◌<◌, [], ◌∷◌};
ghost use Rattle.status.specs.Circuits.{cic_of, circuit_at};

use std::fmt;

/// A circuit identification code (CIC). On the line it has 12 bits, 0 to 4,095. The type holds more, since a range may
/// name numbers past the last code; no message can carry such a one, and writing and operations refuse it.
#[derive(Clone, Copy, PartialEq, Eq, PartialOrd, Ord, Debug)]
pub struct Cic(pub u16);

impl Cic {
    /// The largest code that the line can carry.
    pub const LAST: Cic = Cic(4095);

    /// The code in the first two octets of a message. The upper four bits of the second are spare and not looked at.
    // A method, as std's `from_le_bytes` is: a `From` would not say which octet is the low one.
    #[inline(always)]
    pub fn from_octets(low: u8, high: u8) -> Cic
        ensures value { result.0 ≡ cic_of low high }
        ensures bound { result.0 < 4096 }
    {
        Cic(u16::from_le_bytes([low, high % 16]))
    }

    /// The first two octets of a message of this circuit, the low one first. The spare bits are 0 for a code up to
    /// `LAST`; of a larger number they carry what is past twelve bits.
    #[inline(always)]
    pub fn octets(self) -> [u8; 2]
        ensures { result ≡ (self.0 % 256) ∷ (self.0 / 256) ∷ [] }
    {
        self.0.to_le_bytes()
    }

    /// The circuit `n` places after this one, as the bits of a status count them from the CIC of the message. It may
    /// lie past `LAST`, and is 65,535 where 16 bits do not hold the sum.
    #[inline(always)]
    pub fn after(self, n: u8) -> Cic
        ensures { result.0 ≡ circuit_at self.0 n }
    {
        Cic(self.0.saturating_add(n as u16))
    }
}

impl fmt::Display for Cic {
    fn fmt<W: fmt::Write>(&self, f: &mut fmt::Formatter<W>) -> fmt::Result {
        write!(f, "{}", self.0)
    }
}
