// A range of circuits.
ghost use Rattle.std.specs.Prelude.{◌≡◌, ℕ, ◌-◌, ◌/◌, ◌%◌, ◌^◌, ◌<◌, length};
ghost use Rattle.status.specs.Bits.{octets_for, bit_at, SameBits, cleared};

/// The range of a group: it names the circuit of its message and as many circuits after it as it says, so it is one
/// less than their number. The type holds 0 too, which no message may have.
#[derive(Clone, Copy, PartialEq, Eq, Debug)]
pub struct Range(pub u8);

/// The largest range of a circuit group reset (GRS) and of its acknowledgement (GRA).
pub const MAX_RESET_RANGE: u8 = 31;

/// The largest range of a blocking message of a group (CGB, CGU, CGBA, CGUA).
pub const MAX_BLOCKING_RANGE: u8 = 255;

impl Range {
    /// How many octets the status has, 1 to 32: a bit for each circuit.
    #[inline(always)]
    pub fn status_octets(self) -> usize
        ensures { result ≡ octets_for self.0 }
    {
        self.0 as usize / 8 + 1
    }

    // The bits of the last octet of a status that stand for circuits.
    #[inline(always)]
    pub(crate) fn last_mask(self) -> u8
        ensures { result ≡ 255 / 2 ^ (7 - self.0 % 8) }
    {
        0xff >> (7 - self.0 % 8)
    }

    /// Clears the spare bits of the last octet of a status, as it is written. A status too short to have that octet
    /// stays as it is.
    // It takes octets to write, and a group only reads.
    #[inline(always)]
    pub fn clear_spare(self, status: &mut [u8])
        ensures after { status.new ≡ cleared self.0 status.old }
        ensures same { SameBits self.0 status.old status.new }
        ensures spare { length status.old ≡ octets_for self.0 → (k : ℕ) → self.0 < k
            → bit_at status.new k ≡ 0 }
    {
        let end = self.0 as usize / 8;
        if end < status.len() {
            status[end] &= self.last_mask();
        }
    }
}
