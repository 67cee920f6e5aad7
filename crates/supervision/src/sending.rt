// Messages of ours for the circuits of PCM systems, and the alert, written after what an operation
// wrote already.
ghost use Rattle.std.specs.Prelude.{◌≡◌, ◌+◌, ◌<◌, ◌≤◌, List, ℕ, length, Some};
ghost use Rattle.supervision.specs.Due.{is_due};
ghost use Rattle.supervision.specs.Expiring.{alerting};
ghost use Rattle.supervision.specs.Groups.{asking, groups};
ghost use Rattle.supervision.specs.Steps.{sending, Extends};
ghost use Rattle.supervision.specs.Trunks.{places};

use crate::due::Due;
use crate::effects::send;
use crate::group::slots_of;
use crate::limits::{OCTETS, SLOTS, WORDS};
use crate::trunk::Trunk;
use circuit::Circuit;
use message::{BlockType, Grouped, Message};
use policy::Place;
use status::Cic;
use words::{Timer, Word};

// Tells the alert of a timer; how many words and octets are written then.
#[inline(always)]
pub(crate) fn alert(
    timer: Timer,
    cic: Cic,
    written: (usize, usize),
    words: &mut [u32],
) -> (usize, usize)
    requires word { written.0 < WORDS }
    requires words { WORDS ≤ length words.old }
    ensures alerts { (octets : List ℕ)
        → Extends (alerting (Some (timer, cic))) written words.old octets result words.new octets }
    ensures told { result.0 ≡ written.0 + 1 }
{
    words[written.0] = u32::from(Word::Alert(timer, cic));
    (written.0 + 1, written.1)
}

impl Trunk {
    // Sends our group message for the time slots of a mask, if it has any.
    #[inline(always)]
    pub(crate) fn send_mask(
        self,
        system: usize,
        mask: u32,
        what: Grouped,
        why: BlockType,
        written: (usize, usize),
        words: &mut [u32],
        octets: &mut [u8],
    ) -> (usize, usize)
        requires system { system < self.config.systems }
        requires word { written.0 < WORDS }
        requires room { written.1 + 11 ≤ OCTETS }
        requires words { WORDS ≤ length words.old }
        requires octets { OCTETS ≤ length octets.old }
        ensures sends { Extends (sending (asking self.config what why system mask)) written
            words.old octets.old result words.new octets.new }
        ensures told { result.0 ≤ written.0 + 1 }
        ensures sent { result.1 ≤ written.1 + 11 }
        ensures words { length words.new ≡ length words.old }
        ensures octets { length octets.new ≡ length octets.old }
    {
        if mask == 0 {
            return written;
        }
        let status = (mask / 2).to_le_bytes();
        let slots = slots_of(system, &status);
        let message = Message::Grouped(self.cic_at(slots.first), what, why, slots.group);
        send(message, written, words, octets)
    }

    // Sends one for each PCM system of the range that has such circuits, rising.
    #[inline(always)]
    pub(crate) fn send_groups(
        self,
        due: Due<'_>,
        what: Grouped,
        why: BlockType,
        table: &[Circuit],
        written: (usize, usize),
        words: &mut [u32],
        octets: &mut [u8],
    ) -> (usize, usize)
        requires table { length table.now ≡ places self.config }
        requires inside { due.slots.first.0 + due.slots.group.range.0 < places self.config }
        requires word { written.0 + 16 ≤ WORDS }
        requires room { written.1 + 176 ≤ OCTETS }
        requires words { WORDS ≤ length words.old }
        requires octets { OCTETS ≤ length octets.old }
        ensures sends { Extends
            (sending (groups self.config what why (is_due due.entry) table.now)) written
            words.old octets.old result words.new octets.new }
        ensures told { result.0 ≤ written.0 + 16 }
        ensures sent { result.1 ≤ written.1 + 176 }
        ensures words { length words.new ≡ length words.old }
        ensures octets { length octets.new ≡ length octets.old }
    {
        let mut written = written;
        let last = due.slots.first.0 + due.slots.group.range.0 as usize;
        for system in due.slots.first.0 / SLOTS..last / SLOTS + 1 {
            let mask = due.mask(system, table);
            written = self.send_mask(system, mask, what, why, written, words, octets);
        }
        written
    }
}
