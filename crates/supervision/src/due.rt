// Circuits for which a message is due, by what their records say.
ghost use Rattle.std.specs.Prelude.{◌≡◌, ℕ, ◌+◌, ◌*◌, ◌/◌, ◌<◌, not, ◌&&◌, length, nat_le, ◌==◌};
ghost use Rattle.circuit.specs.declared.record.Circuit.{Circuit as Record};
ghost use Rattle.supervision.specs.Due.{holds, is_due, due_bits};
ghost use Rattle.supervision.specs.Groups.{mask_by};
ghost use Rattle.supervision.specs.Steps.{touched};
ghost use Rattle.supervision.specs.Trunks.{placed};

use crate::limits::{MOST_SYSTEMS, SLOTS};
use crate::slots::{Effect, Slots};
use circuit::{Call, Circuit, LocalBlock, Reset};
use message::BlockType;
use policy::Place;
use status::{Group, Range};

// What a record says of a circuit for which a message is due.
#[derive(Clone, Copy)]
pub(crate) enum Condition {
    // a local block of a type: none, asked or set, asked, lifting
    Unblocked(BlockType),
    Standing(BlockType),
    Asked(BlockType),
    Lifting(BlockType),
    Releasing,
    // a reset that waits
    Single,
    Group,
}

// The circuits of slots where an effect does something and a condition holds.
#[derive(Clone, Copy)]
pub(crate) struct Due<'a> {
    pub(crate) slots: Slots<'a>,
    pub(crate) effect: Effect,
    pub(crate) condition: Condition,
}

impl Condition {
    // Whether it holds of a circuit.
    #[inline(always)]
    pub(crate) fn holds(self, circuit: Circuit) -> bool
        ensures { result ≡ holds self circuit }
    {
        match self {
            Condition::Unblocked(why) => circuit.local.of(why).is_none(),
            Condition::Standing(why) => circuit.local.of(why).is_standing(),
            Condition::Asked(why) => circuit.local.of(why) == LocalBlock::Asked,
            Condition::Lifting(why) => circuit.local.of(why) == LocalBlock::Lifting,
            Condition::Releasing => circuit.call == Call::Releasing,
            Condition::Single => circuit.reset == Reset::Single,
            Condition::Group => circuit.reset == Reset::Group,
        }
    }

    // Whether a circuit is at a place, and it holds of it.
    #[inline(always)]
    fn is_at(self, place: Place, table: &[Circuit]) -> bool
        ensures { result
            ≡ ((placed table.now place.0).equipped && holds self (placed table.now place.0)) }
    {
        table
            .get(place.0)
            .is_some_and(|circuit| circuit.equipped && self.holds(*circuit))
    }

    // Whether it holds of some circuit of a PCM system. Time slot 0 is never one.
    #[inline(always)]
    pub(crate) fn is_in(self, system: usize, table: &[Circuit]) -> bool
        requires { system < MOST_SYSTEMS }
        ensures { result
            ≡ not (mask_by (λ _ x. x.equipped && holds self x) system table.now == 0) }
    {
        for slot in 1..SLOTS {
            if self.is_at(Place(system * SLOTS + slot), table) {
                return true;
            }
        }
        false
    }
}

impl Due<'_> {
    // All circuits of a PCM system of which a condition holds.
    #[inline(always)]
    pub(crate) fn of_system(system: usize, condition: Condition) -> Due<'static>
        requires { system < MOST_SYSTEMS }
        ensures inside { result.slots.first.0 + result.slots.group.range.0 < (system + 1) * SLOTS }
        ensures due { (k : ℕ) (x : Record) → k / SLOTS ≡ system
            → is_due result k x ≡ (x.equipped && holds condition x) }
    {
        let slots = Slots {
            first: Place(system * SLOTS),
            group: Group {
                range: Range(31),
                status: &[],
            },
        };
        Due {
            slots,
            effect: Effect::Acknowledged,
            condition,
        }
    }

    // Whether the effect does something at a place.
    #[inline(always)]
    fn is_touched(self, place: Place) -> bool
        ensures { result ≡ touched self.entry.effect self.entry.slots place.0 }
    {
        let Some(n) = place.0.checked_sub(self.slots.first.0) else {
            return false;
        };
        n <= self.slots.group.range.0 as usize && self.slots.touches(self.effect, n as u8)
    }

    // Whether the circuit n places after `from` is one of them, where n is not below `start`.
    #[inline(always)]
    fn is_at(self, from: Place, start: usize, n: usize, table: &[Circuit]) -> bool
        requires inside { from.0 + n < length table.now }
        requires small { from.0 + n < 8192 }
        ensures { result
            ≡ (nat_le start n && is_due self.entry (from.0 + n) (placed table.now (from.0 + n))) }
    {
        let circuit = table[from.0 + n];
        // most circuits are told apart by their record, before it is seen whether they are touched
        n >= start
            && circuit.equipped
            && self.condition.holds(circuit)
            && self.is_touched(Place(from.0 + n))
    }

    // A bit for each of the 32 places from `from` on, set where one of them is, and none below bit
    // `start`.
    #[inline(always)]
    pub(crate) fn bits(self, from: Place, start: usize, table: &[Circuit]) -> u32
        requires small { from.0 < 4096 }
        requires inside { self.slots.first.0 + self.slots.group.range.0 < length table.now }
        ensures { result ≡ due_bits self.entry from.0 start table.now }
    {
        let end = self.slots.first.0 + self.slots.group.range.0 as usize + 1;
        let mut bits = 0;
        for n in 0..end.saturating_sub(from.0).min(SLOTS) {
            bits += u32::from(self.is_at(from, start, n, table)) << n;
        }
        bits
    }

    // The mask of those of a PCM system. Time slot 0 is never one.
    #[inline(always)]
    pub(crate) fn mask(self, system: usize, table: &[Circuit]) -> u32
        requires small { system < MOST_SYSTEMS }
        requires inside { self.slots.first.0 + self.slots.group.range.0 < length table.now }
        ensures { result ≡ mask_by (is_due self.entry) system table.now }
    {
        self.bits(Place(system * SLOTS), 1, table)
    }
}
