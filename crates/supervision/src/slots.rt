// Circuits of the table that a status names.
ghost use Rattle.std.specs.Prelude.{◌≡◌, ℕ, ◌+◌, ◌/◌, ◌%◌, ◌^◌, ◌<◌, ◌≤◌, Bool, not, ◌&&◌, ◌==◌, nat_le, length, slice_index, Ok};
ghost use Rattle.circuit.specs.Laws.{allows};
ghost use Rattle.refusal.specs.Refusals.{unless};
ghost use Rattle.refusal.specs.declared.reasons.Refusal.TheVariants.{Address, State};
ghost use Rattle.status.specs.Bits.{bit_at, is_named};
ghost use Rattle.supervision.specs.Moves.{some_from};
ghost use Rattle.supervision.specs.Steps.{named_by, touched, rule_by};

use crate::group::RANGE;
use crate::limits::SLOTS;
use circuit::{Change, Circuit, Rule, Signal};
use policy::Place;
use refusal::Refusal;
use status::{Group, Range};

// What is done to the circuits of a range.
#[derive(Clone, Copy)]
pub(crate) enum Effect {
    // an order, where the status bit is set
    Marked(Rule),
    // a message, where the status bit is set
    Heard(Signal),
    // a message, at each circuit
    Every(Signal),
    // at each circuit, what GRA does with its status bit
    Acknowledged,
}

// A status, and the place of the first circuit of its range.
#[derive(Clone, Copy)]
pub(crate) struct Slots<'a> {
    pub(crate) first: Place,
    pub(crate) group: Group<'a>,
}

impl Slots<'_> {
    // Whether they are a whole PCM system, from time slot 1 with range 30.
    #[inline(always)]
    pub(crate) fn is_system(self) -> bool
        ensures { result
            ≡ (self.entry.first.0 % SLOTS == 1 && self.entry.group.range.0 == 30) }
    {
        self.first.0 % SLOTS == 1 && self.group.range == RANGE
    }

    // Whether they name the n-th circuit of the range.
    #[inline(always)]
    pub(crate) fn names(self, n: u8) -> bool
        ensures { result ≡ is_named self.entry.group.range.0 self.entry.group.status.now n }
    {
        self.group.is_set(n)
    }

    // Whether the effect does something to the n-th circuit of the range.
    #[inline(always)]
    pub(crate) fn touches(self, effect: Effect, n: u8) -> bool
        ensures { result ≡ touched effect self.entry (self.entry.first.0 + n) }
    {
        match effect {
            Effect::Marked(_) | Effect::Heard(_) => self.names(n),
            Effect::Every(_) | Effect::Acknowledged => n <= self.group.range.0,
        }
    }

    // An octet of the status.
    #[inline(always)]
    fn octet(self, i: usize) -> u32
        ensures value { result ≡ slice_index self.entry.group.status.now i }
        ensures small { result < 256 }
    {
        u32::from(self.group.status.get(i).copied().unwrap_or(0))
    }

    // A bit for each of the 32 circuits of the range from the n-th on, set where its status bit is; n is
    // a multiple of 8.
    #[inline(always)]
    fn word(self, n: usize) -> u32
        requires { n % 8 ≡ 0 }
        ensures { (j : ℕ) → j < 32
            → result / 2 ^ j % 2 ≡ bit_at self.entry.group.status.now (n + j) }
    {
        let i = n / 8;
        self.octet(i)
            + (self.octet(i + 1) << 8)
            + (self.octet(i + 2) << 16)
            + (self.octet(i + 3) << 24)
    }

    // Of the bits of 32 circuits from the n-th on, which is of the range, those of the range.
    #[inline(always)]
    fn within(self, bits: u32, n: usize) -> u32
        requires { n ≤ self.group.range.0 }
        ensures { (j : ℕ) → j < 32
            → (result / 2 ^ j % 2 == 1)
            ≡ (nat_le (n + j) self.entry.group.range.0 && bits / 2 ^ j % 2 == 1) }
    {
        let last = self.group.range.0 as usize - n;
        if last < 31 {
            return bits % (2 << last);
        }
        bits
    }

    // A bit for each of 32 circuits from the n-th on, set where it is of the range and named.
    #[inline(always)]
    fn named(self, n: usize) -> u32
        requires start { n % 8 ≡ 0 }
        requires inside { n ≤ self.group.range.0 }
        ensures { (j : ℕ) → j < 32
            → (result / 2 ^ j % 2 == 1) ≡ named_by self.entry (self.entry.first.0 + (n + j)) }
    {
        self.within(self.word(n), n)
    }

    // The same of the circuits to which an effect does something.
    #[inline(always)]
    pub(crate) fn touched(self, effect: Effect, n: usize) -> u32
        requires start { n % 8 ≡ 0 }
        requires inside { n ≤ self.group.range.0 }
        ensures { (j : ℕ) → j < 32
            → (result / 2 ^ j % 2 == 1) ≡ touched effect self.entry (self.entry.first.0 + (n + j)) }
    {
        match effect {
            Effect::Marked(_) | Effect::Heard(_) => self.named(n),
            Effect::Every(_) | Effect::Acknowledged => self.within(u32::MAX, n),
        }
    }

    // What it makes of the circuit there.
    #[inline(always)]
    pub(crate) fn apply(self, effect: Effect, n: u8, circuit: Circuit) -> Change
        ensures { result ≡ rule_by effect self.entry (self.entry.first.0 + n) circuit }
    {
        match effect {
            Effect::Marked(rule) => rule.apply(circuit),
            Effect::Heard(signal) | Effect::Every(signal) => signal.apply(circuit),
            Effect::Acknowledged => Signal::Gra(self.names(n)).apply(circuit),
        }
    }

    // Whether each named circuit passes a test.
    #[inline(always)]
    pub(crate) fn all<F: Fn(Circuit) -> bool>(self, passes: F, table: &[Circuit]) -> bool
        requires callable { F.IsAlwaysCallable passes }
        requires inside { self.first.0 + self.group.range.0 < length table.now }
        ensures { (p : Circuit → Bool) → ((c : Circuit) (r : Bool) → F.post passes c r → r ≡ p c)
            → result ≡ not (some_from (λ k c. named_by self.entry k && not (p c)) 0 table.now) }
    {
        let end = self.group.range.0 as usize + 1;
        let mut past = 0;
        while past < end {
            let bits = self.named(past);
            let mut n = past;
            let mut rest = bits;
            while rest != 0 {
                let skipped = rest.trailing_zeros();
                n += skipped as usize;
                if !passes(table[self.first.0 + n]) {
                    return false;
                }
                n += 1;
                rest = rest >> skipped >> 1;
            }
            past = end.min(past + 32);
        }
        true
    }

    // Whether an order may name them.
    #[inline(always)]
    pub(crate) fn judge(self, rule: Rule, table: &[Circuit]) -> Result<(), Refusal>
        requires { self.first.0 + self.group.range.0 < length table.now }
        ensures { result
            ≡ unless (some_from (λ k c. named_by self.entry k && not c.equipped) 0 table.now)
            Address
            (unless (some_from (λ k c. named_by self.entry k && not (allows rule c)) 0 table.now)
            State (Ok tt)) }
    {
        if self.all(|circuit| circuit.equipped && rule.allows(circuit), table) {
            return Ok(());
        }
        // a second look says which refusal it is
        if !self.all(|circuit| circuit.equipped, table) {
            return Err(Refusal::Address);
        }
        Err(Refusal::State)
    }
}
