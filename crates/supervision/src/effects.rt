// All that an accepted operation writes.
ghost use Rattle.std.specs.Prelude.{◌≡◌, ℕ, ◌+◌, ◌*◌, ◌<◌, ◌≤◌, true, List, ◌∷◌, [], map, length, None, nat_eq};
ghost use Rattle.message.specs.Encode.{encode, refusal_of};
ghost use Rattle.message.specs.Meaning.{meaning};
ghost use Rattle.circuit.specs.Circuits.{is_open};
ghost use Rattle.circuit.specs.Laws.{told_of};
ghost use Rattle.circuit.specs.declared.record.Circuit.{Circuit as Record};
ghost use Rattle.circuit.specs.declared.rules.Change.{Change as Changed};
ghost use Rattle.circuit.specs.declared.rules.Rule.{Rule as Rules};
ghost use Rattle.circuit.specs.Orders.{applied};
ghost use Rattle.policy.specs.Sets.{Follows};
ghost use Rattle.status.specs.Bits.{set_bits};
ghost use Rattle.words.specs.Words.{number_of};
ghost use Rattle.supervision.specs.Lending.{Performed, Sendable, Suffices, lent, over};
ghost use Rattle.supervision.specs.Orders.{ordered};
ghost use Rattle.supervision.specs.Receiving.{moving};
ghost use Rattle.supervision.specs.Steps.{settled_at, named_by, touched, rule_by, tally, sending, Extends};
ghost use Rattle.supervision.specs.Telling.{update_at, Tells};
ghost use Rattle.supervision.specs.Trunks.{places, cic_at, placed};

use crate::limits::{OCTETS, WORDS};
use crate::slots::{Effect, Slots};
use crate::trunk::Trunk;
use circuit::{Change, Circuit, Rule};
use message::{Message, write};
use policy::{Place, Policy};
use status::Cic;
use words::Word;

// Writes a record whole, and offers its place if it opened, or withdraws it if it closed.
#[inline(always)]
fn put<P: Policy>(place: Place, new: Circuit, circuit: &mut Circuit, policy: &mut P)
    ensures circuit { circuit.new ≡ new }
    ensures held { P.Policy.held policy.new
        ≡ settled_at (P.Policy.held policy.old) place.0 (is_open circuit.old) (is_open new) }
    ensures policy { Follows P.Policy.obeys (update_at place.0 (is_open circuit.old) (is_open new))
        policy.old policy.new }
{
    let was = circuit.is_open();
    let is = new.is_open();
    *circuit = new;
    match (was, is) {
        (false, true) => policy.offer(place),
        (true, false) => policy.withdraw(place),
        _ => {}
    }
}

// Tells of the call of a circuit; how many words that takes.
#[inline(always)]
fn tell(cic: Cic, change: Change, words: &mut [u32]) -> usize
    requires { 2 ≤ length words.old }
    ensures words { words.new ≡ over (map number_of (told_of cic change)) words.old }
    ensures count { result ≡ length (told_of cic change) }
{
    let mut count = 0;
    if let Some(cause) = change.ended {
        words[count] = u32::from(Word::Ended(cause, cic));
        count += 1;
    }
    if let Some(way) = change.begun {
        words[count] = u32::from(Word::Begun(way, cic));
        count += 1;
    }
    count
}

// Writes what a rule made of the circuit of a place, and tells of its call; how many words that takes.
#[inline(always)]
fn store<P: Policy>(
    cic: Cic,
    place: Place,
    change: Change,
    circuit: &mut Circuit,
    policy: &mut P,
    words: &mut [u32],
) -> usize
    requires { 2 ≤ length words.old }
    ensures circuit { circuit.new ≡ change.circuit }
    ensures held { P.Policy.held policy.new
        ≡ settled_at (P.Policy.held policy.old) place.0 (is_open circuit.old)
        (is_open change.circuit) }
    ensures policy { Follows P.Policy.obeys
        (update_at place.0 (is_open circuit.old) (is_open change.circuit)) policy.old policy.new }
    ensures words { words.new ≡ over (map number_of (told_of cic change)) words.old }
    ensures count { result ≡ length (told_of cic change) }
{
    put(place, change.circuit, circuit, policy);
    tell(cic, change, words)
}

// Writes one message more, and tells the send; how many words and octets are written then.
#[inline(always)]
pub(crate) fn send(
    message: Message<'_>,
    written: (usize, usize),
    words: &mut [u32],
    octets: &mut [u8],
) -> (usize, usize)
    requires writable { refusal_of (meaning message) ≡ None }
    requires word { written.0 < WORDS }
    requires room { written.1 + length (encode (meaning message)) ≤ OCTETS }
    requires words { WORDS ≤ length words.old }
    requires octets { OCTETS ≤ length octets.old }
    ensures sends { Extends (sending (meaning message.entry ∷ [])) written words.old octets.old
        result words.new octets.new }
    ensures told { result.0 ≡ written.0 + 1 }
    ensures sent { result.1 ≡ written.1 + length (encode (meaning message.entry)) }
    ensures words { length words.new ≡ length words.old }
    ensures octets { length octets.new ≡ length octets.old }
{
    let (told, sent) = written;
    let Ok(length) = write(message, &mut octets[sent..]) else {
        unreachable()
    };
    words[told] = u32::from(Word::Send(sent as u16, length as u16));
    (told + 1, sent + length)
}

// Does its effect at each equipped place of slots; how many words that takes. The effect comes from a
// closure, so that each has an instance of its own, compiled for what it does.
pub(crate) fn sweep<P: Policy, E: Fn() -> Effect>(
    trunk: Trunk,
    slots: Slots<'_>,
    what: E,
    table: &mut [Circuit],
    policy: &mut P,
    words: &mut [u32],
) -> usize
    requires callable { E.IsAlwaysCallable what }
    requires inside { slots.first.0 + slots.group.range.0 < length table.old }
    requires table { length table.old ≤ places trunk.config }
    requires room { (e : Effect) → E.post what e → tally e slots (slots.group.range.0 + 1) ≤ 32 }
    requires words { WORDS ≤ length words.old }
    ensures done { (e : Effect) → ((x : Effect) → E.post what x → x ≡ e) → (octets : List ℕ)
        → Performed trunk.config (moving (touched e slots.entry) (rule_by e slots.entry) [])
        (result, 0)
        (lent table.old (P.Policy.held policy.old) words.old octets)
        (lent table.new (P.Policy.held policy.new) words.new octets) }
    ensures policy { Tells P.Policy.obeys table.old table.new policy.old policy.new }
    ensures few { result ≤ 64 }
{
    let effect = what();
    let end = slots.group.range.0 as usize + 1;
    let mut count = 0;
    let mut past = 0;
    while past < end {
        let bits = slots.touched(effect, past);
        let mut n = past;
        let mut rest = bits;
        while rest != 0 {
            let skipped = rest.trailing_zeros();
            n += skipped as usize;
            let place = Place(slots.first.0 + n);
            let circuit = &mut table[place.0];
            if circuit.equipped {
                let change = slots.apply(effect, n as u8, *circuit);
                let rest = &mut words[count..];
                count += store(trunk.cic_at(place), place, change, circuit, policy, rest);
            }
            n += 1;
            rest = rest >> skipped >> 1;
        }
        past = end.min(past + 32);
    }
    count
}

impl Trunk {
    // Writes what a rule made of an equipped circuit; how many words that takes.
    #[inline(always)]
    pub(crate) fn change_at<P: Policy>(
        self,
        place: Place,
        change: Change,
        table: &mut [Circuit],
        policy: &mut P,
        words: &mut [u32],
    ) -> usize
        requires inside { place.0 < length table.old }
        requires table { length table.old ≤ places self.config }
        requires room { 2 ≤ length words.old }
        requires equipped { (placed table.old place.0).equipped ≡ true }
        ensures done { (rule : Record → Changed) → change ≡ rule (placed table.old place.0)
            → (octets : List ℕ)
            → Performed self.config (moving (λ k. nat_eq k place.0) (λ _. rule) [])
            (result, 0) (lent table.old (P.Policy.held policy.old) words.old octets)
            (lent table.new (P.Policy.held policy.new) words.new octets) }
        ensures policy { Tells P.Policy.obeys table.old table.new policy.old policy.new }
        ensures few { result ≤ 2 }
    {
        let circuit = &mut table[place.0];
        store(self.cic_at(place), place, change, circuit, policy, words)
    }

    // Writes what a rule made of an equipped circuit, and sends a message.
    #[inline(always)]
    pub(crate) fn perform_at<P: Policy>(
        self,
        place: Place,
        change: Change,
        message: Message<'_>,
        table: &mut [Circuit],
        policy: &mut P,
        words: &mut [u32],
        octets: &mut [u8],
    ) -> (usize, usize)
        requires enough { Suffices self.config P.Policy.PLACES
            (lent table.old (P.Policy.held policy.old) words.old octets.old) }
        requires inside { place.0 < length table.old }
        requires equipped { (placed table.old place.0).equipped ≡ true }
        requires sendable { Sendable (meaning message) }
        ensures done { (rule : Rules) → change ≡ applied rule (placed table.old place.0)
            → Performed self.config
            (ordered (λ k. nat_eq k place.0) rule (meaning message.entry)) result
            (lent table.old (P.Policy.held policy.old) words.old octets.old)
            (lent table.new (P.Policy.held policy.new) words.new octets.new) }
        ensures policy { Tells P.Policy.obeys table.old table.new policy.old policy.new }
    {
        let told = self.change_at(place, change, table, policy, words);
        send(message, (told, 0), words, octets)
    }

    // Does a rule at each circuit that slots name, and sends a message.
    #[inline(always)]
    pub(crate) fn perform<P: Policy, R: Fn() -> Rule>(
        self,
        slots: Slots<'_>,
        rule: R,
        message: Message<'_>,
        table: &mut [Circuit],
        policy: &mut P,
        words: &mut [u32],
        octets: &mut [u8],
    ) -> (usize, usize)
        requires callable { R.IsAlwaysCallable rule }
        requires enough { Suffices self.config P.Policy.PLACES
            (lent table.old (P.Policy.held policy.old) words.old octets.old) }
        requires inside { slots.first.0 + slots.group.range.0 < length table.old }
        requires few { set_bits slots.group.status.now (slots.group.range.0 + 1) ≤ 32 }
        requires sendable { Sendable (meaning message) }
        ensures done { (r : Rule) → ((x : Rule) → R.post rule x → x ≡ r)
            → Performed self.config
            (ordered (named_by slots.entry) r (meaning message.entry)) result
            (lent table.old (P.Policy.held policy.old) words.old octets.old)
            (lent table.new (P.Policy.held policy.new) words.new octets.new) }
        ensures policy { Tells P.Policy.obeys table.old table.new policy.old policy.new }
    {
        let told = sweep(self, slots, || Effect::Marked(rule()), table, policy, words);
        send(message, (told, 0), words, octets)
    }
}
