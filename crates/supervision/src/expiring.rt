// Timers that expire: a message still waited for is repeated.
ghost use Rattle.std.specs.Prelude.{◌≡◌, ◌≤◌, ◌<◌, ◌&&◌, List, [], ◌∷◌, Bool, not, cond, length, None, Option as Maybe, Ok, ◌==◌, nat_le};
ghost use Rattle.circuit.specs.Circuits.{is_group};
ghost use Rattle.message.specs.Encode.{encode, refusal_of};
ghost use Rattle.message.specs.Meaning.{meaning};
ghost use Rattle.message.specs.Msg.{cic_in, single};
ghost use Rattle.refusal.specs.Refusals.{unless};
ghost use Rattle.refusal.specs.declared.reasons.Refusal.TheVariants.{Address};
ghost use Rattle.supervision.specs.declared.trunk.Config.{Config as Numbers};
ghost use Rattle.circuit.specs.declared.record.Circuit.{Circuit as Record};
ghost use Rattle.supervision.specs.Due.{alert_for, holds, waits_for};
ghost use Rattle.supervision.specs.Expiring.{repeating, repeats_group, repeats_one, repeats_reset, gives_up, expired, expiring};
ghost use Rattle.supervision.specs.Groups.{mask_by, group_for};
ghost use Rattle.supervision.specs.Laws.{Outcome};
ghost use Rattle.supervision.specs.Lending.{Performed, Suffices, lent};
ghost use Rattle.supervision.specs.Orders.{release_message};
ghost use Rattle.supervision.specs.Receiving.{nothing};
ghost use Rattle.supervision.specs.Telling.{Tells};
ghost use Rattle.supervision.specs.Trunks.{places, first_of};

use crate::due::{Condition, Due};
use crate::effects::send;
use crate::group::{RANGE, slots_of};
use crate::limits::{OCTETS, WORDS};
use crate::sending::alert;
use crate::slots::{Effect, Slots};
use crate::trunk::Trunk;
use circuit::{Circuit, Reset, Rule};
use message::{BlockType, Cause, Grouped, Message, Single};
use policy::{Place, Policy};
use refusal::Refusal;
use status::Cic;
use words::Timer;

// Sends a message once more, with the alert that there may be; how many words and octets that
// takes.
#[inline(always)]
fn repeat(
    message: Message<'_>,
    timer: Option<Timer>,
    words: &mut [u32],
    octets: &mut [u8],
) -> (usize, usize)
    requires writable { refusal_of (meaning message) ≡ None }
    requires words { WORDS ≤ length words.old }
    requires octets { OCTETS ≤ length octets.old }
    requires short { length (encode (meaning message)) ≤ OCTETS }
    ensures { (t : Numbers) (table : List Record) (held : List Bool)
        → Performed t
        (repeating (meaning message.entry ∷ []) (alert_for timer (cic_in (meaning message.entry))))
        result
        (lent table held words.old octets.old) (lent table held words.new octets.new) }
{
    let written = send(message, (0, 0), words, octets);
    match timer {
        Some(timer) => alert(timer, message.cic(), written, words),
        None => written,
    }
}

impl Trunk {
    // A message for one circuit alone, where it is still waited for.
    #[inline(always)]
    fn repeat_one(
        self,
        cic: Cic,
        condition: Condition,
        kind: Single,
        timer: Option<Timer>,
        table: &[Circuit],
        words: &mut [u32],
        octets: &mut [u8],
    ) -> Result<(usize, usize), Refusal>
        requires table { length table.now ≡ places self.config }
        requires words { WORDS ≤ length words.old }
        requires octets { OCTETS ≤ length octets.old }
        ensures { (held : List Bool) → length table.now ≤ length held
            → Outcome self.config
            (λ before.
            repeats_one self.config cic.0 (holds condition) (λ _. single cic.0 kind)
            (alert_for timer cic.0)
            before.table) result
            (lent table.now held words.old octets.old) (lent table.now held words.new octets.new) }
    {
        let place = self.find_equipped(cic, table)?;
        if !condition.holds(table[place.0]) {
            return Ok((0, 0));
        }
        Ok(repeat(Message::Single(cic, kind), timer, words, octets))
    }

    // Our release, with the cause that was kept.
    #[inline(always)]
    fn repeat_release(
        self,
        cic: Cic,
        table: &[Circuit],
        words: &mut [u32],
        octets: &mut [u8],
    ) -> Result<(usize, usize), Refusal>
        requires table { length table.now ≡ places self.config }
        requires words { WORDS ≤ length words.old }
        requires octets { OCTETS ≤ length octets.old }
        ensures { (held : List Bool) → length table.now ≤ length held
            → Outcome self.config
            (λ before.
            repeats_one self.config cic.0 (holds Condition.Releasing)
            (λ x. release_message cic.0 x.cause) None before.table) result
            (lent table.now held words.old octets.old) (lent table.now held words.new octets.new) }
    {
        let place = self.find_equipped(cic, table)?;
        let circuit = table[place.0];
        if !Condition::Releasing.holds(circuit) {
            return Ok((0, 0));
        }
        let cause = <[u8; 2]>::from(circuit.cause);
        Ok(repeat(Message::Release(cic, Cause(&cause)), None, words, octets))
    }

    // Our group message of a type for the circuits of a PCM system that wait, where some do.
    #[inline(always)]
    fn repeat_group(
        self,
        system: usize,
        what: Grouped,
        why: BlockType,
        condition: Condition,
        timer: Option<Timer>,
        table: &[Circuit],
        words: &mut [u32],
        octets: &mut [u8],
    ) -> Result<(usize, usize), Refusal>
        requires table { length table.now ≡ places self.config }
        requires words { WORDS ≤ length words.old }
        requires octets { OCTETS ≤ length octets.old }
        ensures { (held : List Bool) → length table.now ≤ length held
            → Outcome self.config
            (λ before.
            unless (nat_le self.config.systems system) Address
            (Ok
            (cond (mask_by (λ _ x. x.equipped && holds condition x) system before.table == 0)
            nothing
            (repeating
            (group_for self.config what why (λ _ x. x.equipped && holds condition x) system
            before.table)
            (alert_for timer (first_of self.config system)))))) result
            (lent table.now held words.old octets.old) (lent table.now held words.new octets.new) }
    {
        if system >= self.config.systems {
            return Err(Refusal::Address);
        }
        let mask = Due::of_system(system, condition).mask(system, table);
        if mask == 0 {
            return Ok((0, 0));
        }
        let status = (mask / 2).to_le_bytes();
        let slots = slots_of(system, &status);
        let message = Message::Grouped(self.cic_at(slots.first), what, why, slots.group);
        Ok(repeat(message, timer, words, octets))
    }

    // A group reset, while some circuit of the PCM system waits for its answer.
    #[inline(always)]
    fn repeat_group_reset(
        self,
        system: usize,
        timer: Option<Timer>,
        table: &[Circuit],
        words: &mut [u32],
        octets: &mut [u8],
    ) -> Result<(usize, usize), Refusal>
        requires words { WORDS ≤ length words.old }
        requires octets { OCTETS ≤ length octets.old }
        ensures { (held : List Bool) → length table.now ≤ length held
            → Outcome self.config
            (λ before.
            repeats_reset self.config system (alert_for timer (first_of self.config system))
            before.table) result
            (lent table.now held words.old octets.old) (lent table.now held words.new octets.new) }
    {
        if system >= self.config.systems {
            return Err(Refusal::Address);
        }
        if !Condition::Group.is_in(system, table) {
            return Ok((0, 0));
        }
        let message = Message::GroupReset(self.cic_at(slots_of(system, &[]).first), RANGE);
        Ok(repeat(message, timer, words, octets))
    }

    // T5: a releasing circuit is reset, where that may be ordered, with an alert.
    #[inline(always)]
    fn give_up<P: Policy>(
        self,
        cic: Cic,
        table: &mut [Circuit],
        policy: &mut P,
        words: &mut [u32],
        octets: &mut [u8],
    ) -> Result<(usize, usize), Refusal>
        requires enough { Suffices self.config P.Policy.PLACES
            (lent table.old (P.Policy.held policy.old) words.old octets.old) }
        ensures outcome { Outcome self.config
            (λ before. gives_up self.config cic.0 before.table) result
            (lent table.old (P.Policy.held policy.old) words.old octets.old)
            (lent table.new (P.Policy.held policy.new) words.new octets.new) }
        ensures policy { Tells P.Policy.obeys table.old table.new policy.old policy.new }
    {
        let place = self.find_equipped(cic, table)?;
        let circuit = table[place.0];
        if !Condition::Releasing.holds(circuit) {
            return Ok((0, 0));
        }
        if circuit.reset.is_group() {
            return Err(Refusal::State);
        }
        let rule = Rule::Reset(Reset::Single);
        let message = Message::Single(cic, Single::Rsc);
        let change = rule.apply(circuit);
        let told = self.change_at(place, change, table, policy, words);
        let written = send(message, (told, 0), words, octets);
        Ok(alert(Timer::T5, cic, written, words))
    }

    // A group message of a type, given as its number: of blocks that are asked, or of blocks that
    // are lifting.
    #[inline(never)]
    fn repeat_blocks(
        self,
        system: usize,
        kind: u8,
        what: Grouped,
        timer: Option<Timer>,
        table: &[Circuit],
        words: &mut [u32],
        octets: &mut [u8],
    ) -> Result<(usize, usize), Refusal>
        requires table { length table.now ≡ places self.config }
        requires words { WORDS ≤ length words.old }
        requires octets { OCTETS ≤ length octets.old }
        ensures { (held : List Bool) → length table.now ≤ length held
            → Outcome self.config
            (λ before.
            repeats_group self.config system kind what (waits_for what)
            (alert_for timer (first_of self.config system)) before.table) result
            (lent table.now held words.old octets.old) (lent table.now held words.new octets.new) }
    {
        let why = BlockType::try_from(kind).map_err(|_| Refusal::Argument)?;
        let condition = match what {
            Grouped::Cgb | Grouped::Cgba => Condition::Asked(why),
            Grouped::Cgu | Grouped::Cgua => Condition::Lifting(why),
        };
        self.repeat_group(system, what, why, condition, timer, table, words, octets)
    }

    /// A timer expires: T1, T5 and T12 to T17 at a CIC, T18 to T23 at a PCM system, T18 to T21 of a
    /// type, 0 maintenance or 1 hardware. Where the message is still waited for it is sent again,
    /// and the host starts the timer anew; else nothing is done, and the timer is over.
    ///
    /// Refused by 2 and 3 where too little is lent, by 8 for a timer that is none of these or a type
    /// past 1, by 9 for a circuit or PCM system that the trunk does not have; T5 by 10 where a group
    /// reset waits.
    pub fn expire<P: Policy>(
        self,
        timer: u8,
        at: u16,
        kind: u8,
        table: &mut [Circuit],
        policy: &mut P,
        words: &mut [u32],
        octets: &mut [u8],
    ) -> Result<(usize, usize), Refusal>
        ensures outcome { Outcome self.config
            (expiring self.config P.Policy.PLACES timer at kind) result
            (lent table.old (P.Policy.held policy.old) words.old octets.old)
            (lent table.new (P.Policy.held policy.new) words.new octets.new) }
        ensures policy { Tells P.Policy.obeys table.old table.new policy.old policy.new }
    {
        self.admit(table, policy, words, octets)?;
        let Ok(timer) = Timer::try_from(u32::from(timer)) else {
            return Err(Refusal::Argument);
        };
        let (cic, system) = (Cic(at), at as usize);
        let asked = Condition::Asked(BlockType::Maintenance);
        let lifting = Condition::Lifting(BlockType::Maintenance);
        let reset = Condition::Single;
        let (block, unblock) = (Grouped::Cgb, Grouped::Cgu);
        let alerts = Some(timer);
        match timer {
            Timer::T1 => self.repeat_release(cic, table, words, octets),
            Timer::T5 => self.give_up(cic, table, policy, words, octets),
            Timer::T12 => self.repeat_one(cic, asked, Single::Blo, None, table, words, octets),
            Timer::T13 => self.repeat_one(cic, asked, Single::Blo, alerts, table, words, octets),
            Timer::T14 => self.repeat_one(cic, lifting, Single::Ubl, None, table, words, octets),
            Timer::T15 => self.repeat_one(cic, lifting, Single::Ubl, alerts, table, words, octets),
            Timer::T16 => self.repeat_one(cic, reset, Single::Rsc, None, table, words, octets),
            Timer::T17 => self.repeat_one(cic, reset, Single::Rsc, alerts, table, words, octets),
            Timer::T18 => self.repeat_blocks(system, kind, block, None, table, words, octets),
            Timer::T19 => self.repeat_blocks(system, kind, block, alerts, table, words, octets),
            Timer::T20 => self.repeat_blocks(system, kind, unblock, None, table, words, octets),
            Timer::T21 => self.repeat_blocks(system, kind, unblock, alerts, table, words, octets),
            Timer::T22 => self.repeat_group_reset(system, None, table, words, octets),
            Timer::T23 => self.repeat_group_reset(system, alerts, table, words, octets),
        }
    }
}
