// What the far exchange sends.
ghost use Rattle.std.specs.Prelude.{◌≡◌, ◌+◌, ◌*◌, ◌%◌, ◌^◌, ◌<◌, ◌≤◌, List, [], ◌∷◌, ℕ, ◌-◌, cond, not, ◌&&◌, ◌==◌, nat_lt, length, None, IfOk, IfSome, Ok};
ghost use Rattle.circuit.specs.Circuits.{is_standing};
ghost use Rattle.circuit.specs.Signals.{on_signal};
ghost use Rattle.circuit.specs.declared.record.Circuit.{Circuit as Record};
ghost use Rattle.circuit.specs.declared.rules.Change.{Change as Changed};
ghost use Rattle.circuit.specs.declared.signals.Signal.{Signal as Signals};
ghost use Rattle.message.specs.Encode.{refusal_of};
ghost use Rattle.message.specs.Meaning.{meaning, indicator_of};
ghost use Rattle.message.specs.Msg.{call, single, grouped, group_reset, group_reset_ack};
ghost use Rattle.message.specs.declared.kinds.BlockType.{BlockType as Why};
ghost use Rattle.message.specs.declared.kinds.Grouped.{Grouped as Kind};
ghost use Rattle.message.specs.declared.kinds.Single.TheVariants.{Rsc};
ghost use Rattle.refusal.specs.Refusals.{unless};
ghost use Rattle.refusal.specs.declared.reasons.Refusal.TheVariants.{Address};
ghost use Rattle.supervision.specs.Laws.{Outcome};
ghost use Rattle.supervision.specs.Lending.{Suffices, lent};
ghost use Rattle.supervision.specs.Moves.{some_from};
ghost use Rattle.supervision.specs.Receiving.{to_one, is_range, is_counted, is_unexpected, marked, heard, receiving};
ghost use Rattle.supervision.specs.Replies.{replied, reply_to, signal_of};
ghost use Rattle.supervision.specs.declared.slots.Effect.TheVariants.{Heard};
ghost use Rattle.supervision.specs.Steps.{sending, Extends};
ghost use Rattle.supervision.specs.Telling.{Tells};
ghost use Rattle.supervision.specs.Trunks.{places};
ghost use Rattle.supervision.specs.declared.limits.TheConstants.{SLOTS};

use crate::due::{Condition, Due};
use crate::effects::{send, sweep};
use crate::limits::{OCTETS, SLOTS, WORDS};
use crate::slots::{Effect, Slots};
use crate::trunk::Trunk;
use circuit::{CauseOctets, Change, Circuit, Reset, Signal};
use message::{BlockType, CallKind, Cause, Grouped, Message, Single};
use policy::{Place, Policy};
use refusal::Refusal;
use status::{Cic, Group, Range};

// What a group message does to the circuits that it names.
#[inline(always)]
fn effect_of(what: (Grouped, BlockType)) -> Effect
    ensures { result ≡ Heard (signal_of what.0 what.1) }
{
    let (what, why) = what;
    Effect::Heard(match what {
        Grouped::Cgb => Signal::Block(why),
        Grouped::Cgu => Signal::Unblock(why),
        Grouped::Cgba => Signal::BlockAck(why),
        Grouped::Cgua => Signal::UnblockAck(why),
    })
}

// Whether no reset and no release of ours waits for an RLC, and a call is on the circuit.
#[inline(always)]
fn is_unexpected(circuit: Circuit) -> bool
    ensures { result ≡ is_unexpected circuit }
{
    circuit.reset != Reset::Single && circuit.call.is_connected()
}

// The mask of the time slot at a place where a hardware block of ours stands there; time slot 0 has
// none.
#[inline(always)]
fn standing_mask(place: Place, circuit: Circuit) -> u32
    ensures { result
        ≡ cond (nat_lt 0 (place.0 % SLOTS) && is_standing circuit.local.hardware)
        (2 ^ (place.0 % SLOTS)) 0 }
{
    let slot = place.0 % SLOTS;
    if slot > 0 && circuit.local.hardware.is_standing() {
        1 << slot
    } else {
        0
    }
}

// What a message for one circuit is answered by at once, from the record before.
// A release needs the octets of its cause.
#[inline(always)]
fn reply_to<'a>(cic: Cic, signal: Signal, circuit: Circuit, cause: &'a [u8]) -> Option<Message<'a>>
    requires { cause.now ≡ 0x87 ∷ 0x9f ∷ [] }
    ensures value { replied result ≡ reply_to cic.0 signal circuit }
    ensures writable { cic.0 < 4096 → IfSome result (λ m. refusal_of (meaning m) ≡ None) }
{
    let local = circuit.local;
    match signal {
        Signal::Rel => Some(Message::ReleaseComplete(cic)),
        Signal::Rlc if is_unexpected(circuit) => Some(Message::Release(cic, Cause(cause))),
        Signal::Block(_) => Some(Message::Single(cic, Single::Bla)),
        Signal::Unblock(_) => Some(Message::Single(cic, Single::Uba)),
        Signal::BlockAck(why) if local.of(why).is_none() => Some(Message::Single(cic, Single::Ubl)),
        Signal::UnblockAck(why) if local.of(why).is_standing() => {
            Some(Message::Single(cic, Single::Blo))
        }
        Signal::Rsc if local.maintenance.is_standing() => Some(Message::Single(cic, Single::Blo)),
        _ => None,
    }
}

// Sends that.
#[inline(always)]
fn reply(
    cic: Cic,
    signal: Signal,
    circuit: Circuit,
    written: (usize, usize),
    words: &mut [u32],
    octets: &mut [u8],
) -> (usize, usize)
    requires cic { cic.0 < 4096 }
    requires word { written.0 < WORDS }
    requires room { written.1 + 8 ≤ OCTETS }
    requires words { WORDS ≤ length words.old }
    requires octets { OCTETS ≤ length octets.old }
    ensures sends { Extends (sending (reply_to cic.0 signal circuit)) written words.old octets.old
        result words.new octets.new }
    ensures told { result.0 ≤ written.0 + 1 }
    ensures sent { result.1 ≤ written.1 + 8 }
    ensures words { length words.new ≡ length words.old }
    ensures octets { length octets.new ≡ length octets.old }
{
    let cause = <[u8; 2]>::from(CauseOctets::UNEXPECTED);
    let Some(message) = reply_to(cic, signal, circuit, &cause) else {
        return written;
    };
    send(message, written, words, octets)
}

impl Trunk {
    // The circuits of a message for a range: none past the table, and none named that is not
    // equipped.
    #[inline(always)]
    fn span<'a>(self, cic: Cic, group: Group<'a>, table: &[Circuit]) -> Result<Slots<'a>, Refusal>
        requires { length table.now ≡ places self.config }
        ensures value { result
            ≡ unless (not (is_range self.config cic.0 group.entry.range.0)) Address
            (unless
            (some_from
            (λ k c.
            marked self.config cic.0 group.entry.range.0 group.entry.status.now k
            && not c.equipped) 0
            table.now)
            Address
            (Ok
            (record { first = record { 0 = cic.0 - self.config.first.0 }; group = group.entry }))) }
        ensures inside { IfOk result
            (λ slots. (self.config.first.0 ≤ cic.0)
            × (slots.first.0 + slots.group.range.0 < length table.now)) }
        ensures group { IfOk result (λ slots. slots.group ≡ group.entry) }
        ensures first { IfOk result (λ slots. slots.first.0 ≡ cic.0 - self.config.first.0) }
    {
        let Some(first) = self.place(cic) else {
            return Err(Refusal::Address);
        };
        if first.0 + group.range.0 as usize >= self.places() {
            return Err(Refusal::Address);
        }
        let slots = Slots { first, group };
        if !slots.all(|circuit| circuit.equipped, table) {
            return Err(Refusal::Address);
        }
        Ok(slots)
    }

    // A message for one circuit that is answered at once, or not at all. What it is and what it does
    // come from closures, so that each has an instance of its own, and one small enough to be inlined.
    #[inline(always)]
    fn hear_one<P: Policy, S: Fn() -> Signal, F: Fn(Circuit) -> Change>(
        self,
        cic: Cic,
        signal: S,
        change: F,
        table: &mut [Circuit],
        policy: &mut P,
        words: &mut [u32],
        octets: &mut [u8],
    ) -> Result<(usize, usize), Refusal>
        requires callable { S.IsAlwaysCallable signal }
        requires changes { F.IsAlwaysCallable change }
        requires same { (s : Signals) (c : Record) (d : Changed) → S.post signal s
            → F.post change c d → d ≡ on_signal s c }
        requires enough { Suffices self.config P.Policy.PLACES
            (lent table.old (P.Policy.held policy.old) words.old octets.old) }
        ensures outcome { (s : Signals) → ((x : Signals) → S.post signal x → x ≡ s)
            → Outcome self.config
            (λ before. to_one self.config cic.0 (on_signal s) (reply_to cic.0 s) before.table) result
            (lent table.old (P.Policy.held policy.old) words.old octets.old)
            (lent table.new (P.Policy.held policy.new) words.new octets.new) }
        ensures policy { Tells P.Policy.obeys table.old table.new policy.old policy.new }
    {
        let place = self.find_equipped(cic, table)?;
        let signal = signal();
        let circuit = table[place.0];
        let told = self.change_at(place, change(circuit), table, policy, words);
        Ok(reply(cic, signal, circuit, (told, 0), words, octets))
    }

    // RSC: besides its effect and the answer at once, a hardware block that stands is asked again,
    // and RLC is sent.
    #[inline(never)]
    fn hear_reset<P: Policy>(
        self,
        cic: Cic,
        table: &mut [Circuit],
        policy: &mut P,
        words: &mut [u32],
        octets: &mut [u8],
    ) -> Result<(usize, usize), Refusal>
        requires enough { Suffices self.config P.Policy.PLACES
            (lent table.old (P.Policy.held policy.old) words.old octets.old) }
        ensures outcome { Outcome self.config
            (λ before. heard self.config (single cic.0 Rsc) before.table) result
            (lent table.old (P.Policy.held policy.old) words.old octets.old)
            (lent table.new (P.Policy.held policy.new) words.new octets.new) }
        ensures policy { Tells P.Policy.obeys table.old table.new policy.old policy.new }
    {
        let place = self.find_equipped(cic, table)?;
        let circuit = table[place.0];
        let told = self.change_at(place, Signal::Rsc.apply(circuit), table, policy, words);
        let written = reply(cic, Signal::Rsc, circuit, (told, 0), words, octets);
        let (system, mask) = (place.0 / SLOTS, standing_mask(place, circuit));
        let (what, why) = (Grouped::Cgb, BlockType::Hardware);
        let written = self.send_mask(system, mask, what, why, written, words, octets);
        Ok(send(Message::ReleaseComplete(cic), written, words, octets))
    }

    // CGB, CGU, CGBA, CGUA: the effect at each circuit whose bit is set, and one answer, or one for
    // each PCM system. What comes and its type are of a
    // closure, so that each has an instance of its own.
    #[inline(never)]
    fn hear_group<P: Policy, W: Fn() -> (Grouped, BlockType)>(
        self,
        cic: Cic,
        what: W,
        group: Group<'_>,
        table: &mut [Circuit],
        policy: &mut P,
        words: &mut [u32],
        octets: &mut [u8],
    ) -> Result<(usize, usize), Refusal>
        requires enough { Suffices self.config P.Policy.PLACES
            (lent table.old (P.Policy.held policy.old) words.old octets.old) }
        requires callable { W.IsAlwaysCallable what }
        requires allowed { (w : Kind × Why) → W.post what w → refusal_of
            (grouped cic.0 w.0 (indicator_of w.1) group.range.0 group.status.now)
            ≡ None }
        ensures outcome { (w : Kind × Why) → ((x : Kind × Why) → W.post what x → x ≡ w)
            → Outcome self.config
            (λ before.
            heard self.config
            (grouped cic.0 w.0 (indicator_of w.1) group.entry.range.0 group.entry.status.now)
            before.table) result
            (lent table.old (P.Policy.held policy.old) words.old octets.old)
            (lent table.new (P.Policy.held policy.new) words.new octets.new) }
        ensures policy { Tells P.Policy.obeys table.old table.new policy.old policy.new }
    {
        let slots = self.span(cic, group, table)?;
        let told = sweep(self, slots, || effect_of(what()), table, policy, words);
        let heard = what();
        let effect = effect_of(heard);
        let (kind, why) = heard;
        match kind {
            Grouped::Cgb => {
                let answer = Message::Grouped(cic, Grouped::Cgba, why, group);
                Ok(send(answer, (told, 0), words, octets))
            }
            Grouped::Cgu => {
                let answer = Message::Grouped(cic, Grouped::Cgua, why, group);
                Ok(send(answer, (told, 0), words, octets))
            }
            Grouped::Cgba => {
                let condition = Condition::Unblocked(why);
                let due = Due {
                    slots,
                    effect,
                    condition,
                };
                Ok(self.send_groups(due, Grouped::Cgu, why, table, (told, 0), words, octets))
            }
            Grouped::Cgua => {
                let condition = Condition::Standing(why);
                let due = Due {
                    slots,
                    effect,
                    condition,
                };
                Ok(self.send_groups(due, Grouped::Cgb, why, table, (told, 0), words, octets))
            }
        }
    }

    // GRS: each circuit of the range is reset; hardware blocks that stand are asked again, and GRA
    // shows maintenance blocks that stand.
    #[inline(never)]
    fn hear_group_reset<P: Policy>(
        self,
        cic: Cic,
        range: Range,
        table: &mut [Circuit],
        policy: &mut P,
        words: &mut [u32],
        octets: &mut [u8],
    ) -> Result<(usize, usize), Refusal>
        requires enough { Suffices self.config P.Policy.PLACES
            (lent table.old (P.Policy.held policy.old) words.old octets.old) }
        requires allowed { refusal_of (group_reset cic.0 range.0) ≡ None }
        ensures outcome { Outcome self.config
            (λ before. heard self.config (group_reset cic.0 range.0) before.table) result
            (lent table.old (P.Policy.held policy.old) words.old octets.old)
            (lent table.new (P.Policy.held policy.new) words.new octets.new) }
        ensures policy { Tells P.Policy.obeys table.old table.new policy.old policy.new }
    {
        let slots = self.span(cic, Group { range, status: &[] }, table)?;
        let effect = Effect::Every(Signal::Grs);
        let every = || Effect::Every(Signal::Grs);
        let told = sweep(self, slots, every, table, policy, words);
        let (what, why) = (Grouped::Cgb, BlockType::Hardware);
        let condition = Condition::Standing(why);
        let due = Due {
            slots,
            effect,
            condition,
        };
        let written = self.send_groups(due, what, why, table, (told, 0), words, octets);
        let condition = Condition::Standing(BlockType::Maintenance);
        let shown = Due {
            slots,
            effect,
            condition,
        };
        let bits = shown.bits(slots.first, 0, table).to_le_bytes();
        let status = &bits[..range.status_octets()];
        let answer = Message::GroupResetAck(cic, Group { range, status });
        Ok(send(answer, written, words, octets))
    }

    // GRA: where it counts, group resets of the range end, and status bits become far maintenance
    // blocks.
    #[inline(never)]
    fn hear_group_reset_ack<P: Policy>(
        self,
        cic: Cic,
        group: Group<'_>,
        table: &mut [Circuit],
        policy: &mut P,
        words: &mut [u32],
        octets: &mut [u8],
    ) -> Result<(usize, usize), Refusal>
        requires enough { Suffices self.config P.Policy.PLACES
            (lent table.old (P.Policy.held policy.old) words.old octets.old) }
        ensures outcome { Outcome self.config
            (λ before.
            heard self.config
            (group_reset_ack cic.0 group.entry.range.0 group.entry.status.now) before.table)
            result
            (lent table.old (P.Policy.held policy.old) words.old octets.old)
            (lent table.new (P.Policy.held policy.new) words.new octets.new) }
        ensures policy { Tells P.Policy.obeys table.old table.new policy.old policy.new }
    {
        let slots = self.span(cic, group, table)?;
        if !slots.is_system() {
            return Ok((0, 0));
        }
        let told = sweep(self, slots, || Effect::Acknowledged, table, policy, words);
        Ok((told, 0))
    }

    // A message whose content is its CIC alone.
    #[inline(always)]
    fn hear_single<P: Policy>(
        self,
        cic: Cic,
        kind: Single,
        table: &mut [Circuit],
        policy: &mut P,
        words: &mut [u32],
        octets: &mut [u8],
    ) -> Result<(usize, usize), Refusal>
        requires enough { Suffices self.config P.Policy.PLACES
            (lent table.old (P.Policy.held policy.old) words.old octets.old) }
        ensures outcome { Outcome self.config
            (λ before. heard self.config (single cic.0 kind) before.table) result
            (lent table.old (P.Policy.held policy.old) words.old octets.old)
            (lent table.new (P.Policy.held policy.new) words.new octets.new) }
        ensures policy { Tells P.Policy.obeys table.old table.new policy.old policy.new }
    {
        match kind {
            Single::Rsc => self.hear_reset(cic, table, policy, words, octets),
            Single::Blo => {
                let signal = || Signal::Block(BlockType::Maintenance);
                let change = |circuit: Circuit| circuit.far_blocked(BlockType::Maintenance);
                self.hear_one(cic, signal, change, table, policy, words, octets)
            }
            Single::Ubl => {
                let signal = || Signal::Unblock(BlockType::Maintenance);
                let change = |circuit: Circuit| circuit.far_unblocked(BlockType::Maintenance);
                self.hear_one(cic, signal, change, table, policy, words, octets)
            }
            Single::Bla => {
                let signal = || Signal::BlockAck(BlockType::Maintenance);
                let change = |circuit: Circuit| circuit.block_acknowledged(BlockType::Maintenance);
                self.hear_one(cic, signal, change, table, policy, words, octets)
            }
            Single::Uba => {
                let signal = || Signal::UnblockAck(BlockType::Maintenance);
                let change = |circuit: Circuit| circuit.unblock_acknowledged(
                    BlockType::Maintenance,
                );
                self.hear_one(cic, signal, change, table, policy, words, octets)
            }
        }
    }

    // A call message.
    #[inline(always)]
    fn hear_call<P: Policy>(
        self,
        cic: Cic,
        kind: CallKind,
        table: &mut [Circuit],
        policy: &mut P,
        words: &mut [u32],
        octets: &mut [u8],
    ) -> Result<(usize, usize), Refusal>
        requires enough { Suffices self.config P.Policy.PLACES
            (lent table.old (P.Policy.held policy.old) words.old octets.old) }
        ensures outcome { (body : List ℕ) → Outcome self.config
            (λ before. heard self.config (call cic.0 kind body) before.table) result
            (lent table.old (P.Policy.held policy.old) words.old octets.old)
            (lent table.new (P.Policy.held policy.new) words.new octets.new) }
        ensures policy { Tells P.Policy.obeys table.old table.new policy.old policy.new }
    {
        match kind {
            CallKind::Iam => {
                let controlled = self.controls(cic);
                let change = |circuit: Circuit| circuit.called(controlled);
                let signal = || Signal::Iam(controlled);
                self.hear_one(cic, signal, change, table, policy, words, octets)
            }
            CallKind::Acm | CallKind::Con | CallKind::Anm | CallKind::Cpg => {
                let change = |circuit: Circuit| circuit.progressed();
                self.hear_one(
                    cic,
                    || Signal::Progress,
                    change,
                    table,
                    policy,
                    words,
                    octets,
                )
            }
        }
    }

    // One of them, by its type.
    #[inline(always)]
    fn hear_typed<P: Policy, W: Fn() -> Grouped>(
        self,
        cic: Cic,
        what: W,
        why: BlockType,
        group: Group<'_>,
        table: &mut [Circuit],
        policy: &mut P,
        words: &mut [u32],
        octets: &mut [u8],
    ) -> Result<(usize, usize), Refusal>
        requires enough { Suffices self.config P.Policy.PLACES
            (lent table.old (P.Policy.held policy.old) words.old octets.old) }
        requires callable { W.IsAlwaysCallable what }
        requires allowed { (w : Kind) → W.post what w → refusal_of
            (grouped cic.0 w (indicator_of why) group.range.0 group.status.now)
            ≡ None }
        ensures outcome { (w : Kind) → ((x : Kind) → W.post what x → x ≡ w) → Outcome self.config
            (λ before.
            heard self.config
            (grouped cic.0 w (indicator_of why) group.entry.range.0 group.entry.status.now)
            before.table) result
            (lent table.old (P.Policy.held policy.old) words.old octets.old)
            (lent table.new (P.Policy.held policy.new) words.new octets.new) }
        ensures policy { Tells P.Policy.obeys table.old table.new policy.old policy.new }
    {
        match why {
            BlockType::Maintenance => {
                let what = || (what(), BlockType::Maintenance);
                self.hear_group(cic, what, group, table, policy, words, octets)
            }
            BlockType::Hardware => {
                let what = || (what(), BlockType::Hardware);
                self.hear_group(cic, what, group, table, policy, words, octets)
            }
        }
    }

    // One of them, by what it is.
    #[inline(always)]
    fn hear_grouped<P: Policy>(
        self,
        cic: Cic,
        what: Grouped,
        why: BlockType,
        group: Group<'_>,
        table: &mut [Circuit],
        policy: &mut P,
        words: &mut [u32],
        octets: &mut [u8],
    ) -> Result<(usize, usize), Refusal>
        requires enough { Suffices self.config P.Policy.PLACES
            (lent table.old (P.Policy.held policy.old) words.old octets.old) }
        requires allowed { refusal_of
            (grouped cic.0 what (indicator_of why) group.range.0 group.status.now)
            ≡ None }
        ensures outcome { Outcome self.config
            (λ before.
            heard self.config
            (grouped cic.0 what (indicator_of why) group.entry.range.0 group.entry.status.now)
            before.table) result
            (lent table.old (P.Policy.held policy.old) words.old octets.old)
            (lent table.new (P.Policy.held policy.new) words.new octets.new) }
        ensures policy { Tells P.Policy.obeys table.old table.new policy.old policy.new }
    {
        match what {
            Grouped::Cgb => {
                self.hear_typed(
                    cic,
                    || Grouped::Cgb,
                    why,
                    group,
                    table,
                    policy,
                    words,
                    octets,
                )
            }
            Grouped::Cgu => {
                self.hear_typed(
                    cic,
                    || Grouped::Cgu,
                    why,
                    group,
                    table,
                    policy,
                    words,
                    octets,
                )
            }
            Grouped::Cgba => {
                self.hear_typed(
                    cic,
                    || Grouped::Cgba,
                    why,
                    group,
                    table,
                    policy,
                    words,
                    octets,
                )
            }
            Grouped::Cgua => {
                self.hear_typed(
                    cic,
                    || Grouped::Cgua,
                    why,
                    group,
                    table,
                    policy,
                    words,
                    octets,
                )
            }
        }
    }

    // A message that was read.
    #[inline(always)]
    fn hear<P: Policy>(
        self,
        message: Message<'_>,
        table: &mut [Circuit],
        policy: &mut P,
        words: &mut [u32],
        octets: &mut [u8],
    ) -> Result<(usize, usize), Refusal>
        requires enough { Suffices self.config P.Policy.PLACES
            (lent table.old (P.Policy.held policy.old) words.old octets.old) }
        requires allowed { refusal_of (meaning message) ≡ None }
        ensures outcome { Outcome self.config
            (λ before. heard self.config (meaning message.entry) before.table) result
            (lent table.old (P.Policy.held policy.old) words.old octets.old)
            (lent table.new (P.Policy.held policy.new) words.new octets.new) }
        ensures policy { Tells P.Policy.obeys table.old table.new policy.old policy.new }
    {
        match message {
            Message::Single(cic, kind) => {
                self.hear_single(cic, kind, table, policy, words, octets)
            }
            Message::ReleaseComplete(cic) => {
                let change = |circuit: Circuit| circuit.completed();
                self.hear_one(cic, || Signal::Rlc, change, table, policy, words, octets)
            }
            Message::Release(cic, _) => {
                let change = |circuit: Circuit| circuit.far_released();
                self.hear_one(cic, || Signal::Rel, change, table, policy, words, octets)
            }
            Message::Call(cic, kind, _) => {
                self.hear_call(cic, kind, table, policy, words, octets)
            }
            Message::Grouped(cic, what, why, group) => {
                self.hear_grouped(cic, what, why, group, table, policy, words, octets)
            }
            Message::GroupReset(cic, range) => {
                self.hear_group_reset(cic, range, table, policy, words, octets)
            }
            Message::GroupResetAck(cic, group) => {
                self.hear_group_reset_ack(cic, group, table, policy, words, octets)
            }
        }
    }

    /// Receives the octets of one message from the far exchange, and answers how many words and how
    /// many octets that wrote; the host sends the octets as the words say, in their order.
    ///
    /// Refused by 2 and 3 where too little is lent, by 4 to 7 where the octets are no message that
    /// is listed, and by 9 where a circuit of the message is none of the trunk. A refused message
    /// changes nothing.
    pub fn receive<P: Policy>(
        self,
        received: &[u8],
        table: &mut [Circuit],
        policy: &mut P,
        words: &mut [u32],
        octets: &mut [u8],
    ) -> Result<(usize, usize), Refusal>
        ensures outcome { Outcome self.config
            (receiving self.config P.Policy.PLACES received.now) result
            (lent table.old (P.Policy.held policy.old) words.old octets.old)
            (lent table.new (P.Policy.held policy.new) words.new octets.new) }
        ensures policy { Tells P.Policy.obeys table.old table.new policy.old policy.new }
    {
        self.admit(table, policy, words, octets)?;
        let message = message::read(received)?;
        self.hear(message, table, policy, words, octets)
    }
}
