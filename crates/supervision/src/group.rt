// Orders for circuits of a PCM system.
ghost use Rattle.std.specs.Prelude.{◌≡◌, ◌+◌, ◌*◌, ◌<◌};
ghost use Rattle.supervision.specs.Laws.{Outcome, GroupLaws, ResetAlike};
ghost use Rattle.supervision.specs.Lending.{Suffices, lent};
ghost use Rattle.supervision.specs.Orders.{groupwise, typed, clearing, status_of, why_of, group_message, group_resetting};
ghost use Rattle.supervision.specs.Telling.{Tells};

use crate::judging::type_of;
use crate::limits::{MOST_SYSTEMS, SLOTS};
use crate::slots::Slots;
use crate::trunk::Trunk;
use circuit::{Circuit, Reset, Rule};
use message::{BlockType, Grouped, Message};
use policy::{Place, Policy};
use refusal::Refusal;
use status::{Group, Range};

// Our group messages count from time slot 1, with this range.
pub(crate) const RANGE: Range = Range(30);

// The circuits of a PCM system from time slot 1 on, with a status.
#[inline(always)]
pub(crate) fn slots_of(system: usize, status: &[u8]) -> Slots<'_>
    requires { system < MOST_SYSTEMS }
    ensures first { result.first.0 ≡ system * SLOTS + 1 }
    ensures range { result.group.range.0 ≡ 30 }
    ensures status { result.group.status.now ≡ status.now }
{
    Slots {
        first: Place(system * SLOTS + 1),
        group: Group {
            range: RANGE,
            status,
        },
    }
}

impl Trunk {
    // Does an order for the circuits of a mask and sends its message.
    #[inline(never)]
    fn order_group<P: Policy, R: Fn() -> Rule>(
        self,
        system: usize,
        mask: u32,
        rule: R,
        what: Grouped,
        why: BlockType,
        table: &mut [Circuit],
        policy: &mut P,
        words: &mut [u32],
        octets: &mut [u8],
    ) -> Result<(usize, usize), Refusal>
        requires callable { R.IsAlwaysCallable rule }
        requires enough { Suffices self.config P.Policy.PLACES
            (lent table.old (P.Policy.held policy.old) words.old octets.old) }
        ensures outcome { (r : Rule) → ((x : Rule) → R.post rule x → x ≡ r)
            → Outcome self.config
            (λ before.
            groupwise self.config system mask r
            (group_message self.config system what why mask) before.table) result
            (lent table.old (P.Policy.held policy.old) words.old octets.old)
            (lent table.new (P.Policy.held policy.new) words.new octets.new) }
        ensures group { (r : Rule) → ((x : Rule) → R.post rule x → x ≡ r)
            → GroupLaws self.config system mask r
            (groupwise self.config system mask r (group_message self.config system what why mask)
            table.old)
            (lent table.old (P.Policy.held policy.old) words.old octets.old)
            (lent table.new (P.Policy.held policy.new) words.new octets.new) }
        ensures policy { Tells P.Policy.obeys table.old table.new policy.old policy.new }
    {
        if system >= self.config.systems || mask % 2 == 1 {
            return Err(Refusal::Address);
        }
        let status = (mask / 2).to_le_bytes();
        let slots = slots_of(system, &status);
        slots.judge(rule(), table)?;
        let cic = self.cic_at(slots.first);
        let message = Message::Grouped(cic, what, why, slots.group);
        Ok(self.perform(slots, rule, message, table, policy, words, octets))
    }

    // Resets the circuits of a PCM system and sends the message.
    #[inline(never)]
    fn clear<P: Policy>(
        self,
        system: usize,
        table: &mut [Circuit],
        policy: &mut P,
        words: &mut [u32],
        octets: &mut [u8],
    ) -> Result<(usize, usize), Refusal>
        requires enough { Suffices self.config P.Policy.PLACES
            (lent table.old (P.Policy.held policy.old) words.old octets.old) }
        ensures outcome { Outcome self.config (λ _. clearing self.config system) result
            (lent table.old (P.Policy.held policy.old) words.old octets.old)
            (lent table.new (P.Policy.held policy.new) words.new octets.new) }
        ensures alike { ResetAlike self.config system (clearing self.config system)
            (lent table.old (P.Policy.held policy.old) words.old octets.old)
            (lent table.new (P.Policy.held policy.new) words.new octets.new) }
        ensures policy { Tells P.Policy.obeys table.old table.new policy.old policy.new }
    {
        if system >= self.config.systems {
            return Err(Refusal::Address);
        }
        let every = [0xff, 0xff, 0xff, 0x7f];
        let slots = slots_of(system, &every);
        let rule = || Rule::Reset(Reset::Group);
        let message = Message::GroupReset(self.cic_at(slots.first), RANGE);
        Ok(self.perform(slots, rule, message, table, policy, words, octets))
    }

    // Does an order of a type for the circuits of a mask, by the rule for that type.
    #[inline(always)]
    pub(crate) fn order_typed<P: Policy, F: Fn(BlockType) -> Rule>(
        self,
        rule: F,
        what: Grouped,
        kind: u8,
        system: usize,
        mask: u32,
        table: &mut [Circuit],
        policy: &mut P,
        words: &mut [u32],
        octets: &mut [u8],
    ) -> Result<(usize, usize), Refusal>
        requires { F.IsAlwaysCallable rule }
        ensures outcome { (of : BlockType → Rule)
            → ((why : BlockType) (r : Rule) → F.post rule why r → r ≡ of why)
            → Outcome self.config
            (typed of what self.config P.Policy.PLACES kind system mask) result
            (lent table.old (P.Policy.held policy.old) words.old octets.old)
            (lent table.new (P.Policy.held policy.new) words.new octets.new) }
        ensures group { (of : BlockType → Rule)
            → ((why : BlockType) (r : Rule) → F.post rule why r → r ≡ of why)
            → GroupLaws self.config system mask (of (why_of kind))
            (typed of what self.config P.Policy.PLACES kind system mask
            (lent table.old (P.Policy.held policy.old) words.old octets.old))
            (lent table.old (P.Policy.held policy.old) words.old octets.old)
            (lent table.new (P.Policy.held policy.new) words.new octets.new) }
        ensures policy { Tells P.Policy.obeys table.old table.new policy.old policy.new }
    {
        self.admit(table, policy, words, octets)?;
        let why = type_of(kind, mask)?;
        match why {
            BlockType::Maintenance => {
                let rule = || rule(BlockType::Maintenance);
                self.order_group(system, mask, rule, what, why, table, policy, words, octets)
            }
            BlockType::Hardware => {
                let rule = || rule(BlockType::Hardware);
                self.order_group(system, mask, rule, what, why, table, policy, words, octets)
            }
        }
    }

    // Resets every circuit of a PCM system.
    #[inline(always)]
    pub(crate) fn group_reset<P: Policy>(
        self,
        system: usize,
        table: &mut [Circuit],
        policy: &mut P,
        words: &mut [u32],
        octets: &mut [u8],
    ) -> Result<(usize, usize), Refusal>
        ensures outcome { Outcome self.config (group_resetting self.config P.Policy.PLACES system)
            result
            (lent table.old (P.Policy.held policy.old) words.old octets.old)
            (lent table.new (P.Policy.held policy.new) words.new octets.new) }
        ensures alike { ResetAlike self.config system
            (group_resetting self.config P.Policy.PLACES system
            (lent table.old (P.Policy.held policy.old) words.old octets.old))
            (lent table.old (P.Policy.held policy.old) words.old octets.old)
            (lent table.new (P.Policy.held policy.new) words.new octets.new) }
        ensures policy { Tells P.Policy.obeys table.old table.new policy.old policy.new }
    {
        self.admit(table, policy, words, octets)?;
        self.clear(system, table, policy, words, octets)
    }
}
