// Orders for one circuit.
ghost use Rattle.std.specs.Prelude.{◌≡◌, ◌<◌, ◌≤◌, length, None};
ghost use Rattle.circuit.specs.declared.rules.Rule.{Rule as Rules};
ghost use Rattle.message.specs.Encode.{encode, refusal_of};
ghost use Rattle.message.specs.Meaning.{meaning};
ghost use Rattle.message.specs.Msg.{single};
ghost use Rattle.refusal.specs.Refusals.{and_then};
ghost use Rattle.supervision.specs.Laws.{Outcome};
ghost use Rattle.supervision.specs.Lending.{Suffices, lent};
ghost use Rattle.supervision.specs.Orders.{admitted, singly, releasing};
ghost use Rattle.supervision.specs.Telling.{Tells};

use crate::judging::cause_of;
use crate::limits::OCTETS;
use crate::trunk::Trunk;
use circuit::{Circuit, Rule};
use message::{Cause, Message, Single};
use policy::Policy;
use refusal::Refusal;
use status::Cic;

impl Trunk {
    // Does an order for one circuit and sends its message. The rule comes from a closure, so that each
    // order has an instance of its own, compiled for what it does.
    #[inline(always)]
    fn order_one<P: Policy, R: Fn() -> Rule>(
        self,
        cic: Cic,
        rule: R,
        message: Message<'_>,
        table: &mut [Circuit],
        policy: &mut P,
        words: &mut [u32],
        octets: &mut [u8],
    ) -> Result<(usize, usize), Refusal>
        requires callable { R.IsAlwaysCallable rule }
        requires enough { Suffices self.config P.Policy.PLACES
            (lent table.old (P.Policy.held policy.old) words.old octets.old) }
        requires writable { cic.0 < 4096 → refusal_of (meaning message) ≡ None }
        requires short { length (encode (meaning message)) ≤ OCTETS }
        ensures outcome { (r : Rules) → ((x : Rules) → R.post rule x → x ≡ r) → Outcome self.config
            (λ before. singly self.config cic r (meaning message.entry) before.table) result
            (lent table.old (P.Policy.held policy.old) words.old octets.old)
            (lent table.new (P.Policy.held policy.new) words.new octets.new) }
        ensures policy { Tells P.Policy.obeys table.old table.new policy.old policy.new }
    {
        let rule = rule();
        let place = self.find(cic, rule, table)?;
        let change = rule.apply(table[place.0]);
        Ok(self.perform_at(place, change, message, table, policy, words, octets))
    }

    // Does an order for one circuit whose message is its CIC alone.
    #[inline(always)]
    pub(crate) fn order_single<P: Policy, R: Fn() -> Rule>(
        self,
        cic: Cic,
        rule: R,
        kind: Single,
        table: &mut [Circuit],
        policy: &mut P,
        words: &mut [u32],
        octets: &mut [u8],
    ) -> Result<(usize, usize), Refusal>
        requires callable { R.IsAlwaysCallable rule }
        ensures outcome { (r : Rules) → ((x : Rules) → R.post rule x → x ≡ r) → Outcome self.config
            (λ before. and_then (admitted self.config P.Policy.PLACES before)
            (λ _. singly self.config cic r (single cic.0 kind) before.table)) result
            (lent table.old (P.Policy.held policy.old) words.old octets.old)
            (lent table.new (P.Policy.held policy.new) words.new octets.new) }
        ensures policy { Tells P.Policy.obeys table.old table.new policy.old policy.new }
    {
        self.admit(table, policy, words, octets)?;
        let message = Message::Single(cic, kind);
        self.order_one(cic, rule, message, table, policy, words, octets)
    }

    // Releases a call, with the location and the value of its cause.
    #[inline(always)]
    pub(crate) fn release<P: Policy>(
        self,
        cic: Cic,
        location: u8,
        value: u8,
        table: &mut [Circuit],
        policy: &mut P,
        words: &mut [u32],
        octets: &mut [u8],
    ) -> Result<(usize, usize), Refusal>
        ensures outcome { Outcome self.config
            (releasing self.config P.Policy.PLACES cic location value) result
            (lent table.old (P.Policy.held policy.old) words.old octets.old)
            (lent table.new (P.Policy.held policy.new) words.new octets.new) }
        ensures policy { Tells P.Policy.obeys table.old table.new policy.old policy.new }
    {
        self.admit(table, policy, words, octets)?;
        let cause = cause_of(location, value)?;
        let pair = <[u8; 2]>::from(cause);
        let message = Message::Release(cic, Cause(&pair));
        let rule = || Rule::Release(cause);
        self.order_one(cic, rule, message, table, policy, words, octets)
    }
}
