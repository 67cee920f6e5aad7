// An open trunk with its table, its policy and its outputs.
ghost use Rattle.std.specs.Prelude.{◌≡◌};
ghost use Rattle.supervision.specs.Expiring.{expiring};
ghost use Rattle.supervision.specs.Laws.{GroupLaws, ResetAlike};
ghost use Rattle.supervision.specs.Orders.{blocking, unblocking, resetting, releasing, group_blocking, group_unblocking, group_resetting, why_of};
ghost use Rattle.supervision.specs.Receiving.{receiving};
ghost use Rattle.circuit.specs.declared.rules.Rule.TheVariants as rule;

use crate::events::Events;
use circuit::Circuit;
use policy::Policy;
use refusal::Refusal;
use status::Cic;
use supervision::{Order, Trunk};

/// An open trunk with what its operations read and write: the table and the policy that it was
/// opened with, and two outputs, of 96 words and 320 octets at least. It borrows the four, so a
/// host may make one for each operation, or keep it as long as nothing else needs them.
#[derive(Drop)]
pub struct Exchange<'a, P: Policy> {
    trunk: Trunk,
    table: &'a mut [Circuit],
    policy: &'a mut P,
    words: &'a mut [u32],
    octets: &'a mut [u8],
    // how many words and octets the last accepted operation wrote
    told: usize,
    sent: usize,
}

impl<'a, P: Policy> Exchange<'a, P> {
    ghost use Rattle.exchange.specs.Does.{Does, Orders};
    ghost use Rattle.exchange.specs.Events.{left};
    ghost use Rattle.exchange.specs.Exchange.{events_by, lends, sent_by, told_by};

    /// Brings an open trunk together with the rest. Where too little is lent, each operation is
    /// refused by 2 or 3.
    pub fn new(
        trunk: Trunk,
        table: &'a mut [Circuit],
        policy: &'a mut P,
        words: &'a mut [u32],
        octets: &'a mut [u8],
    ) -> Exchange<'a, P>
        ensures trunk { result.trunk ≡ trunk }
        ensures table { (result.table.ghost_name ≡ table.entry.ghost_name)
            × (result.table.now ≡ table.old) }
        ensures policy { (result.policy.ghost_name ≡ policy.entry.ghost_name)
            × (result.policy.now ≡ policy.old) }
        ensures words { (result.words.ghost_name ≡ words.entry.ghost_name)
            × (result.words.now ≡ words.old) }
        ensures octets { (result.octets.ghost_name ≡ octets.entry.ghost_name)
            × (result.octets.now ≡ octets.old) }
        ensures nothing { (result.told ≡ 0) × (result.sent ≡ 0) }
    {
        Exchange {
            trunk,
            table,
            policy,
            words,
            octets,
            told: 0,
            sent: 0,
        }
    }

    /// Does any order. Refused as the method of its name.
    pub fn order(&mut self, order: Order<'_>) -> Result<(), Refusal>
        ensures { Orders P.Policy.held P.Policy.picks P.Policy.obeys P.Policy.PLACES order.entry
            result self.old self.new }
    {
        let (told, sent) = self
            .trunk
            .order(order, self.table, self.policy, self.words, self.octets)?;
        self.told = told;
        self.sent = sent;
        Ok(())
    }

    /// Begins a call, with the body of its IAM, at the circuit that the policy chooses; the begun
    /// event says which. Refused by 8 for a body of no octet or of more than 256, by 11 where the
    /// policy holds no circuit, by 12 where its choice is not open.
    pub fn seize(&mut self, body: &[u8]) -> Result<(), Refusal>
        ensures { Orders P.Policy.held P.Policy.picks P.Policy.obeys P.Policy.PLACES
            (Order.Seize body.entry) result self.old self.new }
    {
        self.order(Order::Seize(body))
    }

    /// Releases a call, with the location, 0 to 15, and the value, 0 to 127, of its cause; else
    /// refused by 8. Refused by 9 for a CIC that is no circuit, by 10 where no call is calling or
    /// talking.
    pub fn release(&mut self, cic: Cic, location: u8, value: u8) -> Result<(), Refusal>
        ensures { Does P.Policy.held P.Policy.obeys
            (λ t. releasing t P.Policy.PLACES cic location value) result self.old self.new }
    {
        self.order(Order::Release {
            cic,
            location,
            value,
        })
    }

    /// Asks the far exchange to keep calls off a circuit, for maintenance. Refused by 9 for a CIC
    /// that is no circuit, by 10 where a reset waits.
    pub fn block(&mut self, cic: Cic) -> Result<(), Refusal>
        ensures { Does P.Policy.held P.Policy.obeys (λ t. blocking t P.Policy.PLACES cic)
            result self.old self.new }
    {
        self.order(Order::Block(cic))
    }

    /// Asks it to lift that block. Refused as `block`.
    pub fn unblock(&mut self, cic: Cic) -> Result<(), Refusal>
        ensures { Does P.Policy.held P.Policy.obeys (λ t. unblocking t P.Policy.PLACES cic)
            result self.old self.new }
    {
        self.order(Order::Unblock(cic))
    }

    /// Ends the call of a circuit, clears its blocks, and asks the far exchange to do the same.
    /// Refused by 9 for a CIC that is no circuit, by 10 where a group reset waits.
    pub fn reset(&mut self, cic: Cic) -> Result<(), Refusal>
        ensures { Does P.Policy.held P.Policy.obeys (λ t. resetting t P.Policy.PLACES cic)
            result self.old self.new }
    {
        self.order(Order::Reset(cic))
    }

    /// Blocks the circuits of a mask, whose bit k is time slot k, of a PCM system, counted from 0:
    /// type 0 for maintenance, 1 for hardware, which ends their calls. Refused by 8 for another
    /// type or an empty mask, by 9 where the mask names no circuit, by 10 where a reset waits.
    pub fn group_block(&mut self, kind: u8, system: usize, mask: u32) -> Result<(), Refusal>
        ensures does { Does P.Policy.held P.Policy.obeys
            (λ t. group_blocking t P.Policy.PLACES kind system mask) result self.old self.new }
        ensures group { GroupLaws self.old.trunk.config system mask (rule.Block (why_of kind))
            (group_blocking self.old.trunk.config P.Policy.PLACES kind system mask
            (lends P.Policy.held self.old))
            (lends P.Policy.held self.old) (lends P.Policy.held self.new) }
    {
        self.order(Order::GroupBlock { kind, system, mask })
    }

    /// Lifts the blocks of the circuits of a mask. Refused as `group_block`.
    pub fn group_unblock(&mut self, kind: u8, system: usize, mask: u32) -> Result<(), Refusal>
        ensures does { Does P.Policy.held P.Policy.obeys
            (λ t. group_unblocking t P.Policy.PLACES kind system mask) result self.old self.new }
        ensures group { GroupLaws self.old.trunk.config system mask (rule.Unblock (why_of kind))
            (group_unblocking self.old.trunk.config P.Policy.PLACES kind system mask
            (lends P.Policy.held self.old))
            (lends P.Policy.held self.old) (lends P.Policy.held self.new) }
    {
        self.order(Order::GroupUnblock { kind, system, mask })
    }

    /// Resets every circuit of a PCM system. Refused by 9 for one that the trunk does not have.
    pub fn group_reset(&mut self, system: usize) -> Result<(), Refusal>
        ensures does { Does P.Policy.held P.Policy.obeys
            (λ t. group_resetting t P.Policy.PLACES system) result self.old self.new }
        ensures alike { ResetAlike self.old.trunk.config system
            (group_resetting self.old.trunk.config P.Policy.PLACES system
            (lends P.Policy.held self.old))
            (lends P.Policy.held self.old) (lends P.Policy.held self.new) }
    {
        self.order(Order::GroupReset(system))
    }

    /// Receives the octets of one message from the far exchange. Refused by 4 to 7 where they are
    /// none that is listed, by 9 where a circuit of the message is none of the trunk.
    pub fn receive(&mut self, received: &[u8]) -> Result<(), Refusal>
        ensures { Does P.Policy.held P.Policy.obeys
            (λ t. receiving t P.Policy.PLACES received.now) result self.old self.new }
    {
        let (told, sent) = self
            .trunk
            .receive(received, self.table, self.policy, self.words, self.octets)?;
        self.told = told;
        self.sent = sent;
        Ok(())
    }

    /// A timer expires: T1, T5 and T12 to T17 at a CIC, T18 to T23 at a PCM system, T18 to T21 of
    /// a type, 0 maintenance or 1 hardware. Refused by 8 for another timer or type, by 9 where the
    /// trunk has no such circuit or PCM system, T5 by 10 where a group reset waits.
    pub fn expire(&mut self, timer: u8, at: u16, kind: u8) -> Result<(), Refusal>
        ensures { Does P.Policy.held P.Policy.obeys
            (λ t. expiring t P.Policy.PLACES timer at kind) result self.old self.new }
    {
        let (told, sent) = self.trunk.expire(
            timer,
            at,
            kind,
            self.table,
            self.policy,
            self.words,
            self.octets,
        )?;
        self.told = told;
        self.sent = sent;
        Ok(())
    }

    /// How many words and octets the operation that was accepted last wrote; 0 before the first.
    pub fn counts(&self) -> (usize, usize)
        ensures { result ≡ (self.now.told, self.now.sent) }
    {
        (self.told, self.sent)
    }

    /// The words of the operation that was accepted last, as numbers; none before the first.
    pub fn words(&self) -> &[u32]
        ensures { result.now ≡ told_by self.now }
    {
        &self.words[..self.told.min(self.words.len())]
    }

    /// The octets of the messages that it sends, one after another.
    pub fn octets(&self) -> &[u8]
        ensures { result.now ≡ sent_by self.now }
    {
        &self.octets[..self.sent.min(self.octets.len())]
    }

    /// What it told: the calls that ended and began, each message to send, the alert.
    pub fn told(&self) -> Events<'_>
        ensures { left result ≡ events_by self.now }
    {
        Events::new(self.words(), self.octets())
    }

    /// The circuits, to look at.
    pub fn table(&self) -> &[Circuit]
        ensures { result.now ≡ self.now.table.now }
    {
        &self.table[..]
    }

    /// The trunk, to find places and CICs by.
    pub fn trunk(&self) -> Trunk
        ensures { result ≡ self.now.trunk }
    {
        self.trunk
    }
}
