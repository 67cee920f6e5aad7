// Any order of our side.
ghost use Rattle.supervision.specs.Lending.{lent};
ghost use Rattle.supervision.specs.Ordering.{Ordered};

use crate::trunk::Trunk;
use circuit::{Circuit, Reset, Rule};
use message::{BlockType, Grouped, Single};
use policy::Policy;
use refusal::Refusal;
use status::Cic;

/// An order of our side, with all that it is given.
#[derive(Clone, Copy)]
pub enum Order<'a> {
    /// Begins a call, with the body of its IAM, 1 to 256 octets, at the circuit that the policy
    /// chooses; the begun word tells the host which one that is.
    Seize(&'a [u8]),
    /// Releases a call, with the location, 0 to 15, and the value, 0 to 127, of its cause.
    Release { cic: Cic, location: u8, value: u8 },
    /// Asks the far exchange to keep calls off a circuit, for maintenance.
    Block(Cic),
    /// Asks it to lift that block.
    Unblock(Cic),
    /// Ends the call of a circuit, clears its blocks, and asks the far exchange to do the same.
    Reset(Cic),
    /// Blocks the circuits of a mask: type 0 for maintenance, 1 for hardware, which ends their
    /// calls; the PCM system, from 0; and the mask, whose bit k is time slot k.
    GroupBlock { kind: u8, system: usize, mask: u32 },
    /// Lifts the blocks of the circuits of a mask.
    GroupUnblock { kind: u8, system: usize, mask: u32 },
    /// Resets every circuit of a PCM system.
    GroupReset(usize),
}

impl Trunk {
    /// Does an order, and answers how many words and how many octets it wrote. The host sends the
    /// octets as the words say, in their order, and starts the timers of what it asked.
    ///
    /// Refused by 2 and 3 where too little is lent, by 8 for a number that is out of its range, by
    /// 9 for a circuit that the trunk does not have, by 10 for one whose state does not allow it;
    /// a seizure by 2, 3, 8, 11 and 12.
    pub fn order<P: Policy>(
        self,
        order: Order<'_>,
        table: &mut [Circuit],
        policy: &mut P,
        words: &mut [u32],
        octets: &mut [u8],
    ) -> Result<(usize, usize), Refusal>
        ensures { Ordered P.Policy.picks P.Policy.obeys self.config P.Policy.PLACES order.entry
            result
            (lent table.old (P.Policy.held policy.old) words.old octets.old)
            (lent table.new (P.Policy.held policy.new) words.new octets.new) policy.old policy.new }
    {
        let (block, unblock) = (Grouped::Cgb, Grouped::Cgu);
        match order {
            Order::Seize(body) => self.seize(body, table, policy, words, octets),
            Order::Release {
                cic,
                location,
                value,
            } => self.release(cic, location, value, table, policy, words, octets),
            Order::Block(cic) => {
                let rule = || Rule::Block(BlockType::Maintenance);
                self.order_single(cic, rule, Single::Blo, table, policy, words, octets)
            }
            Order::Unblock(cic) => {
                let rule = || Rule::Unblock(BlockType::Maintenance);
                self.order_single(cic, rule, Single::Ubl, table, policy, words, octets)
            }
            Order::Reset(cic) => {
                let rule = || Rule::Reset(Reset::Single);
                self.order_single(cic, rule, Single::Rsc, table, policy, words, octets)
            }
            Order::GroupBlock { kind, system, mask } => {
                let rule = Rule::Block;
                self.order_typed(
                    rule, block, kind, system, mask, table, policy, words, octets,
                )
            }
            Order::GroupUnblock { kind, system, mask } => {
                let rule = Rule::Unblock;
                self.order_typed(
                    rule, unblock, kind, system, mask, table, policy, words, octets,
                )
            }
            Order::GroupReset(system) => self.group_reset(system, table, policy, words, octets),
        }
    }
}
