// Receiving until both lines are empty.
ghost use Rattle.std.specs.Prelude.{◌≡◌, ◌<◌, [], length, MatchOption};
ghost use Rattle.agreement.specs.Settling.{connected};
ghost use Rattle.interworking.specs.Runs.{Agrees};
ghost use Rattle.interworking.specs.Settling.{Settled, into, most_receives};

use crate::bench::Bench;
use crate::fault::Fault;
use crate::step::{Side, Step};
use circuit::Circuit;
use policy::Policy;

// How many calls are calling or talking.
fn connected(table: &[Circuit]) -> usize
    ensures { result ≡ connected table.now }
{
    let mut count = 0;
    for circuit in table {
        if circuit.call.is_connected() {
            count += 1;
        }
    }
    count
}

impl<P: Policy, Q: Policy> Bench<P, Q> {
    /// The most receives that empty both lines: six for each message on one, and two for each end of
    /// a call that is calling or talking.
    pub fn most_receives(&self) -> u128
        ensures { result ≡ most_receives self.now.near self.now.far }
    {
        let messages = self.near.line().len() as u128 + self.far.line().len() as u128;
        let calls = connected(self.near.table()) as u128 + connected(self.far.table()) as u128;
        6 * messages + 2 * calls
    }

    /// An exchange into which the line is not empty.
    pub fn receiver(&self) -> Option<Side>
        ensures { MatchOption result ((self.now.near.line ≡ []) × (self.now.far.line ≡ []))
            (λ side. 0 < length (into side self.now.near self.now.far)) }
    {
        if !self.far.line().is_empty() {
            Some(Side::Near)
        } else if !self.near.line().is_empty() {
            Some(Side::Far)
        } else {
            None
        }
    }

    /// Receives until both lines are empty; how many messages that were. Only memory may be wanting.
    pub fn settle(&mut self) -> Result<u128, Fault>
        ensures settled { Settled result self.old.near self.old.far self.new.near self.new.far }
        ensures promised { Agrees self.new.near self.new.far }
    {
        let most = self.most_receives();
        for count in 0..most {
            let Some(side) = self.receiver() else {
                return Ok(count);
            };
            self.step(side, Step::Receive)?;
        }
        Ok(most)
    }
}
