// The operations of a trunk on an end: all room is made before, and what is told and sent is kept
// after.
ghost use Rattle.std.specs.Prelude.{◌≡◌};
ghost use Rattle.supervision.specs.Lending.{lent};
ghost use Rattle.interworking.specs.Acting.{Acted, Gives, Performed};

use crate::carrying::append;
use crate::end::End;
use crate::fault::Fault;
use crate::step::Task;
use circuit::Circuit;
use exchange::Exchange;
use policy::Policy;
use refusal::Refusal;
use supervision::{OCTETS, Trunk, WORDS};

// Gives it to an exchange; how many words and octets that wrote.
fn give<P: Policy>(
    task: Task<'_>,
    exchange: &mut Exchange<'_, P>,
) -> Result<(usize, usize), Refusal>
    ensures { Gives P.Policy.held P.Policy.PLACES task.entry result exchange.old exchange.new }
{
    match task {
        Task::Order(order) => exchange.order(order)?,
        Task::Expire { timer, at, kind } => exchange.expire(timer, at, kind)?,
        Task::Receive(received) => exchange.receive(received)?,
    }
    Ok(exchange.counts())
}

// Does it on what is lent.
fn perform<P: Policy>(
    trunk: Trunk,
    task: Task<'_>,
    table: &mut [Circuit],
    policy: &mut P,
    words: &mut [u32],
    octets: &mut [u8],
) -> Result<(usize, usize), Refusal>
    ensures { Performed trunk.config P.Policy.PLACES task.entry result
        (lent table.old (P.Policy.held policy.old) words.old octets.old)
        (lent table.new (P.Policy.held policy.new) words.new octets.new) }
{
    let mut exchange = Exchange::new(trunk, table, policy, words, octets);
    give(task, &mut exchange)
}

impl<P: Policy> End<P> {
    // Does it; how many words are told.
    pub(crate) fn act(&mut self, task: Task<'_>) -> Result<usize, Fault>
        ensures { Acted task.entry result self.old self.new }
    {
        self.told.reserve(WORDS)?;
        self.line.reserve(WORDS, OCTETS)?;
        let mut words = [0u32; WORDS];
        let mut octets = [0u8; OCTETS];
        let (count, size) = perform(
            self.trunk,
            task,
            &mut self.table,
            &mut self.policy,
            &mut words,
            &mut octets,
        )?;
        append(&mut self.told, &words[..count]);
        self.line.post(&words[..count], &octets[..size]);
        Ok(count)
    }
}
