// A step of one end, with the line of the other one.
ghost use Rattle.std.specs.Prelude.{◌≡◌};
ghost use Rattle.agreement.specs.Runs.{of_host};
ghost use Rattle.supervision.specs.Orders.{circuit_of};
ghost use Rattle.message.specs.Encode.{encode};
ghost use Rattle.interworking.specs.Exchanges.{with_line};
ghost use Rattle.interworking.specs.Stepping.{Received, Called, Steps, calling};

use crate::end::End;
use crate::fault::Fault;
use crate::step::{Step, Task};
use circuit::Circuit;
use message::CallKind;
use policy::Policy;
use refusal::Refusal;
use status::Cic;
use supervision::Trunk;

// Whether a host may send such a message by itself.
fn is_of_host(kind: CallKind) -> bool
    ensures { result ≡ of_host kind }
{
    match kind {
        CallKind::Iam => false,
        CallKind::Acm | CallKind::Con | CallKind::Anm | CallKind::Cpg => true,
    }
}

// Whether a CIC is that of an equipped circuit.
fn is_equipped(trunk: Trunk, cic: Cic, table: &[Circuit]) -> bool
    ensures { result ≡ (circuit_of trunk.config cic table.now).equipped }
{
    let first = trunk.config().first;
    cic.0 >= first.0
        && table
            .get((cic.0 - first.0) as usize)
            .is_some_and(|circuit| circuit.equipped)
}

// Whether a host may send it.
fn judge(
    trunk: Trunk,
    cic: Cic,
    kind: CallKind,
    body: &[u8],
    table: &[Circuit],
) -> Result<(), Refusal>
    ensures { result ≡ calling trunk.config cic kind body.now table.now }
{
    if !is_of_host(kind) || body.is_empty() {
        return Err(Refusal::Argument);
    }
    if !is_equipped(trunk, cic, table) {
        return Err(Refusal::Address);
    }
    Ok(())
}

impl<P: Policy> End<P> {
    // Takes the front message of the other's line, and takes it off if it is accepted.
    fn receive<Q: Policy>(&mut self, other: &mut End<Q>) -> Result<usize, Fault>
        ensures received { Received result self.old other.old.line self.new
            other.new.line }
        ensures other { other.new ≡ with_line other.new.line other.old }
    {
        let Some(front) = other.line.front() else {
            return Err(Fault::Empty);
        };
        let count = self.act(Task::Receive(front))?;
        other.line.take_off();
        Ok(count)
    }

    // Puts a call message of the host's own on the line.
    fn call(&mut self, cic: Cic, kind: CallKind, body: &[u8]) -> Result<usize, Fault>
        ensures { Called cic kind body.now result self.old self.new }
    {
        judge(self.trunk, cic, kind, body, &self.table)?;
        self.line.send(cic, kind, body)?;
        Ok(0)
    }

    // Takes a step.
    pub(crate) fn step<Q: Policy>(
        &mut self,
        step: Step<'_>,
        other: &mut End<Q>,
    ) -> Result<usize, Fault>
        ensures { Steps step.entry result self.old other.old self.new other.new }
    {
        match step {
            Step::Order(order) => self.act(Task::Order(order)),
            Step::Expire { timer, at, kind } => self.act(Task::Expire { timer, at, kind }),
            Step::Receive => self.receive(other),
            Step::Call { cic, kind, body } => self.call(cic, kind, body),
        }
    }
}
