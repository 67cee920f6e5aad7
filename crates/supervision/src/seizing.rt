// A call that begins here.
ghost use Rattle.std.specs.Prelude.{◌≡◌, ◌<◌, true, length, IfOk, Option as Maybe};
ghost use Rattle.policy.specs.Sets.{Chosen};
ghost use Rattle.policy.specs.declared.interface.Place.{Place as ChosenPlace};
ghost use Rattle.circuit.specs.Circuits.{is_open};
ghost use Rattle.supervision.specs.Trunks.{placed};
ghost use Rattle.supervision.specs.Lending.{lent};
ghost use Rattle.supervision.specs.Seizing.{seizable, Seized};

use crate::trunk::Trunk;
use circuit::{Circuit, Rule};
use message::{CallKind, Message};
use policy::{Place, Policy};
use refusal::Refusal;

// The place of the policy's choice, which has to be open.
#[inline(always)]
fn pick<P: Policy>(table: &[Circuit], policy: &mut P) -> Result<Place, Refusal>
    ensures same { P.Policy.held policy.new ≡ P.Policy.held policy.old }
    ensures value { (choice : Maybe ChosenPlace) × Chosen (P.Policy.held policy.old) choice
        × P.Policy.picks choice policy.old policy.new × (result ≡ seizable choice table.now) }
    ensures found { IfOk result
        (λ p. (p.0 < length table.now) × (is_open (placed table.now p.0) ≡ true)) }
{
    let place = policy.choose().ok_or(Refusal::NoneOpen)?;
    if !table.get(place.0).is_some_and(|circuit| circuit.is_open()) {
        return Err(Refusal::Choice);
    }
    Ok(place)
}

impl Trunk {
    // Begins a call, with the body of its IAM, at the circuit that the policy chooses.
    #[inline(always)]
    pub(crate) fn seize<P: Policy>(
        self,
        body: &[u8],
        table: &mut [Circuit],
        policy: &mut P,
        words: &mut [u32],
        octets: &mut [u8],
    ) -> Result<(usize, usize), Refusal>
        ensures { Seized P.Policy.picks P.Policy.obeys self.config P.Policy.PLACES body.now result
            (lent table.old (P.Policy.held policy.old) words.old octets.old)
            (lent table.new (P.Policy.held policy.new) words.new octets.new) policy.old policy.new }
    {
        self.admit(table, policy, words, octets)?;
        if !(1..=256).contains(&body.len()) {
            return Err(Refusal::Argument);
        }
        let place = pick(table, policy)?;
        let cic = self.cic_at(place);
        let message = Message::Call(cic, CallKind::Iam, body);
        let change = Rule::Seize.apply(table[place.0]);
        Ok(self.perform_at(place, change, message, table, policy, words, octets))
    }
}
