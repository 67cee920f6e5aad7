// What an order is refused for, before anything is changed.
ghost use Rattle.std.specs.Prelude.{◌≡◌, ◌+◌, ◌-◌, ◌<◌, ◌≤◌, true, not, length, IfOk, Ok, OnOk, ◌==◌};
ghost use Rattle.circuit.specs.Laws.{allows};
ghost use Rattle.supervision.specs.Lending.{Suffices, lent};
ghost use Rattle.supervision.specs.Orders.{admitted, circuit_of, cause_of, type_of};
ghost use Rattle.refusal.specs.Refusals.{unless};
ghost use Rattle.supervision.specs.Trunks.{places, placed};
ghost use Rattle.refusal.specs.declared.reasons.Refusal.TheVariants.{Address, State};

use crate::limits::{OCTETS, WORDS};
use crate::trunk::Trunk;
use circuit::{CauseOctets, Circuit, Rule};
use message::BlockType;
use policy::{Place, Policy};
use refusal::Refusal;
use status::Cic;

impl Trunk {
    // Whether enough is lent.
    #[inline(always)]
    pub(crate) fn admit<P: Policy>(
        self,
        table: &[Circuit],
        policy: &P,
        words: &[u32],
        octets: &[u8],
    ) -> Result<(), Refusal>
        ensures value { result
            ≡ admitted self.config P.Policy.PLACES
            (lent table.now (P.Policy.held policy.now) words.now octets.now) }
        ensures enough { OnOk result
            (Suffices self.config P.Policy.PLACES
            (lent table.now (P.Policy.held policy.now) words.now octets.now)) }
    {
        if P::PLACES < table.len() {
            return Err(Refusal::Places);
        }
        if table.len() != self.places() || words.len() < WORDS || octets.len() < OCTETS {
            return Err(Refusal::Buffers);
        }
        Ok(())
    }

    // The place of an equipped circuit.
    #[inline(always)]
    pub(crate) fn find_equipped(self, cic: Cic, table: &[Circuit]) -> Result<Place, Refusal>
        requires { length table.now ≡ places self.config }
        ensures value { result
            ≡ unless (not (circuit_of self.config cic table.now).equipped) Address
            (Ok (record { 0 = cic.0 - self.config.first.0 })) }
        ensures found { IfOk result
            (λ p. (self.config.first.0 ≤ cic.0) × (p.0 < length table.now)
            × ((placed table.now p.0).equipped ≡ true)) }
    {
        let place = self.place(cic).ok_or(Refusal::Address)?;
        if !table[place.0].equipped {
            return Err(Refusal::Address);
        }
        Ok(place)
    }

    // The place of a circuit that an order may name.
    #[inline(always)]
    pub(crate) fn find(self, cic: Cic, rule: Rule, table: &[Circuit]) -> Result<Place, Refusal>
        requires { length table.now ≡ places self.config }
        ensures value { result
            ≡ unless (not (circuit_of self.config cic table.now).equipped) Address
            (unless (not (allows rule (circuit_of self.config cic table.now))) State
            (Ok (record { 0 = cic.0 - self.config.first.0 }))) }
        ensures found { IfOk result
            (λ p. (self.config.first.0 ≤ cic.0) × (p.0 < length table.now)
            × ((placed table.now p.0).equipped ≡ true)) }
    {
        let place = self.find_equipped(cic, table)?;
        if !rule.allows(table[place.0]) {
            return Err(Refusal::State);
        }
        Ok(place)
    }
}

// The two octets of a cause.
#[inline(always)]
pub(crate) fn cause_of(location: u8, value: u8) -> Result<CauseOctets, Refusal>
    ensures { result ≡ cause_of location value }
{
    if location > 15 || value > 127 {
        return Err(Refusal::Argument);
    }
    Ok(CauseOctets {
        location_octet: 0x80 + location,
        value_octet: 0x80 + value,
    })
}

// The type of a group order with a mask. It comes as its number, as operations take plain numbers.
#[inline(always)]
pub(crate) fn type_of(kind: u8, mask: u32) -> Result<BlockType, Refusal>
    ensures { result ≡ type_of kind mask }
{
    if mask == 0 {
        return Err(Refusal::Argument);
    }
    BlockType::try_from(kind).map_err(|_| Refusal::Argument)
}
