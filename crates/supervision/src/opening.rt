// Opening a trunk: its numbers are tested, its table is filled, and its policy is told.
ghost use Rattle.std.specs.Prelude.{◌≡◌, ℕ, ◌+◌, ◌*◌, ◌%◌, ◌<◌, ◌≤◌, true, false, ◌&&◌, length, slice_index_or, IfNone, IfSome};
ghost use Rattle.supervision.specs.Opening.{is_equipment, are_equipment, fits_trunk, opening, open_table, open_set, config_of, OpenedIf, OpenLaws, TellsOpen};
ghost use Rattle.supervision.specs.Telling.{Tells, withdrawals, unopened};
ghost use Rattle.policy.specs.Sets.{Follows};

use crate::limits::{MOST_SYSTEMS, SLOTS};
use crate::trunk::{Config, Trunk};
use circuit::Circuit;
use policy::{Place, Policy};
use refusal::Refusal;
use status::Cic;

// Whether bit 0 is clear and bits 1 and 31 are set.
fn is_equipment(word: u32) -> bool
    ensures { result ≡ is_equipment word }
{
    word % 2 == 0 && word / 2 % 2 == 1 && (word >> 31) % 2 == 1
}

// The first PCM system whose word is none.
fn unequipped(equipment: &[u32]) -> Option<usize>
    ensures none { IfNone result (are_equipment equipment.now ≡ true) }
    ensures found { IfSome result (λ system. are_equipment equipment.now ≡ false) }
{
    for (system, word) in equipment.iter().enumerate() {
        if !is_equipment(*word) {
            return Some(system);
        }
    }
    None
}

// Whether these are the numbers of a trunk.
fn fits_trunk(first: Cic, equipment: &[u32], places: usize) -> bool
    ensures value { result ≡ fits_trunk first.0 equipment.now places }
    ensures fits { result ≡ true
        → (first.0 % SLOTS ≡ 0) × (1 ≤ length equipment.now) × (length equipment.now ≤ MOST_SYSTEMS)
        × (first.0 + length equipment.now * SLOTS ≤ 4096) × (places ≡ length equipment.now * SLOTS) }
{
    let systems = equipment.len();
    first.0 as usize % SLOTS == 0
        && (1..=MOST_SYSTEMS).contains(&systems)
        && first.0 as usize + systems * SLOTS <= 4096
        && places == systems * SLOTS
        && unequipped(equipment).is_none()
}

// Fills the table: idle, no blocks, no reset, cause octets 0.
// Goes by the equipment words, and by the number of each bit, which is the time slot.
fn fill(equipment: &[u32], table: &mut [Circuit])
    requires { length table.old ≡ length equipment.now * SLOTS }
    ensures { table.new ≡ open_table equipment.now }
{
    for (system, word) in equipment.iter().enumerate() {
        for slot in 0..SLOTS {
            table[system * SLOTS + slot] = Circuit::fresh((*word >> slot) % 2 == 1);
        }
    }
}

// Withdraws every place that the policy takes, and so every member.
fn withdraw_all<P: Policy>(policy: &mut P)
    ensures none { (k : ℕ) → slice_index_or (P.Policy.held policy.new) k false ≡ false }
    ensures policy { Follows P.Policy.obeys (withdrawals P.Policy.PLACES) policy.old policy.new }
{
    for place in 0..P::PLACES {
        policy.withdraw(Place(place));
    }
}

// Offers each open circuit to a policy that holds nothing.
fn offer_open<P: Policy>(table: &[Circuit], policy: &mut P)
    requires none { (k : ℕ) → slice_index_or (P.Policy.held policy.old) k false ≡ false }
    requires places { length table.now ≤ P.Policy.PLACES }
    ensures set { P.Policy.held policy.new ≡ open_set P.Policy.PLACES table.now }
    ensures policy { Tells P.Policy.obeys (unopened table.now) table.now policy.old policy.new }
{
    for (place, circuit) in table.iter().enumerate() {
        if circuit.is_open() {
            policy.offer(Place(place));
        }
    }
}

impl Trunk {
    /// Opens a trunk. The equipment has a word for each PCM system: bit k says that time slot k is a
    /// circuit. The table, whatever it was, has a circuit for each place afterwards, all idle; the
    /// policy holds the open ones. The host keeps all three together.
    ///
    /// Refused by 1 where the first CIC is no multiple of 32, the PCM systems are not 1 to 16, CICs
    /// pass 4,095, the table has not 32 places for each PCM system, or a word has bit 0 set or bit 1
    /// or 31 clear; by 2 where the policy takes fewer places than the table has.
    pub fn open<P: Policy>(
        first: Cic,
        equipment: &[u32],
        higher: bool,
        table: &mut [Circuit],
        policy: &mut P,
    ) -> Result<Trunk, Refusal>
        ensures value { config_of result
            ≡ opening P.Policy.PLACES first equipment.now higher (length table.old) }
        ensures after { OpenedIf (config_of result) P.Policy.PLACES equipment.now table.old
            (P.Policy.held policy.old) table.new (P.Policy.held policy.new) }
        ensures policy { TellsOpen P.Policy.obeys (config_of result) P.Policy.PLACES equipment.now
            policy.old policy.new }
        ensures laws { OpenLaws (config_of result) table.new (P.Policy.held policy.new) }
    {
        if !fits_trunk(first, equipment, table.len()) {
            return Err(Refusal::Opening);
        }
        if P::PLACES < table.len() {
            return Err(Refusal::Places);
        }
        fill(equipment, table);
        withdraw_all(policy);
        offer_open(table, policy);
        Ok(Trunk {
            config: Config {
                first,
                systems: equipment.len(),
                higher,
            },
        })
    }
}
