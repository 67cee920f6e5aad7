// A newly opened end.
ghost use Rattle.std.specs.Prelude.{◌≡◌};
ghost use Rattle.interworking.specs.Opening.{Furnished};

use crate::end::End;
use crate::fault::Fault;
use crate::line::Line;
use circuit::Circuit;
use policy::Policy;
use refusal::Refusal;
use status::Cic;
use std::alloc::Global;
use supervision::{MOST_SYSTEMS, SLOTS, Trunk};

// Opens an end, with an equipment word for each PCM system.
pub(crate) fn furnish<P: Policy + Drop>(
    alloc: Global,
    first: Cic,
    equipment: &[u32],
    higher: bool,
    policy: P,
) -> Result<End<P>, Fault>
    ensures { Furnished P.Policy.PLACES first equipment.now higher result }
{
    if equipment.len() > MOST_SYSTEMS {
        return Err(Fault::Refused(Refusal::Opening));
    }
    let mut policy = policy;
    let mut table = Vec::from_elem(alloc, Circuit::fresh(false), equipment.len() * SLOTS)?;
    let trunk = Trunk::open(first, equipment, higher, &mut table, &mut policy)?;
    Ok(End {
        trunk,
        table,
        policy,
        told: Vec::new(alloc),
        line: Line::new(alloc),
    })
}
