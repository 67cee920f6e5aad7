// What every policy is: a set of places, and one of them to take next.
ghost use Rattle.std.specs.Prelude.{◌≡◌, ℕ, ◌<◌, Bool, true, false, List, length, slice_index_or, slice_set, Option as Maybe};
ghost use Rattle.policy.specs.Sets.{Chosen, Follows, after, last_update};

use std::fmt;

/// The most places that a policy of this crate takes: the circuits of 16 PCM systems of 32 time slots.
pub const MOST_PLACES: usize = 512;

/// A place in the table of circuit records, counted from 0. It is no CIC.
#[derive(Clone, Copy, PartialEq, Eq, Debug)]
pub struct Place(pub usize);

impl fmt::Display for Place {
    fn fmt<W: fmt::Write>(&self, f: &mut fmt::Formatter<W>) -> fmt::Result {
        write!(f, "{}", self.0)
    }
}

/// A set of places below a number of its own, and one of them to take next. A host lends one to each operation on a
/// trunk, which tells it what opens and what closes and asks it when it seizes. A host may write its own: it may promise
/// no more than its set.
pub trait Policy {
    ghost use Rattle.policy.specs.declared.interface.Place.{Place};
    ghost use Rattle.policy.specs.declared.interface.Update.{Update};

    /// How many places it takes: those from 0 up to this number, which is not among them.
    const PLACES: usize;

    ghost PLACES: { ℕ };

    // the set: a mark for each place below that number
    ghost held: { Self → List Bool };

    // what an update makes of the policy, and what naming a place does: each policy says it for itself, beside the set
    ghost obeys: { Update → Self → Self → Type 0 };

    ghost picks: { Maybe Place → Self → Self → Type 0 };

    /// Adds a place. One that is a member stays one, and one past the last changes nothing.
    fn offer(&mut self, place: Place)
        ensures set { held self.new ≡ slice_set (held self.old) place.0 true }
        ensures obeys { obeys (Update.Offer place) self.old self.new };

    /// Removes a place. One that is no member changes nothing.
    fn withdraw(&mut self, place: Place)
        ensures set { held self.new ≡ slice_set (held self.old) place.0 false }
        ensures obeys { obeys (Update.Withdraw place) self.old self.new };

    /// Names some member, or none if there is none. The set stays: who takes the place withdraws it.
    fn choose(&mut self) -> Option<Place>
        ensures same { held self.new ≡ held self.old }
        ensures member { Chosen (held self.old) result }
        ensures picks { picks result self.old self.new };

    ghost sized: { (x : Self) → length (held x) ≡ PLACES };
}

/// What a policy is told.
#[derive(Clone, Copy)]
pub enum Update {
    /// the place may be taken
    Offer(Place),
    /// the place may not be taken
    Withdraw(Place),
}

/// Tells a policy each update in turn, for a host that replays. Of each place the last update decides.
pub fn follow<P: Policy>(policy: &mut P, updates: &[Update])
    ensures all { P.Policy.held policy.new ≡ after updates.now (P.Policy.held policy.old) }
    ensures obeys { Follows P.Policy.obeys updates.now policy.old policy.new }
    ensures last { (k : ℕ) → k < P.Policy.PLACES
        → slice_index_or (P.Policy.held policy.new) k false
        ≡ last_update updates.now k (slice_index_or (P.Policy.held policy.old) k false) }
{
    for update in updates {
        match *update {
            Update::Offer(place) => policy.offer(place),
            Update::Withdraw(place) => policy.withdraw(place),
        }
    }
}
