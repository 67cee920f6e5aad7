// Method 1: a mark for each place, looked at from one end.
ghost use Rattle.std.specs.Prelude.{◌≡◌, ◌<◌, true, false, length, replicate, slice_set};
ghost use Rattle.policy.specs.Ends.{Nearest};
ghost use Rattle.policy.specs.Sets.{Chosen};
ghost use Rattle.policy.specs.declared.interface.TheConstants.{MOST_PLACES};
ghost use Rattle.std.proofs.Common.{rules};

use crate::interface::{MOST_PLACES, Place, Policy};

/// The end that a choice is looked for from.
#[derive(Clone, Copy, PartialEq, Eq, Debug)]
pub enum End {
    /// the lowest member is chosen
    Low,
    /// the highest member is chosen
    High,
}

/// Sequential selection: the lowest member, or the highest. It has no heap, and takes 513 octets where it stands.
#[derive(Clone, Copy)]
pub struct Sequential {
    end: End,
    marks: [bool; MOST_PLACES],
    ghost ok: { length marks ≡ MOST_PLACES },
}

impl Sequential {
    ghost use Rattle.policy.specs.Marks.{MarksPlace};

    /// Holds nothing at first. The end stays as it is given here.
    pub fn new(end: End) -> Sequential
        ensures end { result.end ≡ end }
        ensures none { result.marks ≡ replicate MOST_PLACES false }
    {
        Sequential {
            end,
            marks: [false; MOST_PLACES],
        }
    }

    // Marks a place as held or not. One past the last changes nothing.
    #[inline(always)]
    fn mark(&mut self, place: Place, held: bool)
        ensures { MarksPlace place held self.old self.new }
    {
        if place.0 < self.marks.len() {
            self.marks[place.0] = held;
        }
    }

    // The member nearest to the end.
    #[inline(always)]
    fn nearest(&self) -> Option<Place>
        ensures { Chosen self.now.marks result × Nearest self.now.end self.now.marks result }
    {
        let mut marks = self.marks.iter();
        let at = match self.end {
            End::Low => marks.position(|held| *held),
            End::High => marks.rposition(|held| *held),
        };
        at.map(Place)
    }
}

impl Policy for Sequential {
    ghost use Rattle.policy.specs.Marks.{MarksPlace, MarksUpdate, TakesNearest};

    const PLACES: usize = MOST_PLACES;

    ghost PLACES = { MOST_PLACES };

    ghost held = { λ s. s.marks };

    ghost obeys = { MarksUpdate };

    ghost picks = { TakesNearest };

    ghost sized = { Prim.search rules };

    #[inline]
    fn offer(&mut self, place: Place)
        ensures { MarksPlace place true self.old self.new }
    {
        self.mark(place, true);
    }

    #[inline]
    fn withdraw(&mut self, place: Place)
        ensures { MarksPlace place false self.old self.new }
    {
        self.mark(place, false);
    }

    #[inline]
    fn choose(&mut self) -> Option<Place>
        ensures member { Chosen self.old.marks result }
        ensures picks { TakesNearest result self.old self.new }
    {
        self.nearest()
    }
}
