// Method 2: release order, controlled circuits first.
ghost use Rattle.std.specs.Prelude.{◌≡◌, ℕ, true, false, List, [], length, replicate, slice_set};
ghost use Rattle.policy.specs.Orders.{InOrder, Ordered, marks, offered, withdrawn, preferred};
ghost use Rattle.policy.specs.Sets.{Chosen};
ghost use Rattle.policy.specs.Fields.{marks-length};
ghost use Rattle.policy.specs.declared.interface.TheConstants.{MOST_PLACES};
ghost use Rattle.policy.specs.declared.links.TheConstants.{LINKS};

use crate::interface::{MOST_PLACES, Place, Policy, Update};
use crate::links::Links;

/// Release order: of the controlled places the member offered longest ago, else of the others the one offered last. A
/// place offered again keeps its turn. It has no heap, and takes 3,086 octets where it stands.
#[derive(Clone, Copy)]
pub struct ReleaseOrder {
    // whether even places are controlled, or odd ones
    even: bool,
    links: Links,
    // the links are as many as they should be, and keep some order of offers
    ghost ok: { (length links.links ≡ LINKS) × InOrder even links.links },
}

impl ReleaseOrder {
    /// Holds nothing at first. With `even`, the even places are the controlled ones, else the odd ones: a host says here
    /// which circuits its own exchange controls, and that stays.
    pub fn new(even: bool) -> ReleaseOrder
        ensures parity { result.even ≡ even }
        ensures none { marks result.links.links ≡ replicate MOST_PLACES false }
        ensures order { Ordered even result.links.links [] }
    {
        ReleaseOrder {
            even,
            links: Links::new(),
        }
    }
}

impl Policy for ReleaseOrder {
    ghost use Rattle.policy.specs.Turns.{Reorders, TakesPreferred};

    const PLACES: usize = MOST_PLACES;

    ghost PLACES = { MOST_PLACES };

    ghost held = { λ s. marks s.links.links };

    ghost obeys = { Reorders };

    ghost picks = { TakesPreferred };

    ghost sized = { λ x. marks-length x.links.links x.ok.0 };

    #[inline]
    fn offer(&mut self, place: Place)
        ensures set { marks self.new.links.links
            ≡ slice_set (marks self.old.links.links) place.0 true }
        ensures obeys { Reorders (Update.Offer place) self.old self.new }
    {
        self.links.offer(self.even, place.0);
    }

    #[inline]
    fn withdraw(&mut self, place: Place)
        ensures set { marks self.new.links.links
            ≡ slice_set (marks self.old.links.links) place.0 false }
        ensures obeys { Reorders (Update.Withdraw place) self.old self.new }
    {
        self.links.withdraw(place.0);
    }

    #[inline]
    fn choose(&mut self) -> Option<Place>
        ensures member { Chosen (marks self.old.links.links) result }
        ensures picks { TakesPreferred result self.old self.new }
    {
        self.links.choose()
    }
}
