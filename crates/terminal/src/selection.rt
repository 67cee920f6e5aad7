// A policy of either method. An enum and no `dyn`, since a policy states its number of places as a
// constant.
ghost use Rattle.terminal.specs.Selections.{held_by, held_by-length, obeys_by, picks_by, made_by};
ghost use Rattle.std.specs.Prelude.{◌≡◌, false, replicate};
ghost use Rattle.policy.specs.declared.interface.TheConstants.{MOST_PLACES};

use crate::methods::Method;
use policy::{MOST_PLACES, Place, Policy, ReleaseOrder, Sequential};

#[derive(Clone, Copy)]
pub enum Selection {
    OneEnd(Sequential),
    ReleaseOrder(ReleaseOrder),
}

impl Selection {
    /// A policy that holds nothing. With the higher point code the even places are controlled.
    pub fn new(method: Method, higher: bool) -> Selection
        ensures made { made_by method higher result }
        ensures none { held_by result ≡ replicate MOST_PLACES false }
    {
        match method {
            Method::OneEnd(end) => Selection::OneEnd(Sequential::new(end)),
            Method::ReleaseOrder => Selection::ReleaseOrder(ReleaseOrder::new(higher)),
        }
    }
}

impl Policy for Selection {
    const PLACES: usize = MOST_PLACES;

    ghost PLACES = { MOST_PLACES };

    ghost held = { held_by };

    ghost obeys = { obeys_by };

    ghost picks = { picks_by };

    ghost sized = { held_by-length };

    #[inline(always)]
    fn offer(&mut self, place: Place) {
        match self {
            Selection::OneEnd(policy) => policy.offer(place),
            Selection::ReleaseOrder(policy) => policy.offer(place),
        }
    }

    #[inline(always)]
    fn withdraw(&mut self, place: Place) {
        match self {
            Selection::OneEnd(policy) => policy.withdraw(place),
            Selection::ReleaseOrder(policy) => policy.withdraw(place),
        }
    }

    #[inline(always)]
    fn choose(&mut self) -> Option<Place> {
        match self {
            Selection::OneEnd(policy) => policy.choose(),
            Selection::ReleaseOrder(policy) => policy.choose(),
        }
    }
}
