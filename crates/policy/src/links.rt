// Places linked in release order: in, out, and the next to choose.
ghost use Rattle.std.specs.Prelude.{Some, None, nat_lt, if◌then◌else◌, ◌≡◌, ◌<◌, ℕ, Bool, true, false, List, [], length, replicate, slice_index, slice_index_or, slice_set};
ghost use Rattle.policy.specs.Orders.{InOrder, Ordered, newers, olders, marks, end_for, offered, withdrawn, preferred};

use crate::interface::{MOST_PLACES, Place};

// The ends of the two lines, of the controlled places and of the others. Their links stand behind those of the places,
// so that a line runs from its end to its end, and the first and the last of it are no special case.
pub(crate) const CONTROLLED: u16 = MOST_PLACES as u16;

pub(crate) const UNCONTROLLED: u16 = CONTROLLED + 1;

// A link for each place and for each end.
pub(crate) const LINKS: usize = MOST_PLACES + 2;

// The neighbours of a place that is linked in, or of an end. An end has neighbours and is never linked in, so the mark
// is no Option around them.
#[derive(Clone, Copy)]
pub(crate) struct Link {
    linked: bool,
    older: u16,
    newer: u16,
}

impl Link {
    // No place is linked in here.
    const FREE: Link = Link {
        linked: false,
        older: 0,
        newer: 0,
    };
}

// A link for each place and for each end, in one array, since a policy has no heap. What they keep is said where they
// stand, in `ReleaseOrder`.
#[derive(Clone, Copy)]
pub(crate) struct Links {
    links: [Link; LINKS],
}

// The place that a link leads to; an end is none.
#[inline(always)]
fn place_at(at: u16) -> Option<Place>
    ensures { result ≡ if nat_lt at MOST_PLACES then Some (record { 0 = at }) else None }
{
    (at < CONTROLLED).then_some(Place(at as usize))
}

// The end of the line of a place.
#[inline(always)]
fn end_for(even: bool, at: usize) -> u16
    ensures { result ≡ end_for even at }
{
    if (at % 2 == 0) == even {
        CONTROLLED
    } else {
        UNCONTROLLED
    }
}

impl Links {
    // No place is linked, and each line leads from its end to its end.
    pub(crate) fn new() -> Links
        ensures size { length result.links ≡ LINKS }
        ensures none { marks result.links ≡ replicate MOST_PLACES false }
        ensures order { (e : Bool) → Ordered e result.links [] }
    {
        let mut links = Links {
            links: [Link::FREE; LINKS],
        };
        links.join(CONTROLLED, CONTROLLED);
        links.join(UNCONTROLLED, UNCONTROLLED);
        links
    }

    // Links a place in, if it is not.
    #[inline(always)]
    pub(crate) fn offer(&mut self, even: bool, at: usize)
        requires size { length self.old.links ≡ LINKS }
        requires kept { InOrder even self.old.links }
        ensures size { length self.new.links ≡ LINKS }
        ensures set { marks self.new.links ≡ slice_set (marks self.old.links) at true }
        ensures order { (zs : List ℕ) → Ordered even self.old.links zs
            → Ordered even self.new.links (offered at zs) }
    {
        if at < MOST_PLACES && !self.links[at].linked {
            self.append(end_for(even, at), at as u16);
        }
    }

    // Takes a place out, if it is linked in.
    #[inline(always)]
    pub(crate) fn withdraw(&mut self, at: usize)
        requires size { length self.old.links ≡ LINKS }
        requires kept { (e : Bool) × InOrder e self.old.links }
        ensures size { length self.new.links ≡ LINKS }
        ensures set { marks self.new.links ≡ slice_set (marks self.old.links) at false }
        ensures order { (e : Bool) (zs : List ℕ) → Ordered e self.old.links zs
            → Ordered e self.new.links (withdrawn at zs) }
    {
        if at < MOST_PLACES && self.links[at].linked {
            self.remove(at);
        }
    }

    // The oldest of the controlled line, else the newest of the other.
    #[inline(always)]
    pub(crate) fn choose(&self) -> Option<Place>
        requires { length self.now.links ≡ LINKS }
        ensures { (e : Bool) (zs : List ℕ) → Ordered e self.now.links zs → result ≡ preferred e zs }
    {
        let first = place_at(self.links[CONTROLLED as usize].newer);
        first.or_else(|| place_at(self.links[UNCONTROLLED as usize].older))
    }

    // Makes two links neighbours.
    #[inline(always)]
    fn join(&mut self, older: u16, newer: u16)
        requires size { length self.old.links ≡ LINKS }
        requires older { older < LINKS }
        requires newer { newer < LINKS }
        ensures newer { newers self.new.links ≡ slice_set (newers self.old.links) older newer }
        ensures older { olders self.new.links ≡ slice_set (olders self.old.links) newer older }
        ensures marks { marks self.new.links ≡ marks self.old.links }
        ensures size { length self.new.links ≡ LINKS }
    {
        self.links[older as usize].newer = newer;
        self.links[newer as usize].older = older;
    }

    // Puts a place in as the newest of the line that ends at `end`.
    #[inline(always)]
    fn append(&mut self, end: u16, at: u16)
        requires size { length self.old.links ≡ LINKS }
        requires end { end < LINKS }
        requires at { at < MOST_PLACES }
        requires newest { slice_index (olders self.old.links) end < LINKS }
        ensures newer { newers self.new.links
            ≡ slice_set
            (slice_set (newers self.old.links) (slice_index (olders self.old.links) end) at) at
            end }
        ensures older { olders self.new.links
            ≡ slice_set
            (slice_set (olders self.old.links) at (slice_index (olders self.old.links) end)) end
            at }
        ensures marks { marks self.new.links ≡ slice_set (marks self.old.links) at true }
        ensures size { length self.new.links ≡ LINKS }
    {
        let newest = self.links[end as usize].older;
        self.join(newest, at);
        self.join(at, end);
        self.links[at as usize].linked = true;
    }

    // Takes a place out, and joins its neighbours.
    #[inline(always)]
    fn remove(&mut self, at: usize)
        requires size { length self.old.links ≡ LINKS }
        requires at { at < MOST_PLACES }
        requires older { slice_index (olders self.old.links) at < LINKS }
        requires newer { slice_index (newers self.old.links) at < LINKS }
        ensures newer { newers self.new.links
            ≡ slice_set (newers self.old.links) (slice_index (olders self.old.links) at)
            (slice_index (newers self.old.links) at) }
        ensures older { olders self.new.links
            ≡ slice_set (olders self.old.links) (slice_index (newers self.old.links) at)
            (slice_index (olders self.old.links) at) }
        ensures marks { marks self.new.links ≡ slice_set (marks self.old.links) at false }
        ensures size { length self.new.links ≡ LINKS }
    {
        let Link { older, newer, .. } = self.links[at];
        self.join(older, newer);
        self.links[at].linked = false;
    }
}
