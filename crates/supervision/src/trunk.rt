// A trunk: consecutive PCM systems between us and one far exchange. What is done to its circuits
// stands by the kind of what asks for it: `opening`, `ordering`, `receiving`, `expiring`.
ghost use Rattle.std.specs.Prelude.{◌≡◌, ◌+◌, ◌*◌, ◌<◌, ◌%◌, ◌≤◌};
ghost use Rattle.supervision.specs.Trunks.{places, place_of, cic_of, cic_at, controls};
ghost use Rattle.supervision.specs.declared.limits.TheConstants.{MOST_SYSTEMS, SLOTS};

use crate::limits::SLOTS;
use policy::Place;
use status::Cic;

/// The numbers of a trunk.
#[derive(Clone, Copy, PartialEq, Eq, Debug)]
pub struct Config {
    /// the first CIC of the first PCM system, a multiple of 32
    pub first: Cic,
    /// PCM systems, 1 to 16, of 32 places each
    pub systems: usize,
    /// whether our point code is the higher one
    pub higher: bool,
}

/// An open trunk. Only opening makes one, and an operation changes what is lent to it, never the
/// trunk: a host keeps it beside the table and the policy that were opened with it.
#[derive(Clone, Copy)]
pub struct Trunk {
    pub(crate) config: Config,
    // it starts at a PCM system, has 1 to 16 of them, and no CIC passes 4,095
    ghost ok: { (config.first.0 % SLOTS ≡ 0) × (1 ≤ config.systems)
        × (config.systems ≤ MOST_SYSTEMS) × (config.first.0 + config.systems * SLOTS ≤ 4096) },
}

// CICs and places: each is found from the other against a trunk, never taken for it.
impl Trunk {
    /// The numbers of the trunk.
    #[inline(always)]
    pub fn config(self) -> Config
        ensures { result ≡ self.config }
    {
        self.config
    }

    // How many places its table has.
    #[inline(always)]
    pub(crate) fn places(self) -> usize
        ensures { result ≡ places self.config }
    {
        let systems = self.config.systems;
        systems * SLOTS
    }

    /// The place of a CIC in the table, if the trunk has it.
    #[inline(always)]
    pub fn place(self, cic: Cic) -> Option<Place>
        ensures { result ≡ place_of self.config cic }
    {
        let place = cic.0.checked_sub(self.config.first.0)? as usize;
        (place < self.places()).then_some(Place(place))
    }

    /// The CIC of a place, if the table has it.
    #[inline(always)]
    pub fn cic(self, place: Place) -> Option<Cic>
        ensures { result ≡ cic_of self.config place }
    {
        (place.0 < self.places()).then(|| self.cic_at(place))
    }

    // The CIC of a place of the table.
    #[inline(always)]
    pub(crate) fn cic_at(self, place: Place) -> Cic
        requires { place.0 < places self.config }
        ensures { result ≡ cic_at self.config place.0 }
    {
        Cic(self.config.first.0 + place.0 as u16)
    }

    /// Whether we control the circuit, and so win where both exchanges seize it: with the higher
    /// point code the even CICs, else the odd ones.
    #[inline(always)]
    pub fn controls(self, cic: Cic) -> bool
        ensures { result ≡ controls self.config cic }
    {
        (cic.0 % 2 == 0) == self.config.higher
    }
}
