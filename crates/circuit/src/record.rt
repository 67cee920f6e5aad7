// What is kept of each circuit.
ghost use Rattle.std.specs.Prelude.{◌≡◌, [], ◌∷◌};
ghost use Rattle.circuit.specs.Circuits.{is_idle, is_connected, is_none, is_standing, is_waiting, is_group, block_of, with_block, fresh, is_open};

use message::BlockType;
use std::fmt;

/// The call on a circuit.
#[derive(Clone, Copy, PartialEq, Eq, Default, Debug)]
pub enum Call {
    #[default]
    Idle,
    /// seized by us, nothing heard back
    Calling,
    /// set up by either exchange
    Talking,
    /// released by us, not yet confirmed
    Releasing,
}

/// A block that we ask the far exchange to keep, of one type.
#[derive(Clone, Copy, PartialEq, Eq, Default, Debug)]
pub enum LocalBlock {
    #[default]
    None,
    /// sent, not yet acknowledged: the host keeps a timer
    Asked,
    /// acknowledged
    Set,
    /// its removal is sent, not yet acknowledged: the host keeps a timer
    Lifting,
}

/// A reset of ours that waits for its answer.
#[derive(Clone, Copy, PartialEq, Eq, Default, Debug)]
pub enum Reset {
    #[default]
    None,
    /// of the circuit: RLC ends it
    Single,
    /// of its PCM system: GRA ends it
    Group,
}

/// What is kept for each type of block.
#[derive(Clone, Copy, PartialEq, Eq, Default, Debug)]
pub struct Blocks<T> {
    pub maintenance: T,
    pub hardware: T,
}

/// Our own blocks.
pub type LocalBlocks = Blocks<LocalBlock>;

/// The blocks that the far exchange asked for.
pub type FarBlocks = Blocks<bool>;

/// The two cause octets of a release as they are sent, each with the bit 0x80 set: location and value are
/// what the other seven bits say.
#[derive(Clone, Copy, PartialEq, Eq, Default, Debug)]
pub struct CauseOctets {
    pub location_octet: u8,
    pub value_octet: u8,
}

impl CauseOctets {
    /// Of a release that answers an RLC which nothing waited for.
    pub const UNEXPECTED: CauseOctets = CauseOctets {
        location_octet: 0x87,
        value_octet: 0x9f,
    };
}

// Two fields and no array: of an array in a record its length would not be known.
impl From<CauseOctets> for [u8; 2] {
    ghost from_gives = { λ cause octets. octets ≡ cause.location_octet ∷ cause.value_octet ∷ [] };

    #[inline(always)]
    fn from(cause: CauseOctets) -> [u8; 2] {
        [cause.location_octet, cause.value_octet]
    }
}

/// The record of a time slot. A host keeps a table of them and lends it to each operation; it may read it, and
/// change it only through operations.
#[derive(Clone, Copy, PartialEq, Eq, Default, Debug)]
pub struct Circuit {
    /// whether the time slot is a circuit; nothing changes one that is none
    pub equipped: bool,
    pub call: Call,
    pub local: LocalBlocks,
    pub far: FarBlocks,
    pub reset: Reset,
    /// of our last release, to repeat it; 0 before the first
    pub cause: CauseOctets,
}

impl Call {
    #[inline(always)]
    pub fn is_idle(self) -> bool
        ensures { result ≡ is_idle self }
    {
        self == Call::Idle
    }

    /// Whether it is calling or talking.
    #[inline(always)]
    pub fn is_connected(self) -> bool
        ensures { result ≡ is_connected self }
    {
        matches!(self, Call::Calling | Call::Talking)
    }
}

impl LocalBlock {
    #[inline(always)]
    pub fn is_none(self) -> bool
        ensures { result ≡ is_none self }
    {
        self == LocalBlock::None
    }

    /// Whether it is asked or set.
    #[inline(always)]
    pub fn is_standing(self) -> bool
        ensures { result ≡ is_standing self }
    {
        matches!(self, LocalBlock::Asked | LocalBlock::Set)
    }
}

impl Reset {
    #[inline(always)]
    pub fn is_waiting(self) -> bool
        ensures { result ≡ is_waiting self }
    {
        self != Reset::None
    }

    #[inline(always)]
    pub fn is_group(self) -> bool
        ensures { result ≡ is_group self }
    {
        self == Reset::Group
    }
}

impl<T: Copy> Blocks<T> {
    /// What is kept for one type.
    #[inline(always)]
    pub fn of(self, why: BlockType) -> T
        ensures { result ≡ block_of why self }
    {
        match why {
            BlockType::Maintenance => self.maintenance,
            BlockType::Hardware => self.hardware,
        }
    }

    // The same with another value for one type.
    #[inline(always)]
    pub(crate) fn with(self, why: BlockType, value: T) -> Blocks<T>
        ensures { result ≡ with_block why value self }
    {
        match why {
            BlockType::Maintenance => Blocks {
                maintenance: value,
                ..self
            },
            BlockType::Hardware => Blocks {
                hardware: value,
                ..self
            },
        }
    }
}

impl Circuit {
    /// A circuit of a newly opened trunk, or a time slot that is none.
    #[inline(always)]
    pub fn fresh(equipped: bool) -> Circuit
        ensures { result ≡ fresh equipped }
    {
        Circuit {
            equipped,
            ..Circuit::default()
        }
    }

    /// Whether the next call may take the circuit.
    #[inline(always)]
    pub fn is_open(self) -> bool
        ensures { result ≡ is_open self }
    {
        self.equipped
            && self.call.is_idle()
            && !self.reset.is_waiting()
            && self.local.maintenance.is_none()
            && self.local.hardware.is_none()
            && !self.far.maintenance
            && !self.far.hardware
    }
}

impl fmt::Display for Call {
    fn fmt<W: fmt::Write>(&self, f: &mut fmt::Formatter<W>) -> fmt::Result {
        f.write_str(match self {
            Call::Idle => "idle",
            Call::Calling => "calling",
            Call::Talking => "talking",
            Call::Releasing => "releasing",
        })
    }
}

impl fmt::Display for LocalBlock {
    fn fmt<W: fmt::Write>(&self, f: &mut fmt::Formatter<W>) -> fmt::Result {
        f.write_str(match self {
            LocalBlock::None => "none",
            LocalBlock::Asked => "asked",
            LocalBlock::Set => "set",
            LocalBlock::Lifting => "lifting",
        })
    }
}

impl fmt::Display for Reset {
    fn fmt<W: fmt::Write>(&self, f: &mut fmt::Formatter<W>) -> fmt::Result {
        f.write_str(match self {
            Reset::None => "none",
            Reset::Single => "single",
            Reset::Group => "group",
        })
    }
}
