// What orders do to one circuit.
ghost use Rattle.std.specs.Prelude.{◌≡◌, true};
ghost use Rattle.circuit.specs.Changes.{quiet, ending, under_block};
ghost use Rattle.circuit.specs.Laws.{Keeps, allows};
ghost use Rattle.circuit.specs.Orders.{on_seize, on_release, on_block, on_unblock, on_reset, applied};

use crate::record::{Call, CauseOctets, Circuit, FarBlocks, LocalBlock, LocalBlocks, Reset};
use message::BlockType;
use words::{Direction, EndCause};

/// What a rule makes of a circuit, and what it tells of its call: an end, a beginning, or first the one and then
/// the other.
#[derive(Clone, Copy)]
pub struct Change {
    pub circuit: Circuit,
    pub ended: Option<EndCause>,
    pub begun: Option<Direction>,
}

/// What an order does to each circuit that it names.
#[derive(Clone, Copy)]
pub enum Rule {
    Seize,
    Release(CauseOctets),
    Block(BlockType),
    Unblock(BlockType),
    /// the reset that waits then, which is never none
    Reset(Reset),
}

impl Change {
    // Nothing is told of the call.
    #[inline(always)]
    pub(crate) fn quiet(circuit: Circuit) -> Change
        ensures { result ≡ quiet circuit }
    {
        Change {
            circuit,
            ended: None,
            begun: None,
        }
    }

    // The call is ended, and the end is told unless it was idle.
    #[inline(always)]
    pub(crate) fn ending(cause: EndCause, circuit: Circuit) -> Change
        ensures { result ≡ ending cause circuit }
    {
        let engaged = !circuit.call.is_idle();
        Change {
            ended: engaged.then_some(cause),
            ..Change::quiet(Circuit {
                call: Call::Idle,
                ..circuit
            })
        }
    }

    // What a block does to the call: one for hardware ends it, one for maintenance lets it go on.
    #[inline(always)]
    pub(crate) fn under_block(why: BlockType, circuit: Circuit) -> Change
        ensures { result ≡ under_block why circuit }
    {
        match why {
            BlockType::Maintenance => Change::quiet(circuit),
            BlockType::Hardware => Change::ending(EndCause::HardwareBlock, circuit),
        }
    }
}

impl Circuit {
    #[inline(always)]
    fn seized(self) -> Change
        ensures { result ≡ on_seize self }
    {
        Change {
            begun: Some(Direction::Outgoing),
            ..Change::quiet(Circuit {
                call: Call::Calling,
                ..self
            })
        }
    }

    #[inline(always)]
    fn released(self, cause: CauseOctets) -> Change
        ensures { result ≡ on_release cause self }
    {
        Change::quiet(Circuit {
            call: Call::Releasing,
            cause,
            ..self
        })
    }

    #[inline(always)]
    fn blocked(self, why: BlockType) -> Change
        ensures { result ≡ on_block why self }
    {
        let local = self.local.with(why, LocalBlock::Asked);
        Change::under_block(why, Circuit { local, ..self })
    }

    #[inline(always)]
    fn unblocked(self, why: BlockType) -> Change
        ensures { result ≡ on_unblock why self }
    {
        if self.local.of(why).is_none() {
            return Change::quiet(self);
        }
        let local = self.local.with(why, LocalBlock::Lifting);
        Change::quiet(Circuit { local, ..self })
    }

    #[inline(always)]
    fn cleared(self, reset: Reset) -> Change
        ensures { result ≡ on_reset reset self }
    {
        Change::ending(
            EndCause::Reset,
            Circuit {
                local: LocalBlocks::default(),
                far: FarBlocks::default(),
                reset,
                ..self
            },
        )
    }
}

impl Rule {
    /// Whether an order may name the circuit.
    #[inline(always)]
    pub fn allows(self, circuit: Circuit) -> bool
        ensures { result ≡ allows self circuit }
    {
        match self {
            Rule::Seize => circuit.is_open(),
            Rule::Release(_) => circuit.call.is_connected(),
            Rule::Block(_) | Rule::Unblock(_) => !circuit.reset.is_waiting(),
            Rule::Reset(Reset::None) => false,
            Rule::Reset(Reset::Single) => !circuit.reset.is_group(),
            Rule::Reset(Reset::Group) => true,
        }
    }

    /// What the rule makes of a circuit.
    #[inline(always)]
    pub fn apply(self, circuit: Circuit) -> Change
        ensures value { result ≡ applied self circuit }
        ensures keeps { allows self circuit ≡ true → Keeps circuit result }
    {
        match self {
            Rule::Seize => circuit.seized(),
            Rule::Release(cause) => circuit.released(cause),
            Rule::Block(why) => circuit.blocked(why),
            Rule::Unblock(why) => circuit.unblocked(why),
            Rule::Reset(reset) => circuit.cleared(reset),
        }
    }
}
