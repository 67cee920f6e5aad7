// What the messages of the far exchange do to one circuit.
ghost use Rattle.std.specs.Prelude.{◌≡◌};
ghost use Rattle.circuit.specs.Circuits.{is_set, is_calling, is_single};
ghost use Rattle.circuit.specs.Laws.{Keeps};
ghost use Rattle.circuit.specs.Signals.{on_iam, on_progress, on_rel, on_rlc, on_far_block, on_far_unblock, on_block_ack, asked_again, unlocked, on_unblock_ack, on_rsc, on_grs, on_gra, on_signal, passes_iam};

use crate::record::{Call, CauseOctets, Circuit, FarBlocks, LocalBlock, LocalBlocks, Reset};
use crate::rules::Change;
use message::BlockType;
use words::{Direction, EndCause};

/// A message as one circuit that it names sees it.
#[derive(Clone, Copy)]
pub enum Signal {
    /// IAM, and whether we control the circuit
    Iam(bool),
    /// ACM, CON, ANM, CPG
    Progress,
    Rel,
    Rlc,
    /// BLO, and CGB for its type
    Block(BlockType),
    /// UBL, and CGU for its type
    Unblock(BlockType),
    /// BLA, and CGBA for its type
    BlockAck(BlockType),
    /// UBA, and CGUA for its type
    UnblockAck(BlockType),
    Rsc,
    Grs,
    /// GRA, and the status bit of the circuit
    Gra(bool),
}

impl LocalBlock {
    // A block that stands is asked for once more.
    #[inline(always)]
    fn asked_again(self) -> LocalBlock
        ensures { result ≡ asked_again self }
    {
        match self {
            LocalBlock::Set => LocalBlock::Asked,
            other => other,
        }
    }

    // What an acknowledgement of its removal makes of it.
    #[inline(always)]
    fn unlocked(self) -> LocalBlock
        ensures { result ≡ unlocked self }
    {
        match self {
            LocalBlock::Lifting => LocalBlock::None,
            other => other.asked_again(),
        }
    }
}

impl Circuit {
    // Whether an IAM does nothing here.
    #[inline(always)]
    fn passes_iam(self, controlled: bool) -> bool
        ensures { result ≡ passes_iam controlled self }
    {
        self.reset.is_waiting()
            || !self.local.hardware.is_none()
            || self.local.maintenance == LocalBlock::Set
            || match self.call {
                Call::Idle => false,
                Call::Calling => controlled,
                Call::Talking | Call::Releasing => true,
            }
    }

    /// What IAM makes of the circuit; `controlled` is whether we control it.
    #[inline(always)]
    pub fn called(self, controlled: bool) -> Change
        ensures { result ≡ on_iam controlled self }
    {
        if self.passes_iam(controlled) {
            return Change::quiet(self);
        }
        let seized = self.call == Call::Calling;
        Change {
            circuit: Circuit {
                call: Call::Talking,
                far: FarBlocks::default(),
                ..self
            },
            ended: seized.then_some(EndCause::DualSeizure),
            begun: Some(Direction::Incoming),
        }
    }

    /// What ACM, CON, ANM and CPG make of it.
    #[inline(always)]
    pub fn progressed(self) -> Change
        ensures { result ≡ on_progress self }
    {
        let call = match self.call {
            Call::Calling => Call::Talking,
            other => other,
        };
        Change::quiet(Circuit { call, ..self })
    }

    /// What REL makes of it.
    #[inline(always)]
    pub fn far_released(self) -> Change
        ensures { result ≡ on_rel self }
    {
        if !self.call.is_connected() {
            return Change::quiet(self);
        }
        Change::ending(EndCause::ReleaseReceived, self)
    }

    /// What RLC makes of it.
    #[inline(always)]
    pub fn completed(self) -> Change
        ensures { result ≡ on_rlc self }
    {
        if self.reset == Reset::Single {
            return Change::quiet(Circuit {
                reset: Reset::None,
                ..self
            });
        }
        match self.call {
            Call::Idle => Change::quiet(self),
            Call::Calling | Call::Talking => Change::quiet(Circuit {
                call: Call::Releasing,
                cause: CauseOctets::UNEXPECTED,
                ..self
            }),
            Call::Releasing => Change::ending(EndCause::ReleaseComplete, self),
        }
    }

    /// What BLO makes of it, and CGB for its type.
    #[inline(always)]
    pub fn far_blocked(self, why: BlockType) -> Change
        ensures { result ≡ on_far_block why self }
    {
        let far = self.far.with(why, true);
        Change::under_block(why, Circuit { far, ..self })
    }

    /// What UBL makes of it, and CGU for its type.
    #[inline(always)]
    pub fn far_unblocked(self, why: BlockType) -> Change
        ensures { result ≡ on_far_unblock why self }
    {
        let far = self.far.with(why, false);
        Change::quiet(Circuit { far, ..self })
    }

    /// What BLA makes of it, and CGBA for its type.
    #[inline(always)]
    pub fn block_acknowledged(self, why: BlockType) -> Change
        ensures { result ≡ on_block_ack why self }
    {
        if self.local.of(why) != LocalBlock::Asked {
            return Change::quiet(self);
        }
        let local = self.local.with(why, LocalBlock::Set);
        Change::quiet(Circuit { local, ..self })
    }

    /// What UBA makes of it, and CGUA for its type.
    #[inline(always)]
    pub fn unblock_acknowledged(self, why: BlockType) -> Change
        ensures { result ≡ on_unblock_ack why self }
    {
        let local = self.local.with(why, self.local.of(why).unlocked());
        Change::quiet(Circuit { local, ..self })
    }

    #[inline(always)]
    fn far_reset(self) -> Change
        ensures { result ≡ on_rsc self }
    {
        let local = LocalBlocks {
            maintenance: self.local.maintenance.asked_again(),
            hardware: self.local.hardware.asked_again(),
        };
        let far = FarBlocks::default();
        Change::ending(EndCause::Reset, Circuit { local, far, ..self })
    }

    #[inline(always)]
    fn far_group_reset(self) -> Change
        ensures { result ≡ on_grs self }
    {
        let hardware = self.local.hardware.asked_again();
        let local = self.local.with(BlockType::Hardware, hardware);
        let far = FarBlocks::default();
        Change::ending(EndCause::Reset, Circuit { local, far, ..self })
    }

    #[inline(always)]
    fn group_reset_acknowledged(self, blocked: bool) -> Change
        ensures { result ≡ on_gra blocked self }
    {
        if !self.reset.is_group() {
            return Change::quiet(self);
        }
        let far = self.far.with(BlockType::Maintenance, blocked);
        Change::quiet(Circuit {
            far,
            reset: Reset::None,
            ..self
        })
    }
}

impl Signal {
    /// What the message makes of a circuit.
    #[inline(always)]
    pub fn apply(self, circuit: Circuit) -> Change
        ensures value { result ≡ on_signal self circuit }
        ensures keeps { Keeps circuit result }
    {
        match self {
            Signal::Iam(controlled) => circuit.called(controlled),
            Signal::Progress => circuit.progressed(),
            Signal::Rel => circuit.far_released(),
            Signal::Rlc => circuit.completed(),
            Signal::Block(why) => circuit.far_blocked(why),
            Signal::Unblock(why) => circuit.far_unblocked(why),
            Signal::BlockAck(why) => circuit.block_acknowledged(why),
            Signal::UnblockAck(why) => circuit.unblock_acknowledged(why),
            Signal::Rsc => circuit.far_reset(),
            Signal::Grs => circuit.far_group_reset(),
            Signal::Gra(blocked) => circuit.group_reset_acknowledged(blocked),
        }
    }
}
