// What a host is told, with its names.
use status::Cic;
use std::fmt;

/// Who began a call. It is bit 12 of a begun word.
#[derive(Clone, Copy, PartialEq, Eq, Debug)]
pub enum Direction {
    /// We seized the circuit.
    Outgoing = 0,
    /// The far exchange did, by an IAM.
    Incoming = 1,
}

/// Why a call ended, by its number in an ended word.
#[derive(Clone, Copy, PartialEq, Eq, Debug)]
pub enum EndCause {
    /// The far exchange released it, by a REL.
    ReleaseReceived = 1,
    /// The far exchange completed our release, by an RLC.
    ReleaseComplete = 2,
    /// A reset of either side, of the circuit or of its group.
    Reset = 3,
    /// A hardware block of either side.
    HardwareBlock = 4,
    /// Both sides seized the circuit, and the far one controls it: its call goes on, and ours may be tried on another.
    DualSeizure = 5,
}

/// The timers of supervision, by their numbers. The host runs them from when the message of a timer goes out, and gives
/// each expiry to the trunk, which repeats the message as long as it waits for the answer.
#[derive(Clone, Copy, PartialEq, Eq, Debug)]
pub enum Timer {
    /// REL, for its RLC
    T1 = 1,
    /// REL, in all: the circuit is reset then, and the host alerted
    T5 = 5,
    /// BLO, for its BLA
    T12 = 12,
    /// BLO, in all: the host is alerted
    T13 = 13,
    /// UBL, for its UBA
    T14 = 14,
    /// UBL, in all
    T15 = 15,
    /// RSC, for its RLC
    T16 = 16,
    /// RSC, in all
    T17 = 17,
    /// CGB, for its CGBA
    T18 = 18,
    /// CGB, in all
    T19 = 19,
    /// CGU, for its CGUA
    T20 = 20,
    /// CGU, in all
    T21 = 21,
    /// GRS, for its GRA
    T22 = 22,
    /// GRS, in all
    T23 = 23,
}

/// A word told, 32 bits by `u32::from`: its kinds are numbered from 1.
#[derive(Clone, Copy, PartialEq, Eq, Debug)]
pub enum Word {
    /// A message to send: its place in the octets that the operation wrote, and its length, both in octets.
    Send(u16, u16),
    /// A call began.
    Begun(Direction, Cic),
    /// A call ended.
    Ended(EndCause, Cic),
    /// The second timer of a pair expired, or T5, while its message waited: the maintenance staff is to be told. The
    /// CIC is that of the circuit, or of time slot 1 of the PCM system.
    Alert(Timer, Cic),
}

impl fmt::Display for Direction {
    fn fmt<W: fmt::Write>(&self, f: &mut fmt::Formatter<W>) -> fmt::Result {
        f.write_str(match self {
            Direction::Outgoing => "outgoing",
            Direction::Incoming => "incoming",
        })
    }
}

impl fmt::Display for EndCause {
    fn fmt<W: fmt::Write>(&self, f: &mut fmt::Formatter<W>) -> fmt::Result {
        f.write_str(match self {
            EndCause::ReleaseReceived => "release received",
            EndCause::ReleaseComplete => "release complete",
            EndCause::Reset => "reset",
            EndCause::HardwareBlock => "hardware block",
            EndCause::DualSeizure => "dual seizure",
        })
    }
}

impl fmt::Display for Timer {
    fn fmt<W: fmt::Write>(&self, f: &mut fmt::Formatter<W>) -> fmt::Result {
        write!(f, "T{}", u8::from(*self))
    }
}
