// What is promised of two exchanges, looked at on their tables and on the words that they told.
use circuit::{Call, Circuit, LocalBlock};
use status::Cic;
use std::alloc::{AllocError, Global};
use std::fmt;
use words::{Direction, Word};

// What was seen not to hold.
#[derive(Clone, Copy, PartialEq, Eq, Debug)]
pub enum Broken {
    // a local block stands at one end and is not known at the other, or is known and does not stand
    Blocks(Cic),
    // begun and ended words do not take turns, or the circuit is engaged where the last of them is
    // no begun, or the other way round
    Turns(Cic),
    // a seizure was refused where a circuit was open, or by 12, or accepted where none was
    Seizure,
    // a seizure took a circuit that was not open
    Taken(Cic),
    // a message on a line was refused
    Message,
    // something is waited for where both lines are empty
    Rest(Cic),
}

impl fmt::Display for Broken {
    fn fmt<W: fmt::Write>(&self, f: &mut fmt::Formatter<W>) -> fmt::Result {
        match self {
            Broken::Blocks(cic) => write!(
                f,
                "the ends do not agree on the blocks of circuit {cic}"
            ),
            Broken::Turns(cic) => write!(f, "begun and ended do not take turns on circuit {cic}"),
            Broken::Seizure => write!(
                f,
                "a seizure is accepted without an open circuit, or refused with one or by 12"
            ),
            Broken::Taken(cic) => write!(f, "a seizure takes circuit {cic}, which was not open"),
            Broken::Message => write!(f, "a message on a line is refused"),
            Broken::Rest(cic) => write!(f, "with empty lines circuit {cic} waits for an answer"),
        }
    }
}

// Whether the far end of a circuit knows of the local blocks of this end, and of no others.
fn knows(here: Circuit, there: Circuit) -> bool {
    here.local.maintenance.is_standing() == there.far.maintenance
        && here.local.hardware.is_standing() == there.far.hardware
}

// Both lines being empty, the first circuit on whose blocks the two do not agree.
pub fn look_at_blocks(first: Cic, near: &[Circuit], far: &[Circuit]) -> Option<Broken> {
    let mut cic = first;
    for (here, there) in near.iter().zip(far) {
        if !knows(*here, *there) || !knows(*there, *here) {
            return Some(Broken::Blocks(cic));
        }
        cic = Cic(cic.0.wrapping_add(1));
    }
    None
}

fn is_settled(block: LocalBlock) -> bool {
    matches!(block, LocalBlock::None | LocalBlock::Set)
}

fn rests(circuit: Circuit) -> bool {
    is_settled(circuit.local.maintenance)
        && is_settled(circuit.local.hardware)
        && !circuit.reset.is_waiting()
        && !matches!(circuit.call, Call::Releasing)
}

// Both lines being empty, the first circuit of an end that waits for something.
pub fn look_at_rest(first: Cic, table: &[Circuit]) -> Option<Broken> {
    let mut cic = first;
    for circuit in table {
        if !rests(*circuit) {
            return Some(Broken::Rest(cic));
        }
        cic = Cic(cic.0.wrapping_add(1));
    }
    None
}

// Marks for each circuit of an end.
#[derive(Drop)]
pub struct Calls {
    first: Cic,
    // whether the last word about it was a begun
    begun: Vec<bool>,
    // whether it was open at the last look; before the first one all are taken to be
    open: Vec<bool>,
}

impl Calls {
    pub fn new(heap: Global, first: Cic, places: usize) -> Result<Calls, AllocError> {
        Ok(Calls {
            first,
            begun: vec![in heap; false; places]?,
            open: vec![in heap; true; places]?,
        })
    }

    // Notes that a call began or ended; whether it was the turn of that.
    fn note(&mut self, cic: Cic, begins: bool) -> bool {
        let Some(place) = cic.0.checked_sub(self.first.0) else {
            return false;
        };
        let Some(mark) = self.begun.get_mut(place as usize) else {
            return false;
        };
        let turn = *mark != begins;
        *mark = begins;
        turn
    }

    // Whether a circuit was open at the last look.
    fn was_open(&self, cic: Cic) -> bool {
        let place = cic.0.checked_sub(self.first.0);
        place.and_then(|place| self.open.get(place as usize)) == Some(&true)
    }

    // Follows the words of a step, and compares the calls with the table then.
    pub fn look(&mut self, words: &[u32], table: &[Circuit]) -> Option<Broken> {
        for word in words {
            let (cic, begins) = match Word::try_from(*word) {
                Ok(Word::Begun(direction, cic)) => (cic, Some(direction)),
                Ok(Word::Ended(_, cic)) => (cic, None),
                _ => continue,
            };
            if !self.note(cic, begins.is_some()) {
                return Some(Broken::Turns(cic));
            }
            if begins == Some(Direction::Outgoing) && !self.was_open(cic) {
                return Some(Broken::Taken(cic));
            }
        }
        for (open, circuit) in self.open.iter_mut().zip(table) {
            *open = circuit.is_open();
        }
        let mut cic = self.first;
        for (begun, circuit) in self.begun.iter().zip(table) {
            if *begun == circuit.call.is_idle() {
                return Some(Broken::Turns(cic));
            }
            cic = Cic(cic.0.wrapping_add(1));
        }
        None
    }
}
