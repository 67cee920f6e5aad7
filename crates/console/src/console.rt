// What the console holds: the open trunk, its table and its policy, and the outputs of its
// operations.
ghost use Rattle.std.specs.Prelude.{IfOk};
ghost use Rattle.console.specs.Opened.{Opened};

use crate::order::{Opening, Order};
use crate::wording::Answer;
use circuit::Circuit;
use exchange::Exchange;
use refusal::Refusal;
use status::Cic;
use std::alloc::{AllocError, Global};
use supervision::{MOST_SYSTEMS, OCTETS, SLOTS, Trunk, WORDS};
use terminal::{Input, Selection};

// An open trunk with its policy.
#[derive(Drop)]
struct OpenTrunk {
    trunk: Trunk,
    selection: Selection,
}

#[derive(Drop)]
pub struct Console {
    open: Option<OpenTrunk>,
    // the circuits of the open trunk
    table: Vec<Circuit>,
    // as the last operation left them
    pub words: [u32; WORDS],
    pub octets: [u8; OCTETS],
}

impl OpenTrunk {
    // Opens a trunk over a new policy of its method.
    fn new(opening: &Opening, table: &mut [Circuit]) -> Result<OpenTrunk, Refusal> {
        let equipment = opening.equipment.as_slice();
        let mut selection = Selection::new(opening.method, opening.higher);
        let trunk = Trunk::open(
            opening.first,
            equipment,
            opening.higher,
            table,
            &mut selection,
        )?;
        Ok(OpenTrunk { trunk, selection })
    }
}

impl Console {
    pub(crate) fn new(heap: Global) -> Console {
        Console {
            open: None,
            table: Vec::new(heap),
            words: [0; WORDS],
            octets: [0; OCTETS],
        }
    }

    pub(crate) fn answer(&mut self, heap: Global, order: Order) -> Result<Answer, AllocError> {
        match order {
            Order::Open(opening) => self.open(heap, &opening),
            Order::Show(cic) => Ok(self.show(cic)),
            Order::Operate(input) => Ok(self.operate(&input)),
        }
    }

    // Opens a trunk in place of the one before, which stays if the new one is refused.
    fn open(&mut self, heap: Global, opening: &Opening) -> Result<Answer, AllocError>
        ensures { IfOk result (λ answer. Opened answer self.old self.new) }
    {
        let systems = opening.equipment.len().min(MOST_SYSTEMS);
        let mut table = vec![in heap; Circuit::fresh(false); systems * SLOTS]?;
        match OpenTrunk::new(opening, table.as_mut_slice()) {
            Ok(open) => {
                self.open = Some(open);
                self.table = table;
                Ok(Answer::Done(0, 0))
            }
            Err(refusal) => Ok(Answer::Refused(refusal)),
        }
    }

    fn show(&self, cic: Cic) -> Answer {
        let Some(open) = &self.open else {
            return Answer::NotUnderstood;
        };
        let circuit = open
            .trunk
            .place(cic)
            .and_then(|place| self.table.get(place.0));
        match circuit {
            Some(circuit) => Answer::Shown(cic, *circuit),
            None => Answer::Refused(Refusal::Address),
        }
    }

    fn operate(&mut self, input: &Input) -> Answer {
        let Some(open) = &mut self.open else {
            return Answer::NotUnderstood;
        };
        let table = self.table.as_mut_slice();
        let (words, octets) = (&mut self.words, &mut self.octets);
        let mut exchange = Exchange::new(open.trunk, table, &mut open.selection, words, octets);
        match input.give(&mut exchange) {
            Ok(()) => {
                let (words, octets) = exchange.counts();
                Answer::Done(words, octets)
            }
            Err(refusal) => Answer::Refused(refusal),
        }
    }
}
