// The two exchanges, and what they answer.
use crate::reading::{Command, Opening};
use crate::watching::{Tally, Watch};
use interworking::{Bench, Fault, Side, Step};
use status::Cic;
use std::alloc::Global;
use terminal::Selection;

// What a command is answered.
#[derive(Clone, Copy)]
pub enum Answer {
    Opened,
    // how many words the exchange of that side told
    Told(Side, usize),
    // by how many receives
    Settled(u128),
    Shown(Cic),
    Ran(Tally),
    Failed(Fault),
    NotUnderstood,
}

// Once they are open.
#[derive(Drop)]
pub struct Exchanges {
    pub bench: Option<Bench<Selection, Selection>>,
}

impl Exchanges {
    pub fn answer(&mut self, heap: Global, command: &Command) -> Answer {
        match command {
            Command::Open(opening) => self.open(heap, opening),
            Command::Step(side, deed) => self.step(*side, deed.as_step()),
            Command::Settle => self.settle(),
            Command::Show(cic) => Answer::Shown(*cic),
            Command::Run { seed, steps } => self.run(heap, *seed, *steps),
        }
    }

    // Two exchanges in place of those before, which stay if the new ones are refused.
    fn open(&mut self, heap: Global, opening: &Opening) -> Answer {
        let near = Selection::new(opening.near, opening.higher);
        let far = Selection::new(opening.far, !opening.higher);
        let words = opening.equipment.as_slice();
        match Bench::open(heap, opening.first, words, opening.higher, near, far) {
            Ok(bench) => {
                self.bench = Some(bench);
                Answer::Opened
            }
            Err(fault) => Answer::Failed(fault),
        }
    }

    fn step(&mut self, side: Side, step: Step<'_>) -> Answer {
        let Some(bench) = &mut self.bench else {
            return Answer::NotUnderstood;
        };
        match bench.step(side, step) {
            Ok(count) => Answer::Told(side, count),
            Err(fault) => Answer::Failed(fault),
        }
    }

    fn settle(&mut self) -> Answer {
        let Some(bench) = &mut self.bench else {
            return Answer::NotUnderstood;
        };
        match bench.settle() {
            Ok(count) => Answer::Settled(count),
            Err(fault) => Answer::Failed(fault),
        }
    }

    fn run(&mut self, heap: Global, seed: u64, steps: u32) -> Answer {
        let Some(bench) = &mut self.bench else {
            return Answer::NotUnderstood;
        };
        match Watch::new(heap, &*bench) {
            Ok(mut watch) => Answer::Ran(watch.run(bench, seed, steps)),
            Err(_) => Answer::Failed(Fault::Memory),
        }
    }
}
