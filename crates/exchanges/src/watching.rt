// A stretch of steps by chance, with what is promised looked at after each.
use crate::chance::Chance;
use crate::looking::{Broken, Calls, look_at_blocks, look_at_rest};
use interworking::{Bench, End, Fault, Side, Step};
use policy::Policy;
use refusal::Refusal;
use std::alloc::{AllocError, Global};
use supervision::Order;
use terminal::Selection;

// What a stretch came to.
#[derive(Clone, Copy)]
pub struct Tally {
    pub accepted: u32,
    pub refused: u32,
    // states in which both lines were empty
    pub quiet: u32,
    // the first promise that did not hold
    pub broken: Option<Broken>,
}

// The two exchanges, and their calls by the words that they told.
#[derive(Drop)]
pub struct Watch {
    near: Calls,
    far: Calls,
}

// The calls of an end, before its words are followed.
fn calls_of<P: Policy>(heap: Global, end: &End<P>) -> Result<Calls, AllocError> {
    Calls::new(heap, end.config().first, end.table().len())
}

// Whether some circuit of an end is open.
fn has_open<P: Policy>(end: &End<P>) -> bool {
    end.table().iter().any(|circuit| circuit.is_open())
}

// The last words that an end told.
fn last<P: Policy>(end: &End<P>, count: usize) -> &[u32] {
    let told = end.told();
    &told[told.len().saturating_sub(count)..]
}

impl Watch {
    pub fn new(heap: Global, bench: &Bench<Selection, Selection>) -> Result<Watch, AllocError> {
        Ok(Watch {
            near: calls_of(heap, bench.near())?,
            far: calls_of(heap, bench.far())?,
        })
    }

    // Looks at the turns of the side that told so many words, and where both lines are empty at the
    // rest.
    fn look(
        &mut self,
        bench: &Bench<Selection, Selection>,
        side: Side,
        count: usize,
    ) -> Option<Broken> {
        let near = bench.near();
        let far = bench.far();
        let turns = match side {
            Side::Near => self.near.look(last(near, count), near.table()),
            Side::Far => self.far.look(last(far, count), far.table()),
        };
        if turns.is_some() || bench.receiver().is_some() {
            return turns;
        }
        let first = near.config().first;
        look_at_blocks(first, near.table(), far.table())
            .or_else(|| look_at_rest(first, near.table()))
            .or_else(|| look_at_rest(first, far.table()))
    }

    // Looks at all that was told before the stretch.
    fn look_back(&mut self, bench: &Bench<Selection, Selection>) -> Option<Broken> {
        let near = bench.near().told().len();
        let far = bench.far().told().len();
        self.look(bench, Side::Near, near)
            .or(self.look(bench, Side::Far, far))
    }

    // Takes a step by chance, and counts what it came to.
    fn step(
        &mut self,
        bench: &mut Bench<Selection, Selection>,
        chance: &mut Chance,
        tally: &mut Tally,
    ) {
        let side = chance.side();
        let step = chance.step();
        let open = match side {
            Side::Near => has_open(bench.near()),
            Side::Far => has_open(bench.far()),
        };
        let took = bench.step(side, step);
        match took {
            Ok(count) => {
                tally.accepted = tally.accepted.saturating_add(1);
                tally.broken = self.look(bench, side, count);
            }
            Err(_) => tally.refused = tally.refused.saturating_add(1),
        }
        if bench.receiver().is_none() {
            tally.quiet = tally.quiet.saturating_add(1);
        }
        tally.broken = tally.broken.or(look_at_answer(step, open, took));
    }

    // Takes so many steps, or fewer if a promise does not hold.
    pub fn run(&mut self, bench: &mut Bench<Selection, Selection>, seed: u64, steps: u32) -> Tally {
        let mut chance = Chance(seed);
        let mut tally = Tally {
            accepted: 0,
            refused: 0,
            quiet: 0,
            broken: self.look_back(bench),
        };
        for _ in 0..steps {
            if tally.broken.is_some() {
                break;
            }
            self.step(bench, &mut chance, &mut tally);
        }
        tally
    }
}

// Whether a seizure was accepted exactly if a circuit was open, and not refused by 12, and a message
// on a line was not refused.
pub fn look_at_answer(step: Step<'_>, open: bool, took: Result<usize, Fault>) -> Option<Broken> {
    match (step, took) {
        (_, Err(Fault::Memory)) => None,
        (Step::Order(Order::Seize(_)), Err(Fault::Refused(Refusal::Choice))) => {
            Some(Broken::Seizure)
        }
        (Step::Order(Order::Seize(_)), _) if took.is_ok() != open => Some(Broken::Seizure),
        (Step::Receive, Err(Fault::Refused(_))) => Some(Broken::Message),
        _ => None,
    }
}
