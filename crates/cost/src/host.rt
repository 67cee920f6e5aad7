// A trunk with what is lent to its operations.
use circuit::Circuit;
use exchange::Exchange;
use refusal::Refusal;
use status::Cic;
use std::alloc::{AllocError, Global};
use supervision::{MOST_SYSTEMS, OCTETS, SLOTS, Trunk, WORDS};
use terminal::{Input, Method, Selection};

// Records for one PCM system more than a trunk has, to lend too many.
const ROOM: usize = (MOST_SYSTEMS + 1) * SLOTS;

// How a trunk is opened.
#[derive(Drop)]
pub struct Opening {
    pub first: Cic,
    pub higher: bool,
    pub equipment: Vec<u32>,
}

// How many records, words and octets are lent.
#[derive(Clone, Copy)]
pub struct Lent {
    pub places: usize,
    pub words: usize,
    pub octets: usize,
}

#[derive(Drop)]
pub struct Host {
    trunk: Trunk,
    selection: Selection,
    // the circuits of the trunk, and more
    pub table: Vec<Circuit>,
    // as the last operation left them
    pub words: [u32; WORDS],
    pub octets: [u8; OCTETS],
    pub lent: Lent,
}

// Plays an event. It is what is counted, so it is kept a function of its own.
#[inline(never)]
fn play_event(event: &Input, exchange: &mut Exchange<'_, Selection>) -> Result<(), Refusal> {
    event.give(exchange)
}

impl Host {
    // Opens a trunk over a new policy.
    pub(crate) fn open(
        heap: Global,
        method: Method,
        opening: &Opening,
    ) -> Result<Result<Host, Refusal>, AllocError> {
        let equipment = opening.equipment.as_slice();
        let places = equipment.len().min(MOST_SYSTEMS + 1) * SLOTS;
        let mut table = vec![in heap; Circuit::fresh(false); ROOM]?;
        let mut selection = Selection::new(method, opening.higher);
        let circuits = &mut table.as_mut_slice()[..places];
        let opened = Trunk::open(
            opening.first,
            equipment,
            opening.higher,
            circuits,
            &mut selection,
        );
        Ok(opened.map(|trunk| Host {
            trunk,
            selection,
            table,
            words: [0; WORDS],
            octets: [0; OCTETS],
            lent: Lent {
                places,
                words: WORDS,
                octets: OCTETS,
            },
        }))
    }

    // Plays an event over what is lent; how many words and octets that wrote.
    pub(crate) fn play(&mut self, event: &Input) -> Result<(usize, usize), Refusal> {
        let Lent {
            places,
            words,
            octets,
        } = self.lent;
        let all = self.table.as_mut_slice();
        let places = places.min(all.len());
        let table = &mut all[..places];
        let all_words = &mut self.words[..];
        let all_octets = &mut self.octets[..];
        let words = &mut all_words[..words.min(WORDS)];
        let octets = &mut all_octets[..octets.min(OCTETS)];
        let mut exchange = Exchange::new(self.trunk, table, &mut self.selection, words, octets);
        play_event(event, &mut exchange)?;
        Ok(exchange.counts())
    }

    // Puts a record at a place, and tells the policy nothing.
    pub(crate) fn put(&mut self, place: usize, record: Circuit) {
        if let Some(circuit) = self.table.as_mut_slice().get_mut(place) {
            *circuit = Circuit {
                cause: circuit.cause,
                ..record
            };
        }
    }

    // The circuits, to go back to.
    pub(crate) fn saved(&self, heap: Global) -> Result<Vec<Circuit>, AllocError> {
        let mut saved = Vec::new(heap);
        for circuit in self.table.as_slice() {
            saved.push(*circuit)?;
        }
        Ok(saved)
    }

    // Plays events so many times, each time on circuits as they were saved, with the policy as it
    // stands; what the last of them gave. Counting begins here.
    #[inline(never)]
    pub(crate) fn play_again(
        &mut self,
        events: &[Input],
        saved: &[Circuit],
        count: u64,
    ) -> Result<(usize, usize), Refusal> {
        let selection = self.selection;
        let mut last = Ok((0, 0));
        for _ in 0..count {
            self.selection = selection;
            for (circuit, before) in self.table.as_mut_slice().iter_mut().zip(saved) {
                *circuit = *before;
            }
            for event in events {
                last = self.play(event);
            }
        }
        last
    }
}
