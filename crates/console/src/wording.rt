// What an order is answered, in words.
ghost use Rattle.std.specs.Prelude.{◌≡◌, take};

use circuit::Circuit;
use exchange::Events;
use explain::Hex;
use refusal::Refusal;
use status::Cic;
use std::fmt;
use terminal::{OrNone, Standing, Told};

// What an order is answered. It has more cases than a Result.
#[derive(Clone, Copy)]
pub enum Answer {
    // how many words and octets the outputs then have, which stay in the console and are lent to
    // each operation
    Done(usize, usize),
    Shown(Cic, Circuit),
    Refused(Refusal),
    NotUnderstood,
}

// An answer, with the outputs that it counts in.
#[derive(Clone, Copy)]
pub struct Report<'a> {
    pub answer: Answer,
    pub words: &'a [u32],
    pub octets: &'a [u8],
}

impl fmt::Display for Report<'_> {
    fn fmt<W: fmt::Write>(&self, f: &mut fmt::Formatter<W>) -> fmt::Result {
        match self.answer {
            Answer::Done(words, octets) => {
                let words = front(self.words, words);
                let octets = front(self.octets, octets);
                write!(f, "{}", Outputs { words, octets })
            }
            Answer::Shown(cic, circuit) => writeln!(f, "{}", Standing { cic, circuit }),
            Answer::Refused(refusal) => writeln!(f, "{}", refusal.brief()),
            Answer::NotUnderstood => writeln!(f, "not understood"),
        }
    }
}

// The first of a list, or all if it has fewer.
fn front<T>(all: &[T], count: usize) -> &[T]
    ensures { result.now ≡ take count all.now }
{
    all.get(..count).unwrap_or(all)
}

// What an operation wrote.
#[derive(Clone, Copy)]
struct Outputs<'a> {
    words: &'a [u32],
    octets: &'a [u8],
}

impl fmt::Display for Outputs<'_> {
    fn fmt<W: fmt::Write>(&self, f: &mut fmt::Formatter<W>) -> fmt::Result {
        let octets = self.octets;
        writeln!(f, "ok")?;
        writeln!(f, "words {}", OrNone(Hex::<u32, 8>(self.words)))?;
        writeln!(f, "octets {}", OrNone(Hex::<u8, 2>(octets)))?;
        for event in Events::new(self.words, octets) {
            writeln!(f, "  {}", Told(event))?;
        }
        Ok(())
    }
}
