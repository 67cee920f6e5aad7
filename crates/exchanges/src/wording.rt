// What a command is answered, in words.
use crate::playing::{Answer, Exchanges};
use crate::watching::Tally;
use exchange::{Event, Events};
use explain::Explanation;
use interworking::{Bench, End, Fault, Line, Side};
use policy::Policy;
use status::Cic;
use std::fmt;
use supervision::Config;
use terminal::{Selection, Standing, Told};

// An answer, with the exchanges after it.
#[derive(Clone, Copy)]
pub struct Report<'a> {
    pub answer: Answer,
    pub exchanges: &'a Exchanges,
}

impl fmt::Display for Report<'_> {
    fn fmt<W: fmt::Write>(&self, f: &mut fmt::Formatter<W>) -> fmt::Result {
        let Some(bench) = &self.exchanges.bench else {
            return match self.answer {
                Answer::Failed(fault) => writeln!(f, "{}", Failed(fault)),
                _ => writeln!(f, "not understood"),
            };
        };
        match self.answer {
            Answer::Opened => writeln!(f, "ok"),
            Answer::Told(Side::Near, count) => {
                write!(f, "{}{}", Words(bench.near().told(), count), Lines(bench))
            }
            Answer::Told(Side::Far, count) => {
                write!(f, "{}{}", Words(bench.far().told(), count), Lines(bench))
            }
            Answer::Settled(count) => writeln!(f, "both lines are empty after {count} messages"),
            Answer::Shown(cic) => {
                write!(
                    f,
                    "near {}far {}",
                    Shown(bench.near(), cic),
                    Shown(bench.far(), cic)
                )
            }
            Answer::Ran(tally) => write!(f, "{}", Stretch(tally)),
            Answer::Failed(fault) => writeln!(f, "{}", Failed(fault)),
            Answer::NotUnderstood => writeln!(f, "not understood"),
        }
    }
}

// Why a step was not taken: a refusal by its number.
#[derive(Clone, Copy)]
struct Failed(Fault);

impl fmt::Display for Failed {
    fn fmt<W: fmt::Write>(&self, f: &mut fmt::Formatter<W>) -> fmt::Result {
        match self.0 {
            Fault::Refused(refusal) => write!(f, "{}", refusal.brief()),
            fault => write!(f, "{fault}"),
        }
    }
}

// The last of the words told, but for sends, whose messages stand on the line.
#[derive(Clone, Copy)]
struct Words<'a>(&'a [u32], usize);

impl fmt::Display for Words<'_> {
    fn fmt<W: fmt::Write>(&self, f: &mut fmt::Formatter<W>) -> fmt::Result {
        writeln!(f, "ok")?;
        let earlier = self.0.len().saturating_sub(self.1);
        for event in Events::new(&self.0[earlier..], &[]) {
            match event {
                Event::Send(_) | Event::Unknown => {}
                other => writeln!(f, "  {}", Told(other))?,
            }
        }
        Ok(())
    }
}

// What a stretch of steps came to.
#[derive(Clone, Copy)]
struct Stretch(Tally);

impl fmt::Display for Stretch {
    fn fmt<W: fmt::Write>(&self, f: &mut fmt::Formatter<W>) -> fmt::Result {
        let Tally {
            accepted,
            refused,
            quiet,
            broken,
        } = self.0;
        writeln!(
            f,
            "accepted {accepted}, refused {refused}, both lines empty {quiet} times"
        )?;
        match broken {
            Some(broken) => writeln!(f, "not kept: {broken}"),
            None => writeln!(f, "all that is promised was kept"),
        }
    }
}

// What is on each line.
#[derive(Clone, Copy)]
struct Lines<'a>(&'a Bench<Selection, Selection>);

impl fmt::Display for Lines<'_> {
    fn fmt<W: fmt::Write>(&self, f: &mut fmt::Formatter<W>) -> fmt::Result {
        write!(f, "to far:{}", Carried(self.0.near().line()))?;
        write!(f, "to near:{}", Carried(self.0.far().line()))
    }
}

// The messages on a line, the front one first.
#[derive(Clone, Copy)]
struct Carried<'a>(&'a Line);

impl fmt::Display for Carried<'_> {
    fn fmt<W: fmt::Write>(&self, f: &mut fmt::Formatter<W>) -> fmt::Result {
        if self.0.is_empty() {
            return writeln!(f, " -");
        }
        writeln!(f)?;
        for n in 0..self.0.len() {
            if let Some(octets) = self.0.get(n) {
                writeln!(f, "  {}", Explanation(message::read(octets)))?;
            }
        }
        Ok(())
    }
}

// A circuit at one end.
#[derive(Clone, Copy)]
struct Shown<'a>(&'a End<Selection>, Cic);

impl fmt::Display for Shown<'_> {
    fn fmt<W: fmt::Write>(&self, f: &mut fmt::Formatter<W>) -> fmt::Result {
        let cic = self.1;
        let place = cic.0.checked_sub(self.0.config().first.0);
        match place.and_then(|place| self.0.table().get(place as usize)) {
            Some(circuit) => writeln!(
                f,
                "{}",
                Standing {
                    cic,
                    circuit: *circuit
                }
            ),
            None => writeln!(f, "circuit {cic}: none"),
        }
    }
}
