// What an exchange tells, and how its circuits stand, in words.
use circuit::Circuit;
use exchange::Event;
use explain::{Explanation, Hex};
use message::read;
use status::Cic;
use std::fmt;

/// Numbers as hexadecimal digits, or `-` for none.
#[derive(Clone, Copy)]
pub struct OrNone<'a, T, const DIGITS: usize>(pub Hex<'a, T, DIGITS>);

impl<T: fmt::Radix + Copy, const DIGITS: usize> fmt::Display for OrNone<'_, T, DIGITS> {
    fn fmt<W: fmt::Write>(&self, f: &mut fmt::Formatter<W>) -> fmt::Result {
        let numbers = self.0;
        if numbers.0.is_empty() {
            write!(f, "-")
        } else {
            write!(f, "{numbers}")
        }
    }
}

/// What a host is told.
#[derive(Clone, Copy)]
pub struct Told<'a>(pub Event<'a>);

impl fmt::Display for Told<'_> {
    fn fmt<W: fmt::Write>(&self, f: &mut fmt::Formatter<W>) -> fmt::Result {
        match self.0 {
            Event::Send(octets) => write!(f, "send {}", Explanation(read(octets))),
            Event::Begun(way, cic) => write!(f, "begun cic={cic} {way}"),
            Event::Ended(cause, cic) => write!(f, "ended cic={cic} by a {cause}"),
            Event::Alert(timer, cic) => write!(f, "alert cic={cic} {timer}"),
            Event::Unknown => write!(f, "no word"),
        }
    }
}

/// A circuit as it stands.
#[derive(Clone, Copy)]
pub struct Standing {
    pub cic: Cic,
    pub circuit: Circuit,
}

impl fmt::Display for Standing {
    fn fmt<W: fmt::Write>(&self, f: &mut fmt::Formatter<W>) -> fmt::Result {
        let cic = self.cic;
        let circuit = self.circuit;
        if !circuit.equipped {
            return write!(f, "circuit {cic}: not equipped");
        }
        let Circuit {
            call,
            local,
            far,
            reset,
            cause,
            ..
        } = circuit;
        write!(
            f,
            "circuit {cic}: {call}, maintenance {}, hardware {}, ",
            local.maintenance, local.hardware
        )?;
        write!(
            f,
            "far maintenance {}, far hardware {}, ",
            yes_no(far.maintenance),
            yes_no(far.hardware)
        )?;
        let octets = <[u8; 2]>::from(cause);
        let open = if circuit.is_open() { "open" } else { "closed" };
        write!(f, "reset {reset}, cause {}, {open}", Hex::<u8, 2>(&octets))
    }
}

fn yes_no(blocked: bool) -> &'static str {
    if blocked { "yes" } else { "no" }
}
