// A message or a refusal in words.
use message::{Message, MessageFault};
use status::{Cic, Group};
use std::fmt;

/// Numbers as upper-case hexadecimal digits, `DIGITS` of each or more, with a space between.
#[derive(Clone, Copy)]
pub struct Hex<'a, T, const DIGITS: usize>(pub &'a [T]);

impl<T: fmt::Radix + Copy, const DIGITS: usize> fmt::Display for Hex<'_, T, DIGITS> {
    fn fmt<W: fmt::Write>(&self, f: &mut fmt::Formatter<W>) -> fmt::Result {
        let mut gap = "";
        for number in self.0 {
            let number = *number;
            write!(f, "{gap}{number:0DIGITS$X}")?;
            gap = " ";
        }
        Ok(())
    }
}

/// What a reader said of octets, on one line without its end: `BLO cic=5`, or a fault's number, `refused 4`.
#[derive(Clone, Copy)]
pub struct Explanation<'a>(pub Result<Message<'a>, MessageFault>);

impl fmt::Display for Explanation<'_> {
    fn fmt<W: fmt::Write>(&self, f: &mut fmt::Formatter<W>) -> fmt::Result {
        let message = match self.0 {
            Ok(message) => message,
            Err(fault) => return write!(f, "{}", fault.brief()),
        };
        let first = message.cic();
        let kind = message.kind();
        write!(f, "{kind} cic={first}")?;
        match message {
            Message::Single(_, _) | Message::ReleaseComplete(_) => Ok(()),
            Message::GroupReset(_, range) => write!(f, " range={}", range.0),
            Message::GroupResetAck(_, group) => write!(f, " {}", Marked { first, group }),
            Message::Grouped(_, _, why, group) => write!(f, " {why} {}", Marked { first, group }),
            Message::Release(_, cause) => write!(f, " cause={}", Hex::<u8, 2>(cause.0)),
            Message::Call(_, _, body) => write!(f, " body={}", Hex::<u8, 2>(body)),
        }
    }
}

// The range of a group, and the circuits whose bits are set. It goes over circuits, where `Hex` goes over a slice of numbers.
#[derive(Clone, Copy)]
struct Marked<'a> {
    first: Cic,
    group: Group<'a>,
}

impl fmt::Display for Marked<'_> {
    fn fmt<W: fmt::Write>(&self, f: &mut fmt::Formatter<W>) -> fmt::Result {
        write!(f, "range={} set=", self.group.range.0)?;
        let mut gap = "";
        for circuit in self.group.named(self.first) {
            write!(f, "{gap}{circuit}")?;
            gap = ",";
        }
        if gap.is_empty() {
            write!(f, "-")?;
        }
        Ok(())
    }
}
