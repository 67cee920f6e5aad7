// What a line gave, in numbers: a refusal, or the words and octets written; then each record that
// changed.
use circuit::{Call, Circuit, LocalBlock, Reset};
use refusal::Refusal;
use std::fmt;

// What a line gave.
#[derive(Clone, Copy)]
pub enum Given {
    Opened,
    Lent,
    Put,
    // so many words and octets
    Wrote(usize, usize),
    Refused(Refusal),
}

// That, with the outputs and the records.
#[derive(Clone, Copy)]
pub struct Played<'a> {
    pub given: Given,
    pub words: &'a [u32],
    pub octets: &'a [u8],
    pub before: &'a [Circuit],
    pub after: &'a [Circuit],
}

impl fmt::Display for Played<'_> {
    fn fmt<W: fmt::Write>(&self, f: &mut fmt::Formatter<W>) -> fmt::Result {
        match self.given {
            Given::Opened => write!(f, "opened")?,
            Given::Lent => write!(f, "lent")?,
            Given::Put => write!(f, "put")?,
            Given::Wrote(words, octets) => {
                write!(f, "words")?;
                for word in self.words.iter().take(words) {
                    write!(f, " {word:08X}")?;
                }
                write!(f, " octets")?;
                for octet in self.octets.iter().take(octets) {
                    write!(f, " {octet:02X}")?;
                }
            }
            Given::Refused(refusal) => write!(f, "{}", refusal.brief())?,
        }
        for (place, (before, after)) in self.before.iter().zip(self.after).enumerate() {
            if before != after {
                write!(f, " {place}={}", Record(*after))?;
            }
        }
        Ok(())
    }
}

// A record: a digit for each of its fields, and the two cause octets.
#[derive(Clone, Copy)]
struct Record(Circuit);

impl fmt::Display for Record {
    fn fmt<W: fmt::Write>(&self, f: &mut fmt::Formatter<W>) -> fmt::Result {
        let Circuit {
            equipped,
            call,
            local,
            far,
            reset,
            cause,
        } = self.0;
        let digits = [
            u8::from(equipped),
            call_digit(call),
            block_digit(local.maintenance),
            block_digit(local.hardware),
            u8::from(far.maintenance),
            u8::from(far.hardware),
            reset_digit(reset),
        ];
        for digit in digits {
            write!(f, "{digit}")?;
        }
        for octet in <[u8; 2]>::from(cause) {
            write!(f, "{octet:02X}")?;
        }
        Ok(())
    }
}

fn call_digit(call: Call) -> u8 {
    match call {
        Call::Idle => 0,
        Call::Calling => 1,
        Call::Talking => 2,
        Call::Releasing => 3,
    }
}

fn block_digit(block: LocalBlock) -> u8 {
    match block {
        LocalBlock::None => 0,
        LocalBlock::Asked => 1,
        LocalBlock::Set => 2,
        LocalBlock::Lifting => 3,
    }
}

fn reset_digit(reset: Reset) -> u8 {
    match reset {
        Reset::None => 0,
        Reset::Single => 1,
        Reset::Group => 2,
    }
}
