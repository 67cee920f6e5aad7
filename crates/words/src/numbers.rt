// The numbers of what a host is told, and the 32 bits that say it.
ghost use Rattle.std.specs.Prelude.{◌≡◌, ◌+◌, ◌*◌, ◌/◌, ◌%◌, ◌<◌, Some};
ghost use Rattle.std.specs.Result.{result_ok};
ghost use Rattle.words.specs.Words.{cause_number, cause_of, timer_number, timer_of, direction_of, number_of, word_of, Fits};

use crate::kinds::{Direction, EndCause, Timer, Word};
use status::Cic;
use std::error::Error;
use std::fmt;

/// A number that stands for no cause of a call's end, no timer, no direction or no word, whichever was asked for.
#[derive(Clone, Copy, PartialEq, Eq, Debug)]
pub struct UnknownNumber;

impl fmt::Display for UnknownNumber {
    fn fmt<W: fmt::Write>(&self, f: &mut fmt::Formatter<W>) -> fmt::Result {
        f.write_str(
            "the number is none of those listed for a word told, the cause of a call's end, \
             a timer or a direction",
        )
    }
}

impl Error for UnknownNumber {}

impl From<EndCause> for u8 {
    ghost from_gives = { λ cause number. number ≡ cause_number cause };

    fn from(cause: EndCause) -> u8 {
        cause as u8
    }
}

// Here and for timers a row for each variant: a cast gives a variant's number, and not the variant of a number.
impl TryFrom<u32> for EndCause {
    type Error = UnknownNumber;

    ghost try_from_gives = { λ number read. result_ok read ≡ cause_of number };

    fn try_from(number: u32) -> Result<EndCause, UnknownNumber> {
        match number {
            1 => Ok(EndCause::ReleaseReceived),
            2 => Ok(EndCause::ReleaseComplete),
            3 => Ok(EndCause::Reset),
            4 => Ok(EndCause::HardwareBlock),
            5 => Ok(EndCause::DualSeizure),
            _ => Err(UnknownNumber),
        }
    }
}

impl From<Timer> for u8 {
    ghost from_gives = { λ timer number. number ≡ timer_number timer };

    fn from(timer: Timer) -> u8 {
        timer as u8
    }
}

impl TryFrom<u32> for Timer {
    type Error = UnknownNumber;

    ghost try_from_gives = { λ number read. result_ok read ≡ timer_of number };

    fn try_from(number: u32) -> Result<Timer, UnknownNumber> {
        match number {
            1 => Ok(Timer::T1),
            5 => Ok(Timer::T5),
            12 => Ok(Timer::T12),
            13 => Ok(Timer::T13),
            14 => Ok(Timer::T14),
            15 => Ok(Timer::T15),
            16 => Ok(Timer::T16),
            17 => Ok(Timer::T17),
            18 => Ok(Timer::T18),
            19 => Ok(Timer::T19),
            20 => Ok(Timer::T20),
            21 => Ok(Timer::T21),
            22 => Ok(Timer::T22),
            23 => Ok(Timer::T23),
            _ => Err(UnknownNumber),
        }
    }
}

impl TryFrom<u32> for Direction {
    type Error = UnknownNumber;

    ghost try_from_gives = { λ number read. result_ok read ≡ direction_of number };

    fn try_from(number: u32) -> Result<Direction, UnknownNumber> {
        match number {
            0 => Ok(Direction::Outgoing),
            1 => Ok(Direction::Incoming),
            _ => Err(UnknownNumber),
        }
    }
}

// A word about a circuit: the number of its kind, which stands only in the 32 bits, a field, and the low twelve bits of the CIC.
#[inline(always)]
fn circuit_word(kind: u32, field: u32, cic: Cic) -> u32
    requires kind { kind < 16 }
    requires field { field < 65536 }
    ensures value { result ≡ kind * 0x1000_0000 + field * 4096 + cic.0 % 4096 }
    ensures kind { result / 0x1000_0000 ≡ kind }
    ensures field { result / 4096 % 65536 ≡ field }
    ensures cic { result % 4096 ≡ cic.0 % 4096 }
{
    kind * 0x1000_0000 + field * 4096 + u32::from(cic.0 % 4096)
}

impl From<Word> for u32 {
    ghost from_gives = { λ word number.
        (number ≡ number_of word) × (Fits word → word_of number ≡ Some word) };

    // Of a place and a CIC the low twelve bits are told.
    #[inline(always)]
    fn from(word: Word) -> u32 {
        match word {
            Word::Send(place, length) => {
                0x1000_0000 + u32::from(place % 4096) * 65536 + u32::from(length)
            }
            Word::Begun(direction, cic) => circuit_word(2, direction as u32, cic),
            Word::Ended(cause, cic) => circuit_word(3, cause as u32, cic),
            Word::Alert(timer, cic) => circuit_word(4, timer as u32, cic),
        }
    }
}

impl TryFrom<u32> for Word {
    type Error = UnknownNumber;

    ghost try_from_gives = { λ number read. result_ok read ≡ word_of number };

    fn try_from(number: u32) -> Result<Word, UnknownNumber> {
        let cic = Cic((number % 4096) as u16);
        let field = number / 4096 % 65536;
        match (number / 0x1000_0000, field) {
            (1, _) => {
                let place = (number / 65536 % 4096) as u16;
                Ok(Word::Send(place, (number % 65536) as u16))
            }
            (2, way) => Ok(Word::Begun(Direction::try_from(way)?, cic)),
            (3, cause) => Ok(Word::Ended(EndCause::try_from(cause)?, cic)),
            (4, timer) => Ok(Word::Alert(Timer::try_from(timer)?, cic)),
            _ => Err(UnknownNumber),
        }
    }
}
