// What a host is told, each message with its octets.
ghost use Rattle.std.specs.Iterator.{YieldsFirstBy, item_count};
ghost use Rattle.std.specs.Prelude.{◌≡◌, map};
ghost use Rattle.exchange.specs.Events.{meant_by, says, left};

use status::Cic;
use words::{Direction, EndCause, Timer, Word};

/// What a word tells.
#[derive(Clone, Copy)]
pub enum Event<'a> {
    /// a message to send, as its octets; the host starts a timer where it waits for an answer
    Send(&'a [u8]),
    /// a call began at a circuit
    Begun(Direction, Cic),
    /// a call ended
    Ended(EndCause, Cic),
    /// the second timer of a pair expired, or T5: maintenance is to be told
    Alert(Timer, Cic),
    /// a word that tells nothing, or names octets that are not there: an operation writes none
    Unknown,
}

/// The events of the operation that was accepted last, in the order in which they happened.
#[derive(Clone, Copy)]
pub struct Events<'a> {
    words: &'a [u32],
    octets: &'a [u8],
}

impl<'a> Events<'a> {
    /// What words tell that an operation wrote, with the octets that it wrote beside them.
    pub fn new(words: &'a [u32], octets: &'a [u8]) -> Events<'a>
        ensures { left result ≡ map (says octets.now) words.now }
    {
        Events { words, octets }
    }
}

fn event_of<'a>(word: u32, octets: &'a [u8]) -> Event<'a>
    ensures { meant_by result ≡ says octets.now word }
{
    match Word::try_from(word) {
        Ok(Word::Send(place, length)) => {
            let start = place as usize;
            match octets.get(start..start + length as usize) {
                Some(message) => Event::Send(message),
                None => Event::Unknown,
            }
        }
        Ok(Word::Begun(direction, cic)) => Event::Begun(direction, cic),
        Ok(Word::Ended(cause, cic)) => Event::Ended(cause, cic),
        Ok(Word::Alert(timer, cic)) => Event::Alert(timer, cic),
        Err(_) => Event::Unknown,
    }
}

impl<'a> Iterator for Events<'a> {
    type Item = Event<'a>;

    ghost next_gives = { YieldsFirstBy meant_by left };

    ghost remaining = { item_count left };

    fn next(&mut self) -> Option<Event<'a>> {
        let (first, others) = self.words.split_first()?;
        self.words = others;
        Some(event_of(*first, self.octets))
    }
}
