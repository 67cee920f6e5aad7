// A line: an opening, what is lent from then on, a record to put, or an event.
use crate::host::{Lent, Opening};
use circuit::{Blocks, Call, Circuit, LocalBlock, Reset};
use std::alloc::{AllocError, Global};
use terminal::{Input, decimal, decimal_cic, read_equipment, read_input, words_of};

#[derive(Drop)]
pub enum Line {
    Open(Opening),
    Lend(Lent),
    // at a place of the table; its cause octets stay
    Put(usize, Circuit),
    Play(Input),
}

// The line that a text says, or `None` where it says none.
pub fn read_line(heap: Global, text: &str) -> Result<Option<Line>, AllocError> {
    let words = words_of(heap, text.as_bytes())?;
    match words.as_slice() {
        [b"open", first, higher, equipment @ ..] => {
            let Some(first) = decimal_cic(first) else {
                return Ok(None);
            };
            let higher = *higher == b"1".as_slice();
            Ok(read_equipment(heap, equipment)?.map(|equipment| {
                Line::Open(Opening {
                    first,
                    higher,
                    equipment,
                })
            }))
        }
        [b"lend", places, words, octets] => Ok(read_lent(places, words, octets)),
        [b"put", place, record] => Ok(read_put(place, record)),
        words => Ok(read_input(heap, words)?.map(Line::Play)),
    }
}

fn read_lent(places: &[u8], words: &[u8], octets: &[u8]) -> Option<Line> {
    Some(Line::Lend(Lent {
        places: decimal(places)? as usize,
        words: decimal(words)? as usize,
        octets: decimal(octets)? as usize,
    }))
}

fn read_put(place: &[u8], record: &[u8]) -> Option<Line> {
    Some(Line::Put(decimal(place)? as usize, read_record(record)?))
}

// A record as it is shown, without its cause octets.
fn read_record(digits: &[u8]) -> Option<Circuit> {
    let [
        equipped,
        call,
        local,
        local_hardware,
        far,
        far_hardware,
        reset,
    ] = digits
    else {
        return None;
    };
    Some(Circuit {
        equipped: is_one(*equipped),
        call: read_call(*call)?,
        local: Blocks {
            maintenance: read_block(*local)?,
            hardware: read_block(*local_hardware)?,
        },
        far: Blocks {
            maintenance: is_one(*far),
            hardware: is_one(*far_hardware),
        },
        reset: read_reset(*reset)?,
        ..Circuit::default()
    })
}

fn is_one(digit: u8) -> bool {
    digit == b'1'
}

fn read_call(digit: u8) -> Option<Call> {
    match digit {
        b'0' => Some(Call::Idle),
        b'1' => Some(Call::Calling),
        b'2' => Some(Call::Talking),
        b'3' => Some(Call::Releasing),
        _ => None,
    }
}

fn read_block(digit: u8) -> Option<LocalBlock> {
    match digit {
        b'0' => Some(LocalBlock::None),
        b'1' => Some(LocalBlock::Asked),
        b'2' => Some(LocalBlock::Set),
        b'3' => Some(LocalBlock::Lifting),
        _ => None,
    }
}

fn read_reset(digit: u8) -> Option<Reset> {
    match digit {
        b'0' => Some(Reset::None),
        b'1' => Some(Reset::Single),
        b'2' => Some(Reset::Group),
        _ => None,
    }
}
