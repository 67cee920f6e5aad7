// The reader for callers of C. Its interface has plain numbers only: 0 for what a message does not have.
#![tactic(auto)]

ghost use Rattle.std.specs.Prelude.{◌≡◌, ◌-◌, length, slice_index};
ghost use Rattle.message.specs.Decode.{decode};
ghost use Rattle.message.specs.Meaning.{meaning};
ghost use Rattle.reader_abi.specs.Report.{accepted, answer, indicator_in, part_in, range_in, refused, reported, type_refused};

use message::{Message, MessageFault, read};

// How many words a report has. C lends them, so that a report is an array and no struct.
const WORDS: usize = 8;

// The indicator, the range and the octets that a message does not take apart.
#[inline(always)]
fn fields(message: Message<'_>) -> (u8, u8, &[u8])
    ensures why { result.0 ≡ indicator_in (meaning message.entry) }
    ensures span { result.1 ≡ range_in (meaning message.entry) }
    ensures octets { result.2.now ≡ part_in (meaning message.entry) }
{
    match message {
        Message::Single(_, _) => (0, 0, &[]),
        Message::ReleaseComplete(_) => (0, 0, &[]),
        Message::GroupReset(_, range) => (0, range.0, &[]),
        Message::GroupResetAck(_, group) => (0, group.range.0, group.status),
        Message::Grouped(_, _, why, group) => (u8::from(why), group.range.0, group.status),
        Message::Release(_, cause) => (0, 0, cause.0),
        Message::Call(_, _, body) => (0, 0, body),
    }
}

// The type octet of a refusal, 0 where it has none.
#[inline(always)]
fn type_refused(fault: MessageFault) -> u8
    ensures { result ≡ type_refused fault }
{
    fault.type_octet().unwrap_or(0)
}

// The first octet and the last, 0 where there is none.
#[inline(always)]
fn ends(part: &[u8]) -> (u8, u8)
    ensures first { result.0 ≡ slice_index part.now 0 }
    ensures last { result.1 ≡ slice_index part.now (length part.now - 1) }
{
    let first = part.first().copied().unwrap_or(0);
    let last = part.last().copied().unwrap_or(0);
    (first, last)
}

// The words of an accepted message.
#[inline(always)]
fn accepted_row(message: Message<'_>) -> [u64; WORDS]
    ensures { result ≡ accepted (meaning message.entry) }
{
    let octet = message.type_octet();
    let cic = message.cic();
    let (why, range, part) = fields(message);
    let (first, last) = ends(part);
    [
        0,
        octet as u64,
        cic.0 as u64,
        why as u64,
        range as u64,
        part.len() as u64,
        first as u64,
        last as u64,
    ]
}

// The words of a refusal.
#[inline(always)]
fn refused_row(fault: MessageFault) -> [u64; WORDS]
    ensures { result ≡ refused fault }
{
    [
        fault.number() as u64,
        type_refused(fault) as u64,
        0,
        0,
        0,
        0,
        0,
        0,
    ]
}

/// Reads the octets, and writes what they say to the front of `out`, eight words: the number of the refusal or 0, the
/// type octet, the CIC, the indicator, the range, and of status, cause or body the length, the first octet and the last.
/// Answers the number of the refusal, 0 where there is none, or 3 with `out` untouched where it is shorter than eight
/// words.
#[unsafe(no_mangle)]
pub extern "C" fn setsvoku_read(octets: &[u8], out: &mut [u64]) -> u32
    ensures value { result ≡ answer (decode octets.now) (length out.old) }
    ensures after { out.new ≡ reported (decode octets.now) out.old }
{
    let Some(front) = out.first_chunk_mut::<WORDS>() else {
        return MessageFault::NoRoom.number() as u32;
    };
    match read(octets) {
        Ok(message) => {
            *front = accepted_row(message);
            0
        }
        Err(fault) => {
            *front = refused_row(fault);
            fault.number() as u32
        }
    }
}
