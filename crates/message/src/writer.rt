// The octets of a message.
ghost use Rattle.std.specs.Prelude.{◌≡◌, ◌+◌, ◌≤◌, ◌&&◌, ◌++◌, length, IfOk, ◌==◌};
ghost use Rattle.std.specs.Result.{result_err};
ghost use Rattle.status.specs.Bits.{octets_for, cleared};
ghost use Rattle.status.specs.Parameter.{within as is_group_within};
ghost use Rattle.message.specs.Decode.{within};
ghost use Rattle.message.specs.Encode.{encode, sized, refusal_of, written, leaves};
ghost use Rattle.message.specs.Laws.{Writes};
ghost use Rattle.message.specs.Meaning.{meaning};

use crate::content::Message;
use crate::fault::MessageFault;
use status::{Cic, Group, MAX_BLOCKING_RANGE, MAX_RESET_RANGE, MAX_SET_BITS};

// Writes `head` and then `tail` to the front of `out`, where there is room and the check passed.
#[inline(always)]
fn put(
    out: &mut [u8],
    checked: Result<(), MessageFault>,
    head: &[u8],
    tail: &[u8],
) -> Result<usize, MessageFault>
    ensures value { result ≡ written (head.now ++ tail.now) (result_err checked) (length out.old) }
    ensures after { out.new ≡ leaves (head.now ++ tail.now) out.old result }
    ensures end { IfOk result
        (λ n. (n ≡ length head.now + length tail.now) × (n ≤ length out.old)) }
{
    let end = head.len() + tail.len();
    if out.len() < end {
        return Err(MessageFault::NoRoom);
    }
    checked?;
    out[..head.len()].copy_from_slice(head);
    out[head.len()..end].copy_from_slice(tail);
    Ok(end)
}

// The same with a status as the tail, its spare bits cleared.
#[inline(always)]
fn put_group(
    out: &mut [u8],
    checked: Result<(), MessageFault>,
    head: &[u8],
    group: Group<'_>,
) -> Result<usize, MessageFault>
    ensures value { result
        ≡ written (head.now ++ cleared group.entry.range.0 group.entry.status.now)
        (result_err checked) (length out.old) }
    ensures after { out.new
        ≡ leaves (head.now ++ cleared group.entry.range.0 group.entry.status.now) out.old result }
{
    let end = put(out, checked, head, group.status)?;
    group.range.clear_spare(&mut out[head.len()..end]);
    Ok(end)
}

// Whether a range has the status that it asks for.
#[inline(always)]
fn is_sized(group: Group<'_>) -> bool
    ensures { result ≡ (length group.entry.status.now == octets_for group.entry.range.0) }
{
    group.status.len() == group.range.status_octets()
}

// Whether a range is from 1 to `most`, and no more of its bits are set than may be.
#[inline(always)]
fn is_within(most: u8, group: Group<'_>) -> bool
    ensures { result ≡ is_group_within most group.entry.range.0 group.entry.status.now }
{
    (1..=most).contains(&group.range.0) && group.count_set() <= MAX_SET_BITS
}

// Whether body, cause and status have the sizes of the layout.
#[inline(always)]
fn sizes_hold(message: Message<'_>) -> bool
    ensures { result ≡ sized (meaning message.entry) }
{
    match message {
        Message::Single(_, _) | Message::ReleaseComplete(_) | Message::GroupReset(_, _) => true,
        Message::GroupResetAck(_, group) => is_sized(group),
        Message::Grouped(_, _, _, group) => is_sized(group),
        Message::Release(_, cause) => cause.0.len() == 2,
        Message::Call(_, _, body) => !body.is_empty(),
    }
}

// Whether range and number of set bits keep the limits.
#[inline(always)]
fn limits_hold(message: Message<'_>) -> bool
    ensures { result ≡ within (meaning message.entry) }
{
    match message {
        Message::Single(_, _) | Message::ReleaseComplete(_) => true,
        Message::GroupReset(_, range) => (1..=MAX_RESET_RANGE).contains(&range.0),
        Message::GroupResetAck(_, group) => is_within(MAX_RESET_RANGE, group),
        Message::Grouped(_, _, _, group) => is_within(MAX_BLOCKING_RANGE, group),
        Message::Release(_, _) | Message::Call(_, _, _) => true,
    }
}

// Whether the message may be written, or why not.
#[inline(always)]
fn check(message: Message<'_>) -> Result<(), MessageFault>
    ensures { result_err result ≡ refusal_of (meaning message.entry) }
{
    let octet = message.type_octet();
    if !sizes_hold(message) {
        return Err(MessageFault::Layout(octet));
    }
    if message.cic() > Cic::LAST || !limits_hold(message) {
        return Err(MessageFault::Limit(octet));
    }
    Ok(())
}

// Lays the octets of the message out at the front of `out`.
#[inline(always)]
fn lay_out(message: Message<'_>, out: &mut [u8]) -> Result<usize, MessageFault>
    ensures value { result
        ≡ written (encode (meaning message.entry)) (refusal_of (meaning message.entry))
        (length out.old) }
    ensures after { out.new ≡ leaves (encode (meaning message.entry)) out.old result }
{
    let [low, high] = message.cic().octets();
    let octet = message.type_octet();
    let checked = check(message);
    match message {
        Message::Single(_, _) => put(out, checked, &[low, high, octet], &[]),
        Message::ReleaseComplete(_) => put(out, checked, &[low, high, octet, 0], &[]),
        Message::GroupReset(_, range) => {
            put(out, checked, &[low, high, octet, 1, 1, range.0], &[])
        }
        Message::GroupResetAck(_, group) => {
            let length = group.range.status_octets() as u8 + 1;
            let head = [low, high, octet, 1, length, group.range.0];
            put_group(out, checked, &head, group)
        }
        Message::Grouped(_, _, why, group) => {
            let length = group.range.status_octets() as u8 + 1;
            let head = [low, high, octet, u8::from(why), 1, length, group.range.0];
            put_group(out, checked, &head, group)
        }
        Message::Release(_, cause) => put(out, checked, &[low, high, octet, 2, 0, 2], cause.0),
        Message::Call(_, _, body) => put(out, checked, &[low, high, octet], body),
    }
}

/// Writes the message to the front of `out`, its spare bits 0, and returns how many octets it has; the rest of `out`
/// stays as it was. Refused, with `out` untouched, with `NoRoom` where `out` is shorter than the message, with
/// `Layout` where the body is empty, the cause has not two octets or the status not the size that its range asks for,
/// and with `Limit` where range or number of set bits is outside its limits or the CIC is past `Cic::LAST`: the first
/// of these that holds.
#[inline(always)]
pub fn write(message: Message<'_>, out: &mut [u8]) -> Result<usize, MessageFault>
    ensures value { result
        ≡ written (encode (meaning message.entry)) (refusal_of (meaning message.entry))
        (length out.old) }
    ensures after { out.new ≡ leaves (encode (meaning message.entry)) out.old result }
    ensures format { Writes (meaning message.entry) out.old result out.new }
{
    lay_out(message, out)
}
