// What the octets of a message say.
ghost use Rattle.std.specs.Prelude.{◌≡◌, ◌≤◌, length, slice_index};
ghost use Rattle.message.specs.Decode.{decode, decode_rest, limited, as_grouped, release_laid_out};
ghost use Rattle.message.specs.Laws.{Reads};
ghost use Rattle.message.specs.Meaning.{seen};

use crate::cause::Cause;
use crate::content::Message;
use crate::fault::MessageFault;
use crate::kinds::{BlockType, CallKind, Grouped, Single};
use crate::types::*;
use status::{Cic, MAX_BLOCKING_RANGE, MAX_RESET_RANGE, Range, read_group};

// Whether a release has its cause: 02, a pointer, 02 and two cause octets.
#[inline(always)]
fn has_cause(rest: &[u8]) -> bool
    ensures { result ≡ release_laid_out rest.now }
{
    matches!(rest, [2, 0, 2, _, _] | [2, 4, 2, _, _, _, ..])
}

// A blocking message of a group: an indicator, 01, which was seen, and a range with its status.
#[inline(always)]
fn read_grouped(
    octet: u8,
    what: Grouped,
    cic: Cic,
    rest: &[u8],
) -> Result<Message<'_>, MessageFault>
    requires long { 2 ≤ length rest.now }
    requires pointer { slice_index rest.now 1 ≡ 1 }
    ensures { seen result ≡ limited octet (as_grouped cic.0 what rest.now) }
{
    let group = read_group(octet, MAX_BLOCKING_RANGE, &rest[2..])?;
    // tests and no `try_from`: a branch on the indicator costs more than all the rest
    if rest[0] % 4 > 1 {
        return Err(MessageFault::Limit(octet));
    }
    let why = if rest[0] % 2 == 0 {
        BlockType::Maintenance
    } else {
        BlockType::Hardware
    };
    Ok(Message::Grouped(cic, what, why, group))
}

// What follows the type octet in a message of the circuit.
#[inline(always)]
fn read_rest(octet: u8, cic: Cic, rest: &[u8]) -> Result<Message<'_>, MessageFault>
    ensures { seen result ≡ decode_rest octet cic.0 rest.now }
{
    let end = rest.len();
    match octet {
        RSC if end == 0 => Ok(Message::Single(cic, Single::Rsc)),
        BLO if end == 0 => Ok(Message::Single(cic, Single::Blo)),
        UBL if end == 0 => Ok(Message::Single(cic, Single::Ubl)),
        BLA if end == 0 => Ok(Message::Single(cic, Single::Bla)),
        UBA if end == 0 => Ok(Message::Single(cic, Single::Uba)),
        RLC if end == 0 || end == 1 && rest[0] == 0 => Ok(Message::ReleaseComplete(cic)),
        GRS if end == 3 && rest[..2] == [1, 1] && (1..=MAX_RESET_RANGE).contains(&rest[2]) => {
            Ok(Message::GroupReset(cic, Range(rest[2])))
        }
        GRS if end == 3 && rest[..2] == [1, 1] => Err(MessageFault::Limit(octet)),
        GRA if end >= 1 && rest[0] == 1 => {
            let group = read_group(octet, MAX_RESET_RANGE, &rest[1..])?;
            Ok(Message::GroupResetAck(cic, group))
        }
        CGB if end >= 2 && rest[1] == 1 => read_grouped(octet, Grouped::Cgb, cic, rest),
        CGU if end >= 2 && rest[1] == 1 => read_grouped(octet, Grouped::Cgu, cic, rest),
        CGBA if end >= 2 && rest[1] == 1 => read_grouped(octet, Grouped::Cgba, cic, rest),
        CGUA if end >= 2 && rest[1] == 1 => read_grouped(octet, Grouped::Cgua, cic, rest),
        REL if has_cause(rest) => Ok(Message::Release(cic, Cause(&rest[3..5]))),
        IAM if end >= 1 => Ok(Message::Call(cic, CallKind::Iam, rest)),
        ACM if end >= 1 => Ok(Message::Call(cic, CallKind::Acm, rest)),
        CON if end >= 1 => Ok(Message::Call(cic, CallKind::Con, rest)),
        ANM if end >= 1 => Ok(Message::Call(cic, CallKind::Anm, rest)),
        CPG if end >= 1 => Ok(Message::Call(cic, CallKind::Cpg, rest)),
        // a listed type, with another layout
        RSC..=CGUA | RLC | GRA | REL | IAM | ACM | CON | ANM | CPG => {
            Err(MessageFault::Layout(octet))
        }
        _ => Err(MessageFault::Unknown(octet)),
    }
}

/// The message that the octets are, from the first octet of the CIC to the end. Body, cause and status of the message
/// are parts of `octets`. Refused with `Short` where octets are missing before the end of the type, with `Unknown`
/// where the type is not listed, with `Layout` where what follows has not the layout of the type, and with `Limit`
/// where indicator, range or number of set bits is outside its limits.
pub fn read(octets: &[u8]) -> Result<Message<'_>, MessageFault>
    ensures value { seen result ≡ decode octets.now }
    ensures format { Reads octets.now (seen result) }
{
    let [low, high, octet, rest @ ..] = octets else {
        return Err(MessageFault::Short);
    };
    read_rest(*octet, Cic::from_octets(*low, *high), rest)
}
