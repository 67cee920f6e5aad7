// The range and status parameter of a group message.
ghost use Rattle.std.specs.Prelude.{◌≡◌};
ghost use Rattle.status.specs.Parameter.{seen_group, read_group};

use crate::fault::ParamFault;
use crate::group::{Group, MAX_SET_BITS};
use crate::range::{MAX_RESET_RANGE, Range};

/// Reads a length octet, a range from 1 to `most` and its status, which are all of `part`, in a message of the type
/// octet `octet`. Refused with `Layout` where the length octet or the end of `part` is not what the range octet asks
/// for, and else with `Limit` where the range is outside its limits or more than `MAX_SET_BITS` bits are set.
// The type is a number, since the message's fault comes of it by `From`, and this crate knows no kinds.
#[inline(always)]
pub fn read_group(octet: u8, most: u8, part: &[u8]) -> Result<Group<'_>, ParamFault>
    ensures { seen_group result ≡ read_group octet most part.now }
{
    let [length, range, status @ ..] = part else {
        return Err(ParamFault::Layout(octet));
    };
    let group = Group {
        range: Range(*range),
        status,
    };
    if status.len() != group.range.status_octets() || *length as usize != status.len() + 1 {
        return Err(ParamFault::Layout(octet));
    }
    // a range of a reset has no more bits than may be set
    if !(1..=most).contains(range) || *range > MAX_RESET_RANGE && group.count_set() > MAX_SET_BITS {
        return Err(ParamFault::Limit(octet));
    }
    Ok(group)
}
