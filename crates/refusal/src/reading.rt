// A message with the refusals of the operations.
ghost use Rattle.std.specs.Prelude.{◌≡◌};
ghost use Rattle.message.specs.Decode.{decode};
ghost use Rattle.refusal.specs.Refusals.{raised};
ghost use Rattle.refusal.specs.Reading.{heard_as};

use crate::reasons::Refusal;
use message::Message;

/// Reads a message, as a host does that looks for the trunk of its CIC: then the trunk whose CICs hold it receives the
/// same octets. Refused with `Short`, `Unknown`, `Layout` or `Limit`, as `message::read` is.
pub fn read(octets: &[u8]) -> Result<Message<'_>, Refusal>
    ensures { heard_as result ≡ raised (decode octets.now) }
{
    Ok(message::read(octets)?)
}
