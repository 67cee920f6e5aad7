// The static library for callers of C: the reader of `reader_abi` under its name.
// C needs a static library, on which no crate of Rattle can stand: so the two are crates of their own.
#![tactic(auto)]

ghost use Rattle.std.specs.Prelude.{◌≡◌, length};
ghost use Rattle.message.specs.Decode.{decode};
ghost use Rattle.reader_abi.specs.Report.{answer, reported};

/// Reads the octets, and writes what they say to the front of `out`, eight words: the number of the refusal or 0, the
/// type octet, the CIC, the indicator, the range, and of status, cause or body the length, the first octet and the last.
/// Answers the number of the refusal, 0 where there is none, or 3 with `out` untouched where it is shorter than eight
/// words.
#[unsafe(no_mangle)]
pub extern "C" fn setsvoku_read(octets: &[u8], out: &mut [u64]) -> u32
    ensures value { result ≡ answer (decode octets.now) (length out.old) }
    ensures after { out.new ≡ reported (decode octets.now) out.old }
{
    reader_abi::setsvoku_read(octets, out)
}
