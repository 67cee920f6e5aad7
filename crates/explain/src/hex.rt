// Octets written as hexadecimal digits.
ghost use Rattle.std.specs.Prelude.{◌≡◌, IfOk};
ghost use Rattle.explain.specs.Hex.{digit_of, octet_front, hex_octets, listed, without_end};

use std::alloc::{AllocError, Global};

// The value of a hexadecimal digit, lower or upper case.
fn digit(byte: u8) -> Option<u8>
    ensures { result ≡ digit_of byte }
{
    char::from(byte).to_digit(16).map(|value| value as u8)
}

// The octet at the front of a text: two digits, and then a space or the end.
fn octet_front(text: &[u8]) -> Option<u8>
    ensures { result ≡ octet_front text.now }
{
    match text {
        [high, low] | [high, low, b' ', ..] => Some(digit(*high)? * 16 + digit(*low)?),
        _ => None,
    }
}

/// The octets of a line of hexadecimal digits, two for each octet, with spaces between; `None` where it has anything
/// else. The line has no end of line: see `without_end`. An error is want of memory.
pub fn hex_octets(heap: Global, line: &[u8]) -> Result<Option<Vec<u8>>, AllocError>
    ensures { IfOk result (λ o. listed o ≡ hex_octets line.now) }
{
    let mut octets = Vec::new(heap);
    let mut rest = line;
    while let [first, after @ ..] = rest {
        if *first == b' ' {
            rest = after;
        } else {
            let Some(octet) = octet_front(rest) else {
                return Ok(None);
            };
            octets.push(octet)?;
            rest = &rest[2..];
        }
    }
    Ok(Some(octets))
}

/// A line without the line feed, or carriage return and line feed, at its end.
pub fn without_end(line: &[u8]) -> &[u8]
    ensures { result.now ≡ without_end line.now }
{
    match line.strip_suffix(b"\n") {
        Some(text) => text.strip_suffix(b"\r").unwrap_or(text),
        None => line,
    }
}
