// A line, cut into words.
use crate::numerals::{hex_octet, hex_word};
use std::alloc::{AllocError, Global};

/// The words of a line: what stands between spaces.
// Not by `split`, which would make a piece of each space of a gap.
pub fn words_of(heap: Global, line: &[u8]) -> Result<Vec<&[u8]>, AllocError> {
    let mut words = Vec::new(heap);
    let mut rest = line;
    while let Some(end) = rest.iter().position(|byte| *byte == b' ') {
        if end > 0 {
            words.push(&rest[..end])?;
        }
        rest = &rest[end + 1..];
        while let [b' ', after @ ..] = rest {
            rest = after;
        }
    }
    if !rest.is_empty() {
        words.push(rest)?;
    }
    Ok(words)
}

// What each word says, or `None` where one says nothing.
fn read_all<T: Drop, F: Fn(&[u8]) -> Option<T>>(
    heap: Global,
    words: &[&[u8]],
    read: F,
) -> Result<Option<Vec<T>>, AllocError>
    requires { F.IsAlwaysCallable read }
{
    let mut all = Vec::new(heap);
    for word in words {
        let Some(said) = read(word) else {
            return Ok(None);
        };
        all.push(said)?;
    }
    Ok(Some(all))
}

/// Octets, each of two hexadecimal digits.
pub fn read_octets(heap: Global, words: &[&[u8]]) -> Result<Option<Vec<u8>>, AllocError> {
    read_all(heap, words, hex_octet)
}

/// Equipment words, each of 1 to 8 hexadecimal digits.
pub fn read_equipment(heap: Global, words: &[&[u8]]) -> Result<Option<Vec<u32>>, AllocError> {
    read_all(heap, words, hex_word)
}
