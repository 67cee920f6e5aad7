// Compares our reader with another one: each line of standard input has a message and what the other reader said of it.
#![tactic(auto)]

use explain::{Explanation, hex_octets, without_end};
use message::{Message, read, write};
use std::alloc::{AllocError, Global};
use std::io;
use std::io::{BufRead, BufReader, Write};

// A line cut at its first bar, without the spaces beside it.
fn cut(line: &[u8]) -> Option<(&[u8], &[u8])> {
    let left = line.windows(3).position(|three| three[1] == b'|')?;
    Some((&line[..left], &line[left + 3..]))
}

// Whether `text` begins with the words `said`.
fn begins(text: &[u8], said: &[u8]) -> bool {
    matches!(text.strip_prefix(said), Some([] | [b' ', ..]))
}

// Whether the message, written again, is explained alike.
fn again(heap: Global, message: Message<'_>, words: &[u8]) -> Result<bool, AllocError> {
    // `write` has no heap: it is lent octets, and answers how many it wrote
    let mut out = [0xff; 64];
    match write(message, &mut out) {
        Ok(n) if n <= out.len() => {
            let back = Explanation(read(&out[0..n])).to_string(heap)?;
            Ok(back.as_bytes() == words)
        }
        _ => Ok(false),
    }
}

// Whether we say the same of the octets as the other reader, and again once the message is written.
fn agrees(heap: Global, octets: &[u8], said: &[u8]) -> Result<bool, AllocError> {
    let Some(octets) = hex_octets(heap, octets)? else {
        return Ok(false);
    };
    let found = read(octets.as_slice());
    let ours = Explanation(found).to_string(heap)?;
    match found {
        Ok(message) => Ok(begins(ours.as_bytes(), said) && again(heap, message, ours.as_bytes())?),
        Err(_) => Ok(begins(said, b"malformed")),
    }
}

fn run(rt: &HostRuntime) -> io::Result<()> {
    let mut input = BufReader::new(rt.alloc(), rt.stdin())?;
    let mut line = Vec::new(rt.alloc());
    let mut same = 0u64;
    let mut other = 0u64;
    // A count, since each loop is proved to end. `split` would not tell whether the last line had its line feed. What
    // three programs have alike here are two calls of the library.
    for _ in 0..u64::MAX {
        line.clear();
        if input.read_until(b'\n', &mut line)? == 0 {
            break;
        }
        let text = without_end(line.as_slice());
        let Some((octets, said)) = cut(text) else {
            continue;
        };
        if agrees(rt.alloc(), octets, said)? {
            same = same.saturating_add(1);
        } else {
            other = other.saturating_add(1);
            rt.stdout().write_all(text)?;
            println!(rt; " | differs")?;
        }
    }
    println!(rt; "{same} agree, {other} differ")
}

fn main(rt: HostRuntime) -> anyhow::Result<()> {
    Ok(run(&rt)?)
}
