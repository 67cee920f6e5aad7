// Explains a trace: one message to a line of standard input as hexadecimal octets, one line of explanation each.
#![tactic(auto)]

use explain::{Explanation, Hex, hex_octets, without_end};
use message::read;
use std::alloc::Global;
use std::io;
use std::io::{BufRead, BufReader, BufWriter, Write};

// How many lines were read, refused and not hexadecimal.
#[derive(Clone, Copy)]
struct Tally {
    read: u64,
    refused: u64,
    not_hex: u64,
}

// Explains one line, unless it is empty or a comment.
fn explain_line<W: Write>(
    heap: Global,
    line: &[u8],
    out: &mut W,
    tally: &mut Tally,
) -> io::Result<()> {
    let text = without_end(line);
    if text.starts_with(b"#") {
        return Ok(());
    }
    let Some(octets) = hex_octets(heap, text)? else {
        tally.not_hex = tally.not_hex.saturating_add(1);
        out.write_all(text)?;
        return out.write_all(b" | not hexadecimal\n");
    };
    if octets.is_empty() {
        return Ok(());
    }
    let found = read(octets.as_slice());
    if found.is_ok() {
        tally.read = tally.read.saturating_add(1);
    } else {
        tally.refused = tally.refused.saturating_add(1);
    }
    let shown = Hex::<u8, 2>(octets.as_slice());
    let words = Explanation(found);
    writeln!(out, "{shown} | {words}")
}

fn run(rt: &HostRuntime) -> io::Result<()> {
    let mut input = BufReader::new(rt.alloc(), rt.stdin())?;
    let mut out = BufWriter::new(rt.alloc(), rt.stdout())?;
    let mut line = Vec::new(rt.alloc());
    let mut tally = Tally {
        read: 0,
        refused: 0,
        not_hex: 0,
    };
    // A count, since each loop is proved to end. `split` would not tell whether the last line had its line feed. What
    // four programs have alike here are two calls of the library.
    for _ in 0..u64::MAX {
        line.clear();
        if input.read_until(b'\n', &mut line)? == 0 {
            break;
        }
        explain_line(rt.alloc(), line.as_slice(), &mut out, &mut tally)?;
    }
    let Tally {
        read,
        refused,
        not_hex,
    } = tally;
    writeln!(
        out,
        "{read} read, {refused} refused, {not_hex} not hexadecimal"
    )?;
    out.flush()
}

fn main(rt: HostRuntime) -> anyhow::Result<()> {
    Ok(run(&rt)?)
}
