// A console for a trunk: orders, received messages and expiries on standard input, one to a line,
// and on standard output what each did.
#![tactic(auto)]

mod console;
mod order;
mod wording;

use console::Console;
use explain::without_end;
use order::read_order;
use std::alloc::Global;
use std::io;
use std::io::{BufRead, BufReader, BufWriter, Write};
use terminal::{is_blank, is_remark};
use wording::{Answer, Report};

// Writes a line again, and what it is answered.
fn answer_line<W: Write>(
    heap: Global,
    line: &[u8],
    console: &mut Console,
    out: &mut W,
) -> io::Result<()> {
    let text = without_end(line);
    if is_blank(text) || is_remark(text) {
        return Ok(());
    }
    out.write_all(b"> ")?;
    out.write_all(text)?;
    out.write_all(b"\n")?;
    let answer = match read_order(heap, text)? {
        Some(order) => console.answer(heap, order)?,
        None => Answer::NotUnderstood,
    };
    let report = Report {
        answer,
        words: &console.words,
        octets: &console.octets,
    };
    write!(out, "{report}")?;
    out.flush()
}

fn run(rt: &HostRuntime) -> io::Result<()> {
    let mut input = BufReader::new(rt.alloc(), rt.stdin())?;
    let mut out = BufWriter::new(rt.alloc(), rt.stdout())?;
    let mut line = Vec::new(rt.alloc());
    let mut console = Console::new(rt.alloc());
    // A count, since each loop is proved to end. `split` would not tell whether the last line had
    // its line feed. What these programs have alike here are two calls of the library.
    for _ in 0..u64::MAX {
        line.clear();
        if input.read_until(b'\n', &mut line)? == 0 {
            break;
        }
        answer_line(rt.alloc(), line.as_slice(), &mut console, &mut out)?;
    }
    Ok(())
}

fn main(rt: HostRuntime) -> anyhow::Result<()> {
    Ok(run(&rt)?)
}
