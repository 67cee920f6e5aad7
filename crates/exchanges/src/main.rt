// Two exchanges over two lines: steps on standard input, one to a line, and on standard output what
// each did and what is on the lines.
#![tactic(auto)]

mod chance;
mod looking;
mod playing;
mod reading;
#[cfg(test)]
mod tests;
mod watching;
mod wording;

use explain::without_end;
use playing::{Answer, Exchanges};
use reading::read_command;
use std::alloc::Global;
use std::io;
use std::io::{BufRead, BufReader, BufWriter, Write};
use terminal::{is_blank, is_remark};
use wording::Report;

// Writes a line again, and what it is answered.
fn answer_line<W: Write>(
    heap: Global,
    line: &[u8],
    exchanges: &mut Exchanges,
    out: &mut W,
) -> io::Result<()> {
    let text = without_end(line);
    if is_blank(text) || is_remark(text) {
        return Ok(());
    }
    out.write_all(b"> ")?;
    out.write_all(text)?;
    out.write_all(b"\n")?;
    let answer = match read_command(heap, text)? {
        Some(command) => exchanges.answer(heap, &command),
        None => Answer::NotUnderstood,
    };
    let report = Report {
        answer,
        exchanges: &*exchanges,
    };
    write!(out, "{report}")?;
    out.flush()
}

fn run(rt: &HostRuntime) -> io::Result<()> {
    let mut input = BufReader::new(rt.alloc(), rt.stdin())?;
    let mut out = BufWriter::new(rt.alloc(), rt.stdout())?;
    let mut line = Vec::new(rt.alloc());
    let mut exchanges = Exchanges { bench: None };
    // A count, since each loop is proved to end.
    for _ in 0..u64::MAX {
        line.clear();
        if input.read_until(b'\n', &mut line)? == 0 {
            break;
        }
        answer_line(rt.alloc(), line.as_slice(), &mut exchanges, &mut out)?;
    }
    Ok(())
}

fn main(rt: HostRuntime) -> anyhow::Result<()> {
    Ok(run(&rt)?)
}
