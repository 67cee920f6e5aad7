// Plays events on a trunk, so that they can be compared with those of another program and counted.
//
// `cost METHOD` plays each line of its input and writes what it gave, in numbers. `cost METHOD SYSTEMS
// COUNT` opens a trunk of so many PCM systems, plays the lines before `repeat` once, and those after
// it COUNT times, from the same circuits each time; it writes nothing in between. METHOD is that of
// selection: `low`, `high` or `release`.
#![tactic(auto)]

mod host;
mod line;
mod played;

use anyhow::Context;
use host::{Host, Opening};
use line::{Line, read_line};
use played::{Given, Played};
use status::Cic;
use std::alloc::Global;
use std::env;
use std::io::{BufWriter, Write};
use supervision::MOST_SYSTEMS;
use terminal::{Method, decimal, read_method};

const USAGE: &str = "cost METHOD [SYSTEMS COUNT]";

// all time slots but 0
const EQUIPMENT: u32 = 0xffff_fffe;

fn said(heap: Global, text: &str) -> anyhow::Result<Line> {
    read_line(heap, text)?.context("not understood")
}

// A trunk of so many PCM systems, from CIC 0 on, with the higher point code.
fn opened(heap: Global, method: Method, systems: usize) -> anyhow::Result<Host> {
    let opening = Opening {
        first: Cic(0),
        higher: true,
        equipment: vec![in heap; EQUIPMENT; systems.min(MOST_SYSTEMS)]?,
    };
    Ok(Host::open(heap, method, &opening)??)
}

// Plays each line, and writes what it gave.
fn show(rt: &HostRuntime, method: Method) -> anyhow::Result<()> {
    let heap = rt.alloc();
    let mut out = BufWriter::new(heap, rt.stdout())?;
    let mut host = opened(heap, method, 1)?;
    for text in rt.lines(heap) {
        let line = said(heap, text?.as_str())?;
        let before = host.saved(heap)?;
        let given = match line {
            Line::Open(opening) => match Host::open(heap, method, &opening)? {
                Ok(open) => {
                    host = open;
                    Given::Opened
                }
                Err(refusal) => Given::Refused(refusal),
            },
            Line::Lend(lent) => {
                host.lent = lent;
                Given::Lent
            }
            Line::Put(place, record) => {
                host.put(place, record);
                Given::Put
            }
            Line::Play(event) => match host.play(&event) {
                Ok((words, octets)) => Given::Wrote(words, octets),
                Err(refusal) => Given::Refused(refusal),
            },
        };
        let played = Played {
            given,
            words: &host.words,
            octets: &host.octets,
            before: before.as_slice(),
            after: host.table.as_slice(),
        };
        writeln!(out, "{played}")?;
    }
    out.flush()?;
    Ok(())
}

// Plays the lines before `repeat` once, and those after it so many times.
fn repeat(rt: &HostRuntime, method: Method, systems: usize, count: u64) -> anyhow::Result<()> {
    let heap = rt.alloc();
    let mut host = opened(heap, method, systems)?;
    let mut repeated = Vec::new(heap);
    let mut is_prepared = false;
    for text in rt.lines(heap) {
        let text = text?;
        if text.as_str() == "repeat" {
            is_prepared = true;
        } else if let Line::Play(event) = said(heap, text.as_str())? {
            if is_prepared {
                repeated.push(event)?;
            } else {
                host.play(&event)?;
            }
        }
    }
    let saved = host.saved(heap)?;
    match host.play_again(repeated.as_slice(), saved.as_slice(), count) {
        Ok((words, octets)) => println!(rt; "words {words} octets {octets}")?,
        Err(refusal) => println!(rt; "{}", refusal.brief())?,
    }
    Ok(())
}

fn number(text: &str) -> anyhow::Result<u64> {
    decimal(text.as_bytes()).context("no number")
}

fn run(rt: &HostRuntime) -> anyhow::Result<()> {
    let mut arguments = env::args(rt)?.skip(1);
    let method = arguments.next().context(USAGE)?;
    let method = read_method(method.as_bytes()).context(USAGE)?;
    let Some(systems) = arguments.next() else {
        return show(rt, method);
    };
    let count = arguments.next().context(USAGE)?;
    let systems = number(systems.as_str())? as usize;
    repeat(rt, method, systems, number(count.as_str())?)
}

fn main(rt: HostRuntime) -> anyhow::Result<()> {
    run(&rt)
}
