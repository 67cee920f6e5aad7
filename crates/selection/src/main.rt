// Plays offers and withdrawals through the policies, and shows what each would choose.
#![tactic(auto)]

use policy::{End, Place, Policy, ReleaseOrder, Sequential, Update, follow};
use std::fmt;

// A choice, as the number of a place or `-`.
#[derive(Clone, Copy)]
struct Choice(Option<Place>);

impl fmt::Display for Choice {
    fn fmt<W: fmt::Write>(&self, f: &mut fmt::Formatter<W>) -> fmt::Result {
        match self.0 {
            Some(place) => write!(f, "{place}"),
            None => write!(f, "-"),
        }
    }
}

// The policies that are told the same updates. They are of two types, so they stand in no array.
#[derive(Clone, Copy)]
struct Policies {
    low: Sequential,
    high: Sequential,
    even: ReleaseOrder,
    odd: ReleaseOrder,
}

impl Policies {
    fn tell(&mut self, update: Update) {
        follow(&mut self.low, &[update]);
        follow(&mut self.high, &[update]);
        follow(&mut self.even, &[update]);
        follow(&mut self.odd, &[update]);
    }
}

fn play(rt: &HostRuntime, policies: &mut Policies, line: &str) -> anyhow::Result<()> {
    if let Some(number) = line.strip_prefix("offer ") {
        policies.tell(Update::Offer(Place(number.parse::<usize>()?)));
    } else if let Some(number) = line.strip_prefix("withdraw ") {
        policies.tell(Update::Withdraw(Place(number.parse::<usize>()?)));
    } else if line == "choose" {
        let low = Choice(policies.low.choose());
        let high = Choice(policies.high.choose());
        let even = Choice(policies.even.choose());
        let odd = Choice(policies.odd.choose());
        println!(rt; "low {low}, high {high}, release even {even}, release odd {odd}")?;
    }
    Ok(())
}

fn run(rt: &HostRuntime) -> anyhow::Result<()> {
    let mut policies = Policies {
        low: Sequential::new(End::Low),
        high: Sequential::new(End::High),
        even: ReleaseOrder::new(true),
        odd: ReleaseOrder::new(false),
    };
    for line in rt.lines(rt.alloc()) {
        let line = line?;
        play(rt, &mut policies, line.as_str())?;
    }
    Ok(())
}

fn main(rt: HostRuntime) -> anyhow::Result<()> {
    run(&rt)
}
