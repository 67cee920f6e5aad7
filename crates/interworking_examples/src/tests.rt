// Runs that were played by hand from the rules.
use circuit::{Circuit, LocalBlock, Reset};
use interworking::{Bench, Fault, Side, Step};
use message::CallKind;
use policy::{End, Sequential};
use refusal::Refusal;
use status::Cic;
use std::alloc::Global;
use std::test::Fail;
use supervision::Order;

type Pair = Bench<Sequential, Sequential>;

// One PCM system from CIC 0 on, all time slots but 0. The near exchange has the higher point code;
// both take the lowest open circuit.
fn open(alloc: Global) -> Result<Pair, Fault> {
    let near = Sequential::new(End::Low);
    let far = Sequential::new(End::Low);
    Bench::open(alloc, Cic(0), &[0xffff_fffe], true, near, far)
}

// A circuit of a table.
fn at(table: &[Circuit], place: usize) -> Option<Circuit> {
    table.get(place).copied()
}

// All words that an exchange told.
fn told(bench: &Pair, side: Side) -> &[u32] {
    match side {
        Side::Near => bench.near().told(),
        Side::Far => bench.far().told(),
    }
}

// Takes a step; whether it told just these words.
fn tells(bench: &mut Pair, side: Side, step: Step<'_>, words: &[u32]) -> Result<bool, Fault> {
    let count = bench.step(side, step)?;
    let told = told(&*bench, side);
    Ok(count == words.len() && &told[told.len().saturating_sub(count)..] == words)
}

// Both seize CIC 1, which the far exchange controls; later a block of it crosses the release of the
// call.
#[test]
fn crossing(rt: HostRuntime) -> Result<(), Fail> {
    let mut bench = open(rt.alloc())?;
    let seize = Step::Order(Order::Seize(&[0x0a]));
    let ringing = Step::Call {
        cic: Cic(1),
        kind: CallKind::Acm,
        body: &[0x01, 0x02],
    };
    let release = Step::Order(Order::Release {
        cic: Cic(1),
        location: 4,
        value: 16,
    });
    let block = Step::Order(Order::Block(Cic(1)));
    let steps: [(Side, Step<'_>, &[u32]); 12] = [
        (Side::Near, seize, &[0x2000_0001, 0x1000_0004]),
        (Side::Far, seize, &[0x2000_0001, 0x1000_0004]),
        (Side::Far, Step::Receive, &[]),
        (Side::Near, Step::Receive, &[0x3000_5001, 0x2000_1001]),
        (Side::Near, ringing, &[]),
        (Side::Far, Step::Receive, &[]),
        (Side::Near, release, &[0x1000_0008]),
        (Side::Far, block, &[0x1000_0003]),
        (Side::Far, Step::Receive, &[0x3000_1001, 0x1000_0004]),
        (Side::Near, Step::Receive, &[0x1000_0003]),
        (Side::Near, Step::Receive, &[0x3000_2001]),
        (Side::Far, Step::Receive, &[]),
    ];
    for (side, step, words) in &steps {
        assert!(rt; tells(&mut bench, *side, *step, words)?);
    }
    assert!(rt; bench.near().line().is_empty() && bench.far().line().is_empty());
    assert!(rt; at(bench.near().table(), 1).is_some_and(|c| c.far.maintenance));
    assert!(rt; at(bench.far().table(), 1).is_some_and(|c| c.local.maintenance == LocalBlock::Set));
    assert_eq!(rt;
        bench.step(Side::Near, release),
        Err(Fault::Refused(Refusal::State))
    );
    assert_eq!(rt; bench.step(Side::Near, Step::Receive), Err(Fault::Empty));
    Ok(())
}

// Each of the other orders and an expiry once; then receiving alone empties both lines.
#[test]
fn settling(rt: HostRuntime) -> Result<(), Fail> {
    let mut bench = open(rt.alloc())?;
    let block = Step::Order(Order::Block(Cic(5)));
    let expiry = Step::Expire {
        timer: 13,
        at: 5,
        kind: 0,
    };
    let hardware = Step::Order(Order::GroupBlock {
        kind: 1,
        system: 0,
        mask: 0x0002_0008,
    });
    let lift = Step::Order(Order::GroupUnblock {
        kind: 0,
        system: 0,
        mask: 0x0000_0004,
    });
    let unblock = Step::Order(Order::Unblock(Cic(5)));
    let reset = Step::Order(Order::Reset(Cic(7)));
    let reset_all = Step::Order(Order::GroupReset(0));
    let steps: [(Side, Step<'_>, &[u32]); 7] = [
        (Side::Near, block, &[0x1000_0003]),
        (Side::Near, expiry, &[0x1000_0003, 0x4000_d005]),
        (Side::Near, hardware, &[0x1000_000b]),
        (Side::Near, unblock, &[0x1000_0003]),
        (Side::Far, reset, &[0x1000_0003]),
        (Side::Far, lift, &[0x1000_000b]),
        (Side::Far, reset_all, &[0x1000_0006]),
    ];
    for (side, step, words) in &steps {
        assert!(rt; tells(&mut bench, *side, *step, words)?);
    }
    // three receives at the near exchange, of which two answer with one message and one with two;
    // then eight at the far one, of which five are answered
    assert_eq!(rt; bench.most_receives(), 42);
    assert_eq!(rt; bench.settle(), Ok(16));
    assert!(rt; bench.receiver().is_none());
    assert!(rt; at(bench.near().table(), 3).is_some_and(|c| c.local.hardware == LocalBlock::Set));
    assert!(rt; at(bench.far().table(), 17).is_some_and(|c| c.far.hardware));
    assert!(rt;
        at(bench.near().table(), 5).is_some_and(|c| c.local.maintenance == LocalBlock::None)
    );
    assert!(rt; at(bench.far().table(), 7).is_some_and(|c| c.reset == Reset::None));
    Ok(())
}

// A host's own message has a body of any length from one octet on, for a circuit, and is no IAM.
#[test]
fn own_messages(rt: HostRuntime) -> Result<(), Fail> {
    let mut bench = open(rt.alloc())?;
    let body = [7; 1000];
    let call = |cic, kind, body| Step::Call { cic, kind, body };
    let iam = call(Cic(3), CallKind::Iam, &body);
    let nothing = call(Cic(3), CallKind::Cpg, &[]);
    let no_circuit = call(Cic(0), CallKind::Cpg, &body);
    let argument = Err(Fault::Refused(Refusal::Argument));
    assert_eq!(rt; bench.step(Side::Near, iam), argument);
    assert_eq!(rt; bench.step(Side::Near, nothing), argument);
    assert_eq!(rt;
        bench.step(Side::Near, no_circuit),
        Err(Fault::Refused(Refusal::Address))
    );
    let long = call(Cic(3), CallKind::Cpg, &body);
    bench.run(&[(Side::Near, long), (Side::Near, iam), (Side::Near, long)]);
    assert_eq!(rt; bench.near().line().len(), 2);
    assert_eq!(rt;
        bench.near().line().get(1).map(|octets| octets.len()),
        Some(1003)
    );
    assert_eq!(rt; bench.step(Side::Far, Step::Receive), Ok(0));
    assert_eq!(rt; bench.near().line().len(), 1);
    Ok(())
}

// More equipment words than any trunk has.
#[test]
fn refused_opening(rt: HostRuntime) -> Result<(), Fail> {
    let near = Sequential::new(End::Low);
    let far = Sequential::new(End::Low);
    let opened = Bench::open(rt.alloc(), Cic(0), &[0xffff_fffe; 17], true, near, far);
    assert_eq!(rt; opened.err(), Some(Fault::Refused(Refusal::Opening)));
    Ok(())
}
