// Worked examples on real tables and policies.
use exchange::{
    Call, Cic, Circuit, Direction, End, Event, Exchange, LocalBlock, OCTETS, Place, Policy,
    Refusal, SLOTS, Sequential, Trunk, WORDS,
};
use std::test::Fail;

// What an exchange is lent: one PCM system from CIC 0 on, all time slots but 0, the higher point
// code, lowest circuit first.
#[derive(Drop)]
struct Host {
    trunk: Trunk,
    table: [Circuit; SLOTS],
    policy: Sequential,
    words: [u32; WORDS],
    octets: [u8; OCTETS],
}

impl Host {
    fn open() -> Result<Host, Refusal> {
        let mut table = [Circuit::fresh(false); SLOTS];
        let mut policy = Sequential::new(End::Low);
        let trunk = Trunk::open(Cic(0), &[0xffff_fffe], true, &mut table, &mut policy)?;
        Ok(Host {
            trunk,
            table,
            policy,
            words: [0; WORDS],
            octets: [0; OCTETS],
        })
    }
}

#[test]
fn hardware_blocking(rt: HostRuntime) -> Result<(), Fail> {
    let mut host = Host::open()?;
    let mut exchange = Exchange::new(
        host.trunk,
        &mut host.table,
        &mut host.policy,
        &mut host.words,
        &mut host.octets,
    );
    exchange.group_block(1, 0, 0x0002_0008)?;
    assert_eq!(rt; exchange.words(), [0x1000_000b].as_slice());
    assert_eq!(rt;
        exchange.octets(),
        [
            0x01, 0x00, 0x18, 0x01, 0x01, 0x05, 0x1e, 0x04, 0x00, 0x01, 0x00
        ]
        .as_slice()
    );
    Ok(())
}

#[test]
fn seizure_and_release(rt: HostRuntime) -> Result<(), Fail> {
    let mut host = Host::open()?;
    let mut exchange = Exchange::new(
        host.trunk,
        &mut host.table,
        &mut host.policy,
        &mut host.words,
        &mut host.octets,
    );
    exchange.seize(&[0x0a])?;
    assert_eq!(rt; exchange.words(), [0x2000_0001, 0x1000_0004].as_slice());
    let mut events = exchange.told();
    assert!(rt;
        matches!(
            events.next(),
            Some(Event::Begun(Direction::Outgoing, Cic(1)))
        )
    );
    assert!(rt; matches!(events.next(), Some(Event::Send([0x01, 0x00, 0x01, 0x0a]))));
    assert!(rt; events.next().is_none());
    exchange.release(Cic(1), 4, 16)?;
    assert_eq!(rt; exchange.words(), [0x1000_0008].as_slice());
    assert_eq!(rt;
        exchange.octets(),
        [0x01, 0x00, 0x0c, 0x02, 0x00, 0x02, 0x84, 0x90].as_slice()
    );
    assert_eq!(rt; exchange.table()[1].call, Call::Releasing);
    Ok(())
}

#[test]
fn bodies(rt: HostRuntime) -> Result<(), Fail> {
    let mut host = Host::open()?;
    let mut exchange = Exchange::new(
        host.trunk,
        &mut host.table,
        &mut host.policy,
        &mut host.words,
        &mut host.octets,
    );
    assert_eq!(rt; exchange.seize(&[0; 257]), Err(Refusal::Argument));
    assert_eq!(rt; exchange.counts(), (0, 0));
    exchange.seize(&[0; 256])?;
    assert_eq!(rt; exchange.counts(), (2, 259));
    Ok(())
}

#[test]
fn incoming_call(rt: HostRuntime) -> Result<(), Fail> {
    let mut host = Host::open()?;
    let mut exchange = Exchange::new(
        host.trunk,
        &mut host.table,
        &mut host.policy,
        &mut host.words,
        &mut host.octets,
    );
    exchange.receive(&[0x06, 0x00, 0x01, 0x0a])?;
    assert_eq!(rt; exchange.words(), [0x2000_1006].as_slice());
    exchange.receive(&[0x06, 0x00, 0x0c, 0x02, 0x00, 0x02, 0x84, 0x90])?;
    assert_eq!(rt; exchange.words(), [0x3000_1006, 0x1000_0004].as_slice());
    assert_eq!(rt; exchange.octets(), [0x06, 0x00, 0x10, 0x00].as_slice());
    Ok(())
}

#[test]
fn group_reset_of_a_blocked_circuit(rt: HostRuntime) -> Result<(), Fail> {
    let mut host = Host::open()?;
    host.table[3].local.maintenance = LocalBlock::Set;
    let mut exchange = Exchange::new(
        host.trunk,
        &mut host.table,
        &mut host.policy,
        &mut host.words,
        &mut host.octets,
    );
    exchange.receive(&[0x01, 0x00, 0x17, 0x01, 0x01, 0x1e])?;
    assert_eq!(rt; exchange.words(), [0x1000_000a].as_slice());
    assert_eq!(rt;
        exchange.octets(),
        [0x01, 0x00, 0x29, 0x01, 0x05, 0x1e, 0x04, 0x00, 0x00, 0x00].as_slice()
    );
    Ok(())
}

#[test]
fn block_not_acknowledged(rt: HostRuntime) -> Result<(), Fail> {
    let mut host = Host::open()?;
    host.table[5].local.maintenance = LocalBlock::Asked;
    let mut exchange = Exchange::new(
        host.trunk,
        &mut host.table,
        &mut host.policy,
        &mut host.words,
        &mut host.octets,
    );
    exchange.expire(13, 5, 0)?;
    assert_eq!(rt; exchange.words(), [0x1000_0003, 0x4000_d005].as_slice());
    assert_eq!(rt; exchange.octets(), [0x05, 0x00, 0x13].as_slice());
    Ok(())
}

#[test]
fn message_refused(rt: HostRuntime) -> Result<(), Fail> {
    let mut host = Host::open()?;
    let mut exchange = Exchange::new(
        host.trunk,
        &mut host.table,
        &mut host.policy,
        &mut host.words,
        &mut host.octets,
    );
    assert_eq!(rt; exchange.receive(&[0x05, 0x00]), Err(Refusal::Short));
    assert_eq!(rt;
        exchange.receive(&[0x05, 0x00, 0x2a]),
        Err(Refusal::Unknown(0x2a))
    );
    Ok(())
}

#[test]
fn short_words(rt: HostRuntime) -> Result<(), Fail> {
    let mut host = Host::open()?;
    let mut exchange = Exchange::new(
        host.trunk,
        &mut host.table,
        &mut host.policy,
        &mut host.words[1..],
        &mut host.octets,
    );
    assert_eq!(rt; exchange.block(Cic(5)), Err(Refusal::Buffers));
    Ok(())
}

#[test]
fn choice_that_is_not_open(rt: HostRuntime) -> Result<(), Fail> {
    let mut host = Host::open()?;
    host.policy.offer(Place(0));
    let mut exchange = Exchange::new(
        host.trunk,
        &mut host.table,
        &mut host.policy,
        &mut host.words,
        &mut host.octets,
    );
    assert_eq!(rt; exchange.seize(&[1]), Err(Refusal::Choice));
    Ok(())
}
