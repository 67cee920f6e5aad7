// Each look is given a state in which what it looks at does not hold.
use crate::looking::{Broken, Calls, look_at_blocks, look_at_rest};
use crate::watching::look_at_answer;
use circuit::{Call, Circuit, LocalBlock, Reset};
use interworking::{Fault, Step};
use refusal::Refusal;
use status::Cic;
use std::test::Fail;
use supervision::Order;

#[test]
fn blocks(rt: HostRuntime) {
    let near = [Circuit::fresh(true); 3];
    let mut far = near;
    assert_eq!(rt; look_at_blocks(Cic(32), &near, &far), None);
    far[1].local.hardware = LocalBlock::Asked;
    assert_eq!(rt;
        look_at_blocks(Cic(32), &near, &far),
        Some(Broken::Blocks(Cic(33)))
    );
    far[1].local.hardware = LocalBlock::Lifting;
    assert_eq!(rt; look_at_blocks(Cic(32), &near, &far), None);
    far[2].far.maintenance = true;
    assert_eq!(rt;
        look_at_blocks(Cic(32), &near, &far),
        Some(Broken::Blocks(Cic(34)))
    );
}

#[test]
fn rest(rt: HostRuntime) {
    let mut table = [Circuit::fresh(true); 3];
    table[1].call = Call::Talking;
    assert_eq!(rt; look_at_rest(Cic(0), &table), None);
    table[1].call = Call::Releasing;
    assert_eq!(rt; look_at_rest(Cic(0), &table), Some(Broken::Rest(Cic(1))));
    table[1].call = Call::Idle;
    table[2].reset = Reset::Group;
    assert_eq!(rt; look_at_rest(Cic(0), &table), Some(Broken::Rest(Cic(2))));
    table[0].local.maintenance = LocalBlock::Lifting;
    assert_eq!(rt; look_at_rest(Cic(0), &table), Some(Broken::Rest(Cic(0))));
}

#[test]
fn turns(rt: HostRuntime) -> Result<(), Fail> {
    let mut table = [Circuit::fresh(true); 3];
    let mut calls = Calls::new(rt.alloc(), Cic(0), 3)?;
    assert_eq!(rt; calls.look(&[], &table), None);
    table[1].call = Call::Calling;
    assert_eq!(rt; calls.look(&[0x2000_0001, 0x1000_0004], &table), None);
    // begun again, ended without a begun, and a call that goes on after its end
    assert_eq!(rt;
        calls.look(&[0x2000_0001], &table),
        Some(Broken::Turns(Cic(1)))
    );
    assert_eq!(rt;
        calls.look(&[0x3000_1002], &table),
        Some(Broken::Turns(Cic(2)))
    );
    assert_eq!(rt;
        calls.look(&[0x3000_1001], &table),
        Some(Broken::Turns(Cic(1)))
    );
    Ok(())
}

#[test]
fn taken(rt: HostRuntime) -> Result<(), Fail> {
    let mut table = [Circuit::fresh(true); 2];
    table[1].local.maintenance = LocalBlock::Asked;
    let mut calls = Calls::new(rt.alloc(), Cic(0), 2)?;
    assert_eq!(rt; calls.look(&[], &table), None);
    table[0].call = Call::Calling;
    assert_eq!(rt; calls.look(&[0x2000_0000], &table), None);
    // an incoming call may begin under a block that is only asked, an outgoing one may not
    table[1].call = Call::Talking;
    assert_eq!(rt; calls.look(&[0x2000_1001], &table), None);
    table[1].call = Call::Idle;
    assert_eq!(rt; calls.look(&[0x3000_1001], &table), None);
    table[1].call = Call::Calling;
    assert_eq!(rt;
        calls.look(&[0x2000_0001], &table),
        Some(Broken::Taken(Cic(1)))
    );
    Ok(())
}

#[test]
fn answers(rt: HostRuntime) {
    let seize = Step::Order(Order::Seize(&[1]));
    let none_open = Err(Fault::Refused(Refusal::NoneOpen));
    assert_eq!(rt; look_at_answer(seize, true, Ok(2)), None);
    assert_eq!(rt; look_at_answer(seize, false, none_open), None);
    assert_eq!(rt;
        look_at_answer(seize, true, none_open),
        Some(Broken::Seizure)
    );
    assert_eq!(rt; look_at_answer(seize, false, Ok(2)), Some(Broken::Seizure));
    let choice = Err(Fault::Refused(Refusal::Choice));
    assert_eq!(rt; look_at_answer(seize, true, choice), Some(Broken::Seizure));
    assert_eq!(rt; look_at_answer(seize, false, choice), Some(Broken::Seizure));
    let address = Err(Fault::Refused(Refusal::Address));
    assert_eq!(rt;
        look_at_answer(Step::Receive, true, address),
        Some(Broken::Message)
    );
    assert_eq!(rt;
        look_at_answer(Step::Receive, true, Err(Fault::Empty)),
        None
    );
}
