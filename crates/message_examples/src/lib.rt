// Worked examples of written messages, and of what faults and refusals say, run as tests.
#![tactic(auto)]

#[cfg(test)]
mod tests {
    use message::{
        BlockType, CallKind, Cause, Grouped, Kind, Message, MessageFault, Single, write,
    };
    use refusal::Refusal;
    use status::{Cic, Group, Range};
    use std::alloc::AllocError;
    use std::process::Abort;
    use std::test::Fail;

    // Writes to an output of octets FF, and compares all of it with the octets expected.
    fn leaves(rt: &impl Abort, message: Message<'_>, expected: [u8; 14]) {
        let mut out = [0xff; 14];
        let _ = write(message, &mut out);
        assert_eq!(rt; out, expected);
    }

    #[test]
    fn circuits(rt: HostRuntime) {
        let f = 0xff;
        leaves(
            &rt,
            Message::Single(Cic(5), Single::Bla),
            [5, 0, 0x15, f, f, f, f, f, f, f, f, f, f, f],
        );
        leaves(
            &rt,
            Message::Single(Cic(4095), Single::Rsc),
            [0xff, 0x0f, 0x12, f, f, f, f, f, f, f, f, f, f, f],
        );
        leaves(
            &rt,
            Message::ReleaseComplete(Cic(6)),
            [6, 0, 0x10, 0, f, f, f, f, f, f, f, f, f, f],
        );
        leaves(
            &rt,
            Message::Release(Cic(6), Cause(&[0x84, 0x90])),
            [6, 0, 0x0c, 2, 0, 2, 0x84, 0x90, f, f, f, f, f, f],
        );
        leaves(
            &rt,
            Message::Call(Cic(6), CallKind::Iam, &[0x0a]),
            [6, 0, 1, 0x0a, f, f, f, f, f, f, f, f, f, f],
        );
    }

    #[test]
    fn groups(rt: HostRuntime) {
        let f = 0xff;
        leaves(
            &rt,
            Message::GroupReset(Cic(1), Range(30)),
            [1, 0, 0x17, 1, 1, 0x1e, f, f, f, f, f, f, f, f],
        );
        let one = Group {
            range: Range(30),
            status: &[4, 0, 0, 0],
        };
        leaves(
            &rt,
            Message::GroupResetAck(Cic(1), one),
            [1, 0, 0x29, 1, 5, 0x1e, 4, 0, 0, 0, f, f, f, f],
        );
        let two = Group {
            range: Range(30),
            status: &[4, 0, 1, 0],
        };
        let cgb = Message::Grouped(Cic(1), Grouped::Cgb, BlockType::Hardware, two);
        leaves(&rt, cgb, [1, 0, 0x18, 1, 1, 5, 0x1e, 4, 0, 1, 0, f, f, f]);
        // the spare bits of the last octet are written 0
        let all = Group {
            range: Range(8),
            status: &[0xff, 0xff],
        };
        let cgua = Message::Grouped(Cic(33), Grouped::Cgua, BlockType::Maintenance, all);
        leaves(&rt, cgua, [33, 0, 0x1b, 0, 1, 3, 8, 0xff, 1, f, f, f, f, f]);
    }

    // Refused with the fault expected, and with nothing written.
    fn refused(rt: &impl Abort, message: Message<'_>, expected: MessageFault) -> Result<(), Fail> {
        let mut out = [0xff; 12];
        match write(message, &mut out) {
            Ok(_) => Err(Fail::new("was written")),
            Err(fault) => {
                assert_eq!(rt; fault, expected);
                assert_eq!(rt; out, [0xff; 12]);
                Ok(())
            }
        }
    }

    #[test]
    fn refusals(rt: HostRuntime) -> Result<(), Fail> {
        refused(
            &rt,
            Message::Call(Cic(6), CallKind::Acm, &[]),
            MessageFault::Layout(0x06),
        )?;
        refused(
            &rt,
            Message::Release(Cic(6), Cause(&[0x84, 0x90, 0])),
            MessageFault::Layout(0x0c),
        )?;
        refused(
            &rt,
            Message::Single(Cic(4096), Single::Blo),
            MessageFault::Limit(0x13),
        )?;
        refused(
            &rt,
            Message::GroupReset(Cic(1), Range(32)),
            MessageFault::Limit(0x17),
        )?;
        Ok(())
    }

    #[test]
    fn group_refusals(rt: HostRuntime) -> Result<(), Fail> {
        let wrong_size = Group {
            range: Range(30),
            status: &[0, 0, 0],
        };
        refused(
            &rt,
            Message::GroupResetAck(Cic(1), wrong_size),
            MessageFault::Layout(0x29),
        )?;
        let many = Group {
            range: Range(32),
            status: &[0xff, 0xff, 0xff, 0xff, 1],
        };
        refused(
            &rt,
            Message::Grouped(Cic(1), Grouped::Cgu, BlockType::Hardware, many),
            MessageFault::Limit(0x19),
        )?;
        // a short output comes before everything else
        let long = Group {
            range: Range(40),
            status: &[0xff, 0xff, 0xff, 0xff, 0xff, 0xff],
        };
        refused(
            &rt,
            Message::Grouped(Cic(4096), Grouped::Cgb, BlockType::Hardware, long),
            MessageFault::NoRoom,
        )
    }

    #[test]
    fn words(rt: HostRuntime) -> Result<(), AllocError> {
        let heap = rt.alloc();
        let layout = MessageFault::Layout(0x18);
        assert_eq!(rt;
            layout.brief().to_string(heap)?.as_str(),
            "refused 6 type=18"
        );
        assert_eq!(rt;
            layout.to_string(heap)?.as_str(),
            "refused 6, CGB (circuit group blocking, type 18): \
             the pointers, the length or the end differ from the layout; \
             or, in writing, the body, the cause or the status has another size"
        );
        let unknown = MessageFault::Unknown(0x2a);
        assert_eq!(rt;
            unknown.to_string(heap)?.as_str(),
            "refused 5, type 2A: the type is not listed"
        );
        let state = Refusal::State;
        assert_eq!(rt; state.brief().to_string(heap)?.as_str(), "refused 10");
        assert_eq!(rt;
            state.to_string(heap)?.as_str(),
            "refused 10: releasing finds no calling or talking call; \
             blocking or unblocking names a circuit with a waiting reset; \
             or a circuit reset finds a group reset"
        );
        let limit = Refusal::Limit(0x29);
        assert_eq!(rt;
            limit.brief().to_string(heap)?.as_str(),
            "refused 7 type=29"
        );
        Ok(())
    }

    // The location and the value of a cause that was read, and of one that is too short.
    #[test]
    fn causes(rt: HostRuntime) {
        let two = Cause(&[0x84, 0x90]);
        assert_eq!(rt; two.location(), Some(4));
        assert_eq!(rt; two.value(), Some(16));
        let one = Cause(&[0x8a]);
        assert_eq!(rt; one.location(), Some(10));
        assert_eq!(rt; one.value(), None);
    }

    #[test]
    fn names(rt: HostRuntime) -> Result<(), AllocError> {
        let kind = Kind::Grouped(Grouped::Cgua);
        assert_eq!(rt; kind.to_string(rt.alloc())?.as_str(), "CGUA");
        assert_eq!(rt; kind.name(), "circuit group unblocking acknowledgement");
        assert_eq!(rt; Kind::Call(CallKind::Iam).name(), "initial address");
        Ok(())
    }
}
