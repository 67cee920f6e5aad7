// Steps of two exchanges, as they are written on a line.
use interworking::{Side, Step};
use message::CallKind;
use status::Cic;
use std::alloc::{AllocError, Global};
use terminal::{
    Expiry, Method, Operation, decimal, decimal_cic, read_equipment, read_expiry, read_method,
    read_octets, read_operation, words_of,
};

// Two exchanges to open.
#[derive(Drop)]
pub struct Opening {
    pub first: Cic,
    // whether the near one has the higher point code
    pub higher: bool,
    // how each selects its circuits
    pub near: Method,
    pub far: Method,
    // a word for each PCM system
    pub equipment: Vec<u32>,
}

// What an exchange is to do, with a body of its own.
#[derive(Drop)]
pub enum Deed {
    Order(Operation),
    Expire(Expiry),
    Receive,
    Call(CallKind, Cic, Vec<u8>),
}

impl Deed {
    pub fn as_step(&self) -> Step<'_> {
        match self {
            Deed::Order(operation) => Step::Order(operation.as_order()),
            Deed::Expire(expiry) => Step::Expire {
                timer: expiry.timer,
                at: expiry.at,
                kind: expiry.kind,
            },
            Deed::Receive => Step::Receive,
            Deed::Call(kind, cic, body) => Step::Call {
                cic: *cic,
                kind: *kind,
                body: body.as_slice(),
            },
        }
    }
}

#[derive(Drop)]
pub enum Command {
    Open(Opening),
    Step(Side, Deed),
    // receive until both lines are empty
    Settle,
    // both ends of a circuit
    Show(Cic),
    // steps by chance, from a seed
    Run { seed: u64, steps: u32 },
}

// The command of a line, or `None` where there is no such command.
pub fn read_command(heap: Global, line: &[u8]) -> Result<Option<Command>, AllocError> {
    let words = words_of(heap, line)?;
    match words.as_slice() {
        [b"open", first, side, near, far, equipment @ ..] => {
            let equipment = read_equipment(heap, equipment)?;
            Ok(equipment.and_then(|equipment| make_opening(first, side, near, far, equipment)))
        }
        [b"near", deed @ ..] => Ok(read_deed(heap, deed)?.map(|deed| Command::Step(
            Side::Near,
            deed,
        ))),
        [b"far", deed @ ..] => Ok(read_deed(heap, deed)?.map(|deed| Command::Step(
            Side::Far,
            deed,
        ))),
        [b"settle"] => Ok(Some(Command::Settle)),
        [b"run", seed, steps] => Ok(read_run(seed, steps)),
        [b"show", cic] => Ok(decimal_cic(cic).map(Command::Show)),
        _ => Ok(None),
    }
}

fn read_run(seed: &[u8], steps: &[u8]) -> Option<Command> {
    Some(Command::Run {
        seed: decimal(seed)?,
        steps: u32::try_from(decimal(steps)?).ok()?,
    })
}

fn make_opening(
    first: &[u8],
    side: &[u8],
    near: &[u8],
    far: &[u8],
    equipment: Vec<u32>,
) -> Option<Command> {
    let higher = match side {
        b"near" => true,
        b"far" => false,
        _ => return None,
    };
    Some(Command::Open(Opening {
        first: decimal_cic(first)?,
        higher,
        near: read_method(near)?,
        far: read_method(far)?,
        equipment,
    }))
}

fn read_deed(heap: Global, words: &[&[u8]]) -> Result<Option<Deed>, AllocError> {
    match words {
        [b"expire", numbers @ ..] => Ok(read_expiry(numbers).map(Deed::Expire)),
        [b"receive"] => Ok(Some(Deed::Receive)),
        [b"call", kind, cic, body @ ..] => {
            let body = read_octets(heap, body)?;
            Ok(body.and_then(|body| read_call(kind, cic, body)))
        }
        others => Ok(read_operation(heap, others)?.map(Deed::Order)),
    }
}

fn read_call(kind: &[u8], cic: &[u8], body: Vec<u8>) -> Option<Deed> {
    let kind = match kind {
        b"IAM" => CallKind::Iam,
        b"ACM" => CallKind::Acm,
        b"CON" => CallKind::Con,
        b"ANM" => CallKind::Anm,
        b"CPG" => CallKind::Cpg,
        _ => return None,
    };
    Some(Deed::Call(kind, decimal_cic(cic)?, body))
}
