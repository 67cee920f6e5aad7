// What either exchange does.
use message::CallKind;
use status::Cic;
use supervision::Order;

/// One of the two exchanges.
#[derive(Clone, Copy, PartialEq, Eq, Debug)]
pub enum Side {
    Near,
    Far,
}

/// What an exchange does next.
#[derive(Clone, Copy)]
pub enum Step<'a> {
    /// an order of the host
    Order(Order<'a>),
    /// a timer expires, at a CIC or a PCM system and of a type as it asks
    Expire {
        timer: u8,
        at: u16,
        kind: u8,
    },
    /// the front message of the other exchange's line
    Receive,
    /// a call message of the host's own, body of one octet or more; refused by 8 for an IAM or an
    /// empty body, by 9 for a CIC that is no circuit
    Call {
        cic: Cic,
        kind: CallKind,
        body: &'a [u8],
    },
}

// What is carried out by the operations of a trunk.
#[derive(Clone, Copy)]
pub(crate) enum Task<'a> {
    Order(Order<'a>),
    Expire { timer: u8, at: u16, kind: u8 },
    // a message from the other exchange
    Receive(&'a [u8]),
}
