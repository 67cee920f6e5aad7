// What an exchange is given: orders of our side, messages from the far exchange, timers that
// expire.
use crate::cutting::read_octets;
use crate::operation::{Expiry, Operation, read_expiry, read_operation};
use exchange::Exchange;
use policy::Policy;
use refusal::Refusal;
use std::alloc::{AllocError, Global};

#[derive(Drop)]
pub enum Input {
    Ordered(Operation),
    /// the octets of a message
    Received(Vec<u8>),
    Expired(Expiry),
}

impl Input {
    /// Gives it to an exchange, which tells then what it did.
    pub fn give<P: Policy>(&self, exchange: &mut Exchange<'_, P>) -> Result<(), Refusal> {
        match self {
            Input::Ordered(operation) => exchange.order(operation.as_order()),
            Input::Received(received) => exchange.receive(received.as_slice()),
            Input::Expired(Expiry { timer, at, kind }) => exchange.expire(*timer, *at, *kind),
        }
    }
}

/// The input that words say, or `None` where they say none.
pub fn read_input(heap: Global, words: &[&[u8]]) -> Result<Option<Input>, AllocError> {
    match words {
        [b"receive", octets @ ..] => Ok(read_octets(heap, octets)?.map(Input::Received)),
        [b"expire", numbers @ ..] => Ok(read_expiry(numbers).map(Input::Expired)),
        others => Ok(read_operation(heap, others)?.map(Input::Ordered)),
    }
}
