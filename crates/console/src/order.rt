// Orders to the console, as they are written on a line.
use status::Cic;
use std::alloc::{AllocError, Global};
use terminal::{Input, Method, decimal_cic, read_equipment, read_input, read_method, words_of};

// A trunk to open.
#[derive(Drop)]
pub struct Opening {
    pub first: Cic,
    // whether our point code is the higher one
    pub higher: bool,
    pub method: Method,
    // a word for each PCM system
    pub equipment: Vec<u32>,
}

#[derive(Drop)]
pub enum Order {
    Open(Opening),
    Show(Cic),
    Operate(Input),
}

// The order of a line, or `None` where there is no such order.
pub(crate) fn read_order(heap: Global, line: &[u8]) -> Result<Option<Order>, AllocError> {
    let words = words_of(heap, line)?;
    match words.as_slice() {
        [b"open", first, side, method, equipment @ ..] => {
            read_opening(heap, first, side, method, equipment)
        }
        [b"show", cic] => Ok(read_show(cic)),
        others => Ok(read_input(heap, others)?.map(Order::Operate)),
    }
}

fn read_show(cic: &[u8]) -> Option<Order> {
    Some(Order::Show(decimal_cic(cic)?))
}

fn read_opening(
    heap: Global,
    first: &[u8],
    side: &[u8],
    method: &[u8],
    words: &[&[u8]],
) -> Result<Option<Order>, AllocError> {
    let (Some(first), Some(higher), Some(method)) = (
        decimal_cic(first),
        read_side(side),
        read_method(method),
    ) else {
        return Ok(None);
    };
    Ok(read_equipment(heap, words)?.map(|equipment| Order::Open(Opening {
        first,
        higher,
        method,
        equipment,
    })))
}

// Whether our point code is the higher one.
fn read_side(side: &[u8]) -> Option<bool> {
    match side {
        b"higher" => Some(true),
        b"lower" => Some(false),
        _ => None,
    }
}
