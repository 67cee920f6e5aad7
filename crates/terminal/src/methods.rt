// Which open circuit the next call takes.
use policy::End;

#[derive(Clone, Copy)]
pub enum Method {
    /// the one nearest to an end of the table
    OneEnd(End),
    ReleaseOrder,
}

/// The method that a word names.
pub fn read_method(word: &[u8]) -> Option<Method> {
    match word {
        b"low" => Some(Method::OneEnd(End::Low)),
        b"high" => Some(Method::OneEnd(End::High)),
        b"release" => Some(Method::ReleaseOrder),
        _ => None,
    }
}
