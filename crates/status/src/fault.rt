// What can be wrong with a parameter.
use std::error::Error;
use std::fmt;

/// What is wrong with a parameter of a message. Each case carries the message's type octet as a number, which `From`
/// takes up to the message's fault.
#[derive(Clone, Copy, PartialEq, Eq, Debug)]
pub enum ParamFault {
    /// The length, the end or the size of the status is not what the range asks for.
    Layout(u8),
    /// The range or the number of set bits is outside its limits.
    Limit(u8),
}

impl fmt::Display for ParamFault {
    fn fmt<W: fmt::Write>(&self, f: &mut fmt::Formatter<W>) -> fmt::Result {
        match self {
            ParamFault::Layout(octet) => write!(
                f,
                "in type {octet:02X} the length, the end or the size of the status \
                 is not what the range asks for"
            ),
            ParamFault::Limit(octet) => write!(
                f,
                "in type {octet:02X} the range or the number of set bits is outside its limits"
            ),
        }
    }
}

impl Error for ParamFault {}
