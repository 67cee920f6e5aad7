// A line from one exchange to the other.
ghost use Rattle.std.specs.Prelude.{◌≡◌, length};
ghost use Rattle.std.specs.List.{sum};

/// Messages in the order that they were sent, the front one first.
#[derive(Drop)]
pub struct Line {
    // their octets in a row
    pub(crate) octets: Vec<u8>,
    // the size of each
    pub(crate) sizes: Vec<usize>,
    ghost fits: { sum sizes.items ≡ length octets.items },
}
