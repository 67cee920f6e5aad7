// The cause of a release.
ghost use Rattle.std.specs.Prelude.{◌≡◌};
ghost use Rattle.message.specs.Causes.{location_in, value_in};

/// The cause octets of a release, a part of the octets that were read. Of a message that was read they are two, and
/// writing refuses any other number.
#[derive(Clone, Copy)]
pub struct Cause<'a>(pub &'a [u8]);

impl Cause<'_> {
    /// Where the call was released, 0 to 15: the low four bits of the first octet. `None` where there is none.
    pub fn location(self) -> Option<u8>
        ensures { result ≡ location_in self.entry.0.now }
    {
        self.0.first().map(|octet| octet % 16)
    }

    /// Why, 0 to 127: the low seven bits of the second octet. `None` where there is none.
    pub fn value(self) -> Option<u8>
        ensures { result ≡ value_in self.entry.0.now }
    {
        self.0.get(1).map(|octet| octet % 128)
    }
}
