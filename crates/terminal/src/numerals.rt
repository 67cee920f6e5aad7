// Numbers as they are written in orders, which are cut into words first. Each kind is one
// conversion of the library, so a generic one would save nothing.
ghost use Rattle.std.specs.Prelude.{◌≡◌, ◌^◌, ◌<◌, ◌≤◌, length};
ghost use Rattle.std.specs.Option.{SomeIff};
ghost use Rattle.std.specs.Str.Parse.{IsNumeral, digits_value};

use status::Cic;

// The number that a word of digits writes, without any sign.
fn number(word: &[u8], radix: u32) -> Option<u64>
    requires low { 2 ≤ radix }
    requires high { radix ≤ 36 }
    ensures { SomeIff result (IsNumeral radix word.now × (digits_value radix word.now < 2 ^ 64))
        (digits_value radix word.now) }
{
    if word.starts_with(b"+") {
        return None;
    }
    let Ok(text) = std::str::from_utf8(word) else {
        return None;
    };
    u64::from_str_radix(text, radix).ok()
}

/// A decimal number below 2^64.
pub fn decimal(word: &[u8]) -> Option<u64>
    ensures { SomeIff result (IsNumeral 10 word.now × (digits_value 10 word.now < 2 ^ 64))
        (digits_value 10 word.now) }
{
    number(word, 10)
}

/// A decimal number below 256.
pub fn decimal_octet(word: &[u8]) -> Option<u8>
    ensures { SomeIff result (IsNumeral 10 word.now × (digits_value 10 word.now < 2 ^ 8))
        (digits_value 10 word.now) }
{
    u8::try_from(decimal(word)?).ok()
}

/// A CIC, decimal and below 2^16.
pub fn decimal_cic(word: &[u8]) -> Option<Cic>
    ensures { SomeIff result (IsNumeral 10 word.now × (digits_value 10 word.now < 2 ^ 16))
        (record { 0 = digits_value 10 word.now }) }
{
    Some(Cic(u16::try_from(decimal(word)?).ok()?))
}

/// A mask or an equipment word: 1 to 8 hexadecimal digits.
pub fn hex_word(word: &[u8]) -> Option<u32>
    ensures { SomeIff result (IsNumeral 16 word.now × (length word.now ≤ 8))
        (digits_value 16 word.now) }
{
    if word.len() > 8 {
        return None;
    }
    u32::try_from(number(word, 16)?).ok()
}

/// An octet: two hexadecimal digits.
pub fn hex_octet(word: &[u8]) -> Option<u8>
    ensures { SomeIff result (IsNumeral 16 word.now × (length word.now ≡ 2))
        (digits_value 16 word.now) }
{
    if word.len() != 2 {
        return None;
    }
    u8::try_from(number(word, 16)?).ok()
}
