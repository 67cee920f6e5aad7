// Lines that ask for nothing.
ghost use Rattle.std.specs.Prelude.{◌≡◌, ℕ, ◌<◌, length, MatchBool, ◌==◌, ◌≢◌, slice_index};

/// Whether a line has nothing but spaces.
pub fn is_blank(text: &[u8]) -> bool
    ensures { MatchBool result ((k : ℕ) → k < length text.now → slice_index text.now k ≡ 32)
        ((k : ℕ) × (k < length text.now) × (slice_index text.now k ≢ 32)) }
{
    text.iter().all(|byte| *byte == b' ')
}

/// Whether a line is a comment.
pub fn is_remark(text: &[u8]) -> bool
    ensures { result ≡ (slice_index text.now 0 == 35) }
{
    text.first() == Some(&b'#')
}
