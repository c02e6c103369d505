//! Bytes within a range.

ghost use Rattle.std.specs.Prelude.{◌≡◌};
ghost use Rattle.text.specs.Bytes.{all_within};

/// Whether each byte lies within `low` to `high`.
pub fn all_within(bytes: &[u8], low: u8, high: u8) -> bool
    ensures { result ≡ all_within low high bytes.now }
{
    bytes.iter().all(|b| (low..=high).contains(b))
}
