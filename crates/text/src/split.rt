//! A text cut at a byte.

ghost use Rattle.std.specs.Prelude.{◌≡◌, ◌≢◌, ◌∷◌, ◌++◌, MatchOption, All};

/// Cuts a text at the first such byte: what stands before it, and what follows it. Where there is none, all of the text and nothing.
pub fn split_at_first(text: &[u8], byte: u8) -> (&[u8], Option<&[u8]>)
    ensures first { All (λ b. b ≢ byte) result.0.now }
    ensures whole { MatchOption result.1 (text.now ≡ result.0.now) (λ rest. text.now ≡ result.0.now ++ byte ∷ rest.now) }
{
    match text.iter().position(|b| *b == byte) {
        Some(i) => (&text[..i], Some(&text[i + 1..])),
        None => (text, None),
    }
}
