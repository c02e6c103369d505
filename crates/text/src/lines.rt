//! Lines of a text.

ghost use Rattle.std.specs.Prelude.{◌≡◌, [], ◌∷◌, MatchOption, is_some};
ghost use Rattle.text.specs.Lines.{line, lines as lines_of, bytes_readable};
ghost use Rattle.text.specs.Split.{lines_after};

use crate::bytes::all_within;
use crate::split::split_at_first;

/// A line may have this many bytes, its line feed left out.
pub const MAX_LINE: usize = 96;

/// Takes the first line off: the line, and what follows its line feed, if it has ended. Nothing where the text is empty.
pub fn split_line(text: &[u8]) -> Option<(&[u8], Option<&[u8]>)>
    ensures { MatchOption result (lines_of text.now ≡ []) (λ s. lines_of text.now ≡ line s.0.now (is_some s.1) ∷ lines_after s.1) }
{
    if text.is_empty() {
        return None;
    }
    Some(split_at_first(text, b'\n'))
}

/// Whether a line is short enough and has only bytes 32 to 126.
pub fn is_readable(bytes: &[u8]) -> bool
    ensures { result ≡ bytes_readable bytes.now }
{
    bytes.len() <= MAX_LINE && all_within(bytes, b' ', b'~')
}
