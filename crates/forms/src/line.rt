//! Lines by their first word.

ghost use Rattle.forms.specs.Words.{Classified};

/// A line of each kind, with the text that follows its word and a space.
#[derive(Clone, Copy)]
pub enum Line<'a> {
    Contents(&'a [u8]),
    Piece(&'a [u8]),
    Before(&'a [u8]),
    Wall(&'a [u8]),
}

/// The line by its first word; nothing where it begins with none of them.
pub fn classify(body: &[u8]) -> Option<Line<'_>>
    ensures { Classified body.now result }
{
    match body {
        [b's', b'h', b'e', b'e', b't', b' ', text @ ..] => Some(Line::Contents(text)),
        [b'p', b'i', b'e', b'c', b'e', b' ', text @ ..] => Some(Line::Piece(text)),
        [b'b', b'e', b'f', b'o', b'r', b'e', b' ', text @ ..] => Some(Line::Before(text)),
        [b'w', b'a', b'l', b'l', b' ', text @ ..] => Some(Line::Wall(text)),
        _ => None,
    }
}
