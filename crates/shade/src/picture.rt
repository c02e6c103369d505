//! Writing a picture of each piece's origins, `#` shut and `.` free.

ghost use Rattle.std.specs.Prelude.{◌≡◌, ◌<◌, ◌≤◌, min, [], ◌∷◌, ◌++◌, length, string_bytes, OnOk};
ghost use Rattle.room.specs.Seen.{highs, lows};
ghost use Rattle.rule.specs.Means.{max_listed};
ghost use Rattle.rule.specs.Subjects.{Suits, room_seen};
ghost use Rattle.answer.specs.Answers.{Gives};
ghost use Rattle.shade.specs.Canvas.{SpansAt, WithinAt, boxes_at, breadth_at, origin_at, origins_at, picture_at, piece_at, plane_at, plane_heading_at, room_at, row_at, shut_at};
ghost use Rattle.shade.specs.Picture.{box_text, boxes_text, cells as cells_of, heading_text, letter, ranges_text, shade_text};
ghost use Rattle.shade.specs.Shaded.{shaded};

use crate::canvas::Canvas;
use answer::Unanswered;
use room::piece::Piece;
use room::point::Point;
use room::region::Region;
use room::span::{NO_SPAN, Span};
use rule::interface::{MAX_LISTED, Rule};
use rule::questions::Question;
use rule::subject::Subject;
use std::alloc::Global;
use std::fmt;

/// A picture has this many cells at most.
const MAX_CELLS: usize = 4096;

/// Writes the letter of an origin.
fn put_letter(is_shut: bool, out: &mut String) -> fmt::Result
    ensures { OnOk result (string_bytes out.new ≡ string_bytes out.old ++ letter is_shut ∷ []) }
{
    let letter = if is_shut { '#' } else { '.' };
    write!(out, "{letter}")?;
    Ok(())
}

impl<'a, R: Rule> Canvas<'a, R> {
    /// The ends on an axis; on one that the board does not use there is the one origin 0.
    fn span(&self, axis: usize) -> Span
        ensures { SpansAt self.now axis result.lower result.upper }
    {
        if axis < self.subject.axes {
            self.subject.record().present.spans[axis]
        } else {
            NO_SPAN
        }
    }

    /// How many origins there are on an axis.
    fn breadth(&self, axis: usize) -> usize
        ensures is { result ≡ breadth_at self.now axis }
        ensures small { result ≤ 2000001 }
    {
        let Span { lower, upper } = self.span(axis);
        // casts, here and below: the check proves that the numbers fit
        (upper - lower) as usize + 1
    }

    /// The origin at a number on an axis.
    fn origin(&self, axis: usize, number: usize) -> i32
        requires { number < breadth_at self.now axis }
        ensures { result ≡ origin_at self.now axis number }
    {
        let Span { lower, .. } = self.span(axis);
        lower + number as i32
    }

    // Each number below is bounded on an axis of its own, and each function takes one more of them: a type for each set of
    // them would be longer than the clauses.

    /// The point at these numbers on axes 2, 1 and 0.
    fn point(&self, plane: usize, row: usize, column: usize) -> Point
        requires plane { plane < breadth_at self.now 2 }
        requires row { row < breadth_at self.now 1 }
        requires column { column < breadth_at self.now 0 }
        ensures origins { result.origins ≡ origins_at self.now plane row column }
        ensures within { WithinAt self.now result.origins }
    {
        Point {
            origins: [
                self.origin(0, column),
                self.origin(1, row),
                self.origin(2, plane),
            ],
        }
    }

    /// Whether the rule shuts that point.
    fn is_shut(&self, plane: usize, row: usize, column: usize) -> bool
        requires plane { plane < breadth_at self.now 2 }
        requires row { row < breadth_at self.now 1 }
        requires column { column < breadth_at self.now 0 }
        ensures { result ≡ shut_at self.now R.shut plane row column }
    {
        let point = self.point(plane, row, column);
        self.rule.cover(&self.subject, &point).is_some()
    }

    // A picture's three loops are of one line each, over the numbers of an axis: a function over a closure would be longer.

    /// Writes the origins along axis 0.
    fn put_row(&self, plane: usize, row: usize, out: &mut String) -> fmt::Result
        requires plane { plane < breadth_at self.now 2 }
        requires row { row < breadth_at self.now 1 }
        ensures { OnOk result (string_bytes out.new ≡ string_bytes out.old ++ row_at self.now R.shut plane row) }
    {
        for column in 0..self.breadth(0) {
            put_letter(self.is_shut(plane, row, column), out)?;
        }
        write!(out, "\n")?;
        Ok(())
    }

    /// Writes the origin of a plane; with fewer than three axes there is one plane, and it has no heading.
    fn put_plane_heading(&self, plane: usize, out: &mut String) -> fmt::Result
        requires { plane < breadth_at self.now 2 }
        ensures { OnOk result (string_bytes out.new ≡ string_bytes out.old ++ plane_heading_at self.now plane) }
    {
        if self.subject.axes < 3 {
            return Ok(());
        }
        let origin = self.origin(2, plane);
        write!(out, "plane {origin}\n")?;
        Ok(())
    }

    /// Writes a plane: its heading, and the rows by axis 1.
    fn put_plane(&self, plane: usize, out: &mut String) -> fmt::Result
        requires { plane < breadth_at self.now 2 }
        ensures { OnOk result (string_bytes out.new ≡ string_bytes out.old ++ plane_at self.now R.shut plane) }
    {
        self.put_plane_heading(plane, out)?;
        for row in 0..self.breadth(1) {
            self.put_row(plane, row, out)?;
        }
        Ok(())
    }

    /// Writes the planes by axis 2.
    fn put_picture(&self, out: &mut String) -> fmt::Result
        ensures { OnOk result (string_bytes out.new ≡ string_bytes out.old ++ picture_at self.now R.shut) }
    {
        for plane in 0..self.breadth(2) {
            self.put_plane(plane, out)?;
        }
        Ok(())
    }

    /// Writes the range on each axis of the board, each after a space.
    fn put_ranges(&self, region: &Region, out: &mut String) -> fmt::Result
        ensures { OnOk result (string_bytes out.new ≡ string_bytes out.old ++ ranges_text self.now.subject.axes (lows region.now) (highs region.now)) }
    {
        // by the axis: of a slice of the ranges, this proof does not learn how many there are
        for axis in 0..self.subject.axes {
            let Span { lower, upper } = region.spans[axis];
            write!(out, " {lower}..{upper}")?;
        }
        Ok(())
    }

    /// Writes the box at a number of the rule's list.
    fn put_box(&self, number: usize, out: &mut String) -> fmt::Result
        requires there { number < length (boxes_at self.now R.boxes) }
        requires small { number < max_listed }
        ensures { OnOk result (string_bytes out.new ≡ string_bytes out.old ++ box_text self.now.subject.axes (boxes_at self.now R.boxes) number) }
    {
        let region = self.rule.listed(&self.subject, number);
        write!(out, "box")?;
        self.put_ranges(&region, out)?;
        write!(out, "\n")?;
        Ok(())
    }

    /// How many boxes are written: as many as the rule counts.
    fn box_count(&self) -> usize
        ensures { result ≡ min (length (boxes_at self.now R.boxes)) max_listed }
    {
        self.rule.count(&self.subject).unwrap_or(MAX_LISTED)
    }

    /// Writes the boxes that the rule lists.
    fn put_boxes(&self, out: &mut String) -> fmt::Result
        ensures { OnOk result (string_bytes out.new ≡ string_bytes out.old ++ boxes_text self.now.subject.axes (boxes_at self.now R.boxes)) }
    {
        for number in 0..self.box_count() {
            self.put_box(number, out)?;
        }
        Ok(())
    }

    /// Writes the number of the piece and its ranges.
    fn put_heading(&self, out: &mut String) -> fmt::Result
        ensures { OnOk result (string_bytes out.new ≡ string_bytes out.old ++ heading_text self.now.subject.axes (room_at self.now) self.now.subject.piece) }
    {
        let Subject { piece, .. } = self.subject;
        write!(out, "piece {piece}")?;
        self.put_ranges(&self.subject.record().bounds(), out)?;
        write!(out, "\n")?;
        Ok(())
    }

    /// How many cells a picture has.
    fn cells(&self) -> usize
        ensures { result ≡ cells_of (room_at self.now) self.now.subject.piece }
    {
        self.breadth(0) * self.breadth(1) * self.breadth(2)
    }

    /// Writes a piece: its heading, and its picture, or its boxes where the picture is too large.
    fn put_piece(&self, out: &mut String) -> fmt::Result
        ensures { OnOk result (string_bytes out.new ≡ string_bytes out.old ++ piece_at self.now R.shut R.boxes) }
    {
        self.put_heading(out)?;
        let is_small = self.cells() <= MAX_CELLS;
        if is_small {
            self.put_picture(out)?;
        } else {
            self.put_boxes(out)?;
        }
        Ok(())
    }
}

/// Writes each piece of a board, which any piece of it names.
fn put_pieces<'a, R: Rule>(rule: &'a R, board: &Subject<'a>, out: &mut String) -> fmt::Result
    requires { Suits (R.suited rule.now) board.now }
    ensures { OnOk result (string_bytes out.new ≡ string_bytes out.old ++ shade_text (R.shut rule.now) (R.boxes rule.now) board.now.axes (room_seen board.now)) }
{
    let Subject { axes, records, .. } = *board;
    for piece in 0..records.len() {
        let subject = Subject {
            axes,
            records,
            piece,
        };
        let canvas = Canvas { rule, subject };
        canvas.put_piece(out)?;
    }
    Ok(())
}

/// For each piece of a board its number and ranges, and a picture of its origins, or the boxes that the rule lists where
/// the picture would be too large. The first records are the pieces.
pub fn shade<R: Rule>(
    heap: Global,
    rule: &R,
    axes: usize,
    pieces: usize,
    records: &[Piece],
) -> Result<String, Unanswered>
    ensures { Gives (shaded (R.suited rule.now) (R.shut rule.now) (R.boxes rule.now) axes pieces records.now) result }
{
    let question = Question {
        axes,
        pieces,
        records,
        piece: 0,
    };
    let board = question.subject(rule)?;
    let mut out = String::new(heap);
    put_pieces(rule, &board, &mut out)?;
    Ok(out)
}
