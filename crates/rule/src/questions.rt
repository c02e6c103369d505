//! The questions that an editor may ask of any rule. Each checks what it is given, refuses in a fixed order, and changes
//! nothing.

ghost use Rattle.std.specs.Prelude.{◌≡◌, Some, Option as OptionT, MatchResult};
ghost use Rattle.room.specs.declared.refusal.Refusal.{Refusal as RefusalT};
ghost use Rattle.rule.specs.Questions.{CountAnswer, CoverAnswer, ListedAnswer, Ready, SuitsAnswer, question_refusal};
ghost use Rattle.rule.specs.Refused.{board_range};

use crate::interface::{MAX_LISTED, Rule};
use crate::subject::Subject;
use room::limits::{MAX_AXES, MAX_PIECES};
use room::piece::{Piece, records_fit};
use room::point::Point;
use room::refusal::{Layer, Refusal};
use room::region::Region;

const OUT_OF_RANGE: Refusal = Refusal::OutOfRange { layer: Layer::Rule };

fn is_board_range(axes: usize, pieces: usize) -> bool
    ensures { result ≡ board_range axes pieces }
{
    (1..=MAX_AXES).contains(&axes) && (1..=MAX_PIECES).contains(&pieces)
}

/// Whether the rule suits a board of so many axes and pieces.
pub fn suits<R: Rule>(rule: &R, axes: usize, pieces: usize) -> Result<bool, Refusal>
    ensures { SuitsAnswer (R.suited rule.now) axes pieces result }
{
    if is_board_range(axes, pieces) {
        Ok(rule.suits(axes, pieces))
    } else {
        Err(OUT_OF_RANGE)
    }
}

/// A question about a piece, as it is put: with so many axes, the first `pieces` records are the pieces of the board. Its
/// numbers and records may be anything until they are checked.
#[derive(Clone, Copy)]
pub struct Question<'a> {
    pub axes: usize,
    pub pieces: usize,
    pub records: &'a [Piece],
    pub piece: usize,
}

impl<'a> Question<'a> {
    /// The piece on its board, if the rule may be asked about it: the checks that each of these questions begins with.
    pub fn subject<R: Rule>(&self, rule: &R) -> Result<Subject<'a>, Refusal>
        ensures { MatchResult result (λ s. Ready (R.suited rule.now) self.now s) (λ e. (next : OptionT RefusalT) → question_refusal (R.suited rule.now) self.now next ≡ Some e) }
    {
        let Question {
            axes,
            pieces,
            records,
            piece,
        } = *self;
        if !is_board_range(axes, pieces) {
            return Err(OUT_OF_RANGE);
        }
        if records.len() < pieces {
            return Err(Refusal::MemoryShort { layer: Layer::Rule });
        }
        let board = &records[0..pieces];
        if !records_fit(axes, board) {
            return Err(Refusal::RecordUnfit { layer: Layer::Rule });
        }
        if !rule.suits(axes, pieces) {
            return Err(Refusal::Unsuited);
        }
        if piece >= pieces {
            return Err(OUT_OF_RANGE);
        }
        Ok(Subject {
            axes,
            records: board,
            piece,
        })
    }

    /// Nothing where the point of the piece is not shut, otherwise a box that holds it and in which all is shut.
    pub fn cover<R: Rule>(&self, rule: &R, point: &Point) -> Result<Option<Region>, Refusal>
        ensures { CoverAnswer (R.suited rule.now) (R.shut rule.now) self.now point.now.origins result }
    {
        let subject = self.subject(rule)?;
        if subject.record().bounds().holds(subject.axes, point) {
            Ok(rule.cover(&subject, point))
        } else {
            Err(OUT_OF_RANGE)
        }
    }

    /// How many boxes are listed for the piece.
    pub fn count<R: Rule>(&self, rule: &R) -> Result<usize, Refusal>
        ensures { CountAnswer (R.suited rule.now) (R.shut rule.now) (R.boxes rule.now) self.now result }
    {
        let subject = self.subject(rule)?;
        rule.count(&subject).ok_or(OUT_OF_RANGE)
    }

    /// The box at a number of the list for the piece, from 0.
    pub fn listed<R: Rule>(&self, rule: &R, number: usize) -> Result<Region, Refusal>
        ensures { ListedAnswer (R.suited rule.now) (R.shut rule.now) (R.boxes rule.now) self.now number result }
    {
        let subject = self.subject(rule)?;
        let countable = number < MAX_LISTED;
        if !countable {
            return Err(OUT_OF_RANGE);
        }
        let boxes = rule.count(&subject).unwrap_or(MAX_LISTED);
        let there = number < boxes;
        if !there {
            return Err(Refusal::NotListed);
        }
        Ok(rule.listed(&subject, number))
    }
}
