//! What a picture is drawn of.

ghost use Rattle.rule.specs.Subjects.{Suits};

use rule::interface::Rule;
use rule::subject::Subject;

/// A piece of a board, and the rule that is asked about it.
#[derive(Drop)]
pub struct Canvas<'a, R: Rule> {
    pub rule: &'a R,
    pub subject: Subject<'a>,
    pub ghost suits: { Suits (R.suited rule.now) subject },
}
