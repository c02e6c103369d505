//! The answer to a text: another text, or why there is none; and what is printed of it.

#![tactic(auto)]

ghost use Rattle.std.specs.Prelude.{◌≡◌, IfOk, List, Result, string_bytes, ℕ};
ghost use Rattle.room.specs.declared.refusal.Refusal.{Refusal};
ghost use Rattle.answer.specs.Answers.{Gives, printed};
ghost use Rattle.answer.specs.declared.Unanswered.TheVariants.{NoMemory, Refused};

use room::refusal::Refusal;
use std::alloc::{AllocError, Global};
use std::fmt;

/// Why there is no text.
#[derive(Clone, Copy)]
pub enum Unanswered {
    Refused(Refusal),
    NoMemory,
}

impl From<Refusal> for Unanswered {
    ghost from_gives = { λ refusal e. e ≡ Refused refusal };

    fn from(refusal: Refusal) -> Unanswered {
        Unanswered::Refused(refusal)
    }
}

/// A text is written to memory of an allocator, and writing to it fails where memory runs out.
impl From<fmt::Error> for Unanswered {
    ghost from_gives = { λ _ e. e ≡ NoMemory };

    fn from(_: fmt::Error) -> Unanswered {
        Unanswered::NoMemory
    }
}

/// What a program prints: the text, or one line that says why it is refused. It fails only for want of memory.
pub fn printed(heap: Global, answer: Result<String, Unanswered>) -> Result<String, AllocError>
    ensures { (outcome : Result (List ℕ) Refusal) → Gives outcome answer → IfOk result (λ t. string_bytes t ≡ printed outcome) }
{
    match answer {
        Ok(text) => Ok(text),
        Err(Unanswered::Refused(refusal)) => format!(in heap; "{refusal}\n"),
        Err(Unanswered::NoMemory) => Err(AllocError),
    }
}
