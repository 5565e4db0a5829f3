//! The text on what comes of a book and a question.

ghost use Rattle.std.specs.Prelude.{◌≡◌, take, IfOk, string_bytes};
ghost use Rattle.splitting.specs.Score.{Score};
ghost use Rattle.report.specs.Outcomes.{refused_by, answer_text, outcome_text, text_by};
ghost use Rattle.report.specs.Wording.{found_text};

use super::wording::found_text;
use book::{Refusal, refused_line};
use finder::{Outcome, Told};
use splitting::{Answer, Piece};
use std::alloc::{AllocError, Global};

// The refusal in an outcome.
pub(crate) fn refusal_of<S, P, R>(outcome: &Outcome<S, P, R>) -> Option<Refusal>
    ensures { result ≡ refused_by outcome.now }
{
    match outcome {
        Outcome::Refused(refusal) => Some(*refusal),
        _ => None,
    }
}

// What is found, by the first pieces of a list.
fn front_text(heap: Global, shift: i32, count: usize, list: &[Piece]) -> Result<String, AllocError>
    ensures { IfOk result (λ t. (score : Score) → string_bytes t ≡ found_text score shift (take count list.now)) }
{
    found_text(heap, shift, &list[..count.min(list.len())])
}

fn answer_text<P>(heap: Global, told: &Told<P>) -> Result<String, AllocError>
    ensures { IfOk result (λ t. (score : Score) → string_bytes t ≡ answer_text score told.now.answer told.now.list.items) }
{
    match &told.answer {
        Answer::None => String::from_str(heap, "none\n"),
        Answer::Found(found) => front_text(heap, found.shift, found.count, told.list.as_slice()),
    }
}

fn outcome_text<S, P, R>(heap: Global, outcome: &Outcome<S, P, R>) -> Result<String, AllocError>
    ensures { IfOk result (λ t. (score : Score) → string_bytes t ≡ outcome_text score outcome.now) }
{
    match outcome {
        Outcome::Refused(refusal) => refused_line(heap, *refusal),
        Outcome::First(told) => answer_text(heap, told),
        Outcome::Second(told) => answer_text(heap, told),
        _ => String::from_str(heap, ""),
    }
}

// The text on a filling, by its refusal, and on a question.
pub(crate) fn text_by<S, P, R>(
    heap: Global,
    filling: Option<Refusal>,
    question: &Outcome<S, P, R>,
) -> Result<String, AllocError>
    ensures { IfOk result (λ t. (score : Score) → string_bytes t ≡ text_by score filling question.now) }
{
    match filling {
        Some(refusal) => refused_line(heap, refusal),
        None => outcome_text(heap, question),
    }
}
