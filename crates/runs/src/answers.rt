//! What the result of a call is as an answer.
ghost use Rattle.std.specs.Prelude.{◌≡◌};
ghost use Rattle.inventory.specs.Answers.{judged_answer, number_answer, plain_answer};
ghost use Rattle.runs.specs.Calls.{answer_of};

use crate::calls::Answer;
use lattice::Refusal;
use policy::Verdict;

impl From<Result<(), Refusal>> for Answer {
    ghost from_gives = { λ outcome answer. answer_of answer ≡ plain_answer outcome };

    fn from(outcome: Result<(), Refusal>) -> Answer {
        outcome.map_or_else(Answer::Refused, |()| Answer::Done)
    }
}

impl From<Result<usize, Refusal>> for Answer {
    ghost from_gives = { λ outcome answer. answer_of answer ≡ number_answer outcome };

    fn from(outcome: Result<usize, Refusal>) -> Answer {
        outcome.map_or_else(Answer::Refused, Answer::Numbered)
    }
}

impl From<Result<Verdict, Refusal>> for Answer {
    ghost from_gives = { λ outcome answer. answer_of answer ≡ judged_answer outcome };

    fn from(outcome: Result<Verdict, Refusal>) -> Answer {
        outcome.map_or_else(Answer::Refused, Answer::Judged)
    }
}
