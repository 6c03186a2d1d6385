// What a call came to, as document 01's numbers.
ghost use Rattle.std.specs.Prelude.{◌≡◌, Ok, Err};
ghost use Rattle.call.specs.Outcomes.{numbers_of};
ghost use Rattle.test_runs.specs.Told.{call_of, told};

use call::{NoAnswer, Outcome, Verdict};
use status::Status;

// The numbers of a call, in document 01's order; of a status, the verdict stands in the root's place. They stay numbers: a list gives what
// is expected as numbers, and the whole answer is compared with it.
#[derive(Clone, Copy, PartialEq, Eq, Default)]
pub struct Call {
    pub number: usize,
    pub place: usize,
    pub root: usize,
    pub steps: usize,
    pub indices: usize,
    pub formulas: usize,
    pub terms: usize,
}

pub const NO_CALL: Call = Call {
    number: 0,
    place: 0,
    root: 0,
    steps: 0,
    indices: 0,
    formulas: 0,
    terms: 0,
};

#[tactic(auto, unfolding(call::specs::Outcomes::numbers_of))]
fn missed(answer: NoAnswer) -> Call
    ensures { result ≡ call_of (numbers_of (Err answer)) }
{
    match answer {
        NoAnswer::Short { limit, steps } => Call {
            number: limit.number(),
            steps,
            ..NO_CALL
        },
        NoAnswer::Refused(refusal) => Call {
            number: refusal.number(),
            place: refusal.place(),
            ..NO_CALL
        },
    }
}

// Of a search.
#[tactic(auto, unfolding(call::specs::Outcomes::numbers_of))]
pub fn of_outcome(outcome: Outcome) -> Call
    ensures { result ≡ call_of (numbers_of outcome) }
{
    match outcome {
        Ok(Verdict::Proved { root, used }) => Call {
            root,
            steps: used.steps,
            indices: used.indices,
            formulas: used.formulas,
            terms: used.terms,
            ..NO_CALL
        },
        Ok(Verdict::Unprovable(used)) => Call {
            steps: used.steps,
            indices: used.indices,
            formulas: used.formulas,
            terms: used.terms,
            ..NO_CALL
        },
        Err(answer) => missed(answer),
    }
}

// Of a status: 1 Solvable, 2 Unsolvable, 3 Unknown.
pub fn of_status(status: Result<Status, NoAnswer>) -> Call
    ensures { result ≡ told status }
{
    match status {
        Ok(Status::Solvable) => Call { root: 1, ..NO_CALL },
        Ok(Status::Unsolvable) => Call { root: 2, ..NO_CALL },
        Ok(Status::Unknown) => Call { root: 3, ..NO_CALL },
        Err(answer) => missed(answer),
    }
}
