#![tactic(auto)]
// All of the one public call but its search: the refusals 1 to 5, the limits, the assumptions' Idents and the first sequent, and at the
// end the clears and the numbers that come back. What is `pub` here is for the public call: a `requires` is what it shows before it calls.
ghost use Rattle.std.specs.Prelude.{◌≡◌, ◌&&◌, ◌≤◌, length, take, replicate, Err};
ghost use Rattle.theory.specs.NameText.{padded};
ghost use Rattle.theory.specs.Refusal.{formula_sizes, term_sizes, work_sizes};
ghost use Rattle.theory.specs.Call.{refusal};
ghost use Rattle.refusal.specs.Table.{refused_by};
ghost use Rattle.context.specs.Area.{zeroed};
ghost use Rattle.search_laws.specs.Reading.{put_nodes};
ghost use Rattle.call.specs.Lent.{claim_of, later_refusal, limits_for};
ghost use Rattle.call.specs.Start.{first_sequent, idents_from, seated};
ghost use Rattle.call.specs.Outcomes.{numbers_of, words_kept, numbers_kept, outcome_for, keeps};

use context::Record;
use meter::{Answer, Found, Limit, Limits, Missed, Sequent, State};
use proof_term::Node;
use refusal::Refusal;

// What a search comes to that was let through and had room (document 01, "Numbers that come back").
#[derive(Clone, Copy, PartialEq, Eq)]
pub enum Verdict {
    // a derivation was found: its root, and what the search has used and left
    Proved { root: usize, used: State },
    // there is none: what the search has used; the fills are those on entry
    Unprovable(State),
}

// Why there is no verdict.
#[derive(Clone, Copy, PartialEq, Eq)]
pub enum NoAnswer {
    // a limit would be passed, and the steps entered
    Short { limit: Limit, steps: usize },
    // the input breaks what is asked of it
    Refused(Refusal),
}

// What comes back.
pub type Outcome = Result<Verdict, NoAnswer>;

impl From<Refusal> for NoAnswer {
    ghost use Rattle.call.specs.declared.NoAnswer.TheVariants.{Refused};

    ghost from_gives = { λ refusal answer. answer ≡ Refused refusal };

    fn from(refusal: Refusal) -> NoAnswer {
        NoAnswer::Refused(refusal)
    }
}

impl NoAnswer {
    // The number of document 01's table.
    #[tactic(auto, unfolding(crate::specs::Outcomes::numbers_of))]
    pub fn number(self) -> usize
        ensures { result ≡ (numbers_of (Err self)).number }
    {
        match self {
            NoAnswer::Short { limit, .. } => limit.number(),
            NoAnswer::Refused(refusal) => refusal.number(),
        }
    }

    // The place of what is refused; 0 for a shortage.
    #[tactic(auto, unfolding(crate::specs::Outcomes::numbers_of))]
    pub fn place(self) -> usize
        ensures { result ≡ (numbers_of (Err self)).place }
    {
        match self {
            NoAnswer::Short { .. } => 0,
            NoAnswer::Refused(refusal) => refusal.place(),
        }
    }

    // The steps entered; none where the input is refused.
    #[tactic(auto, unfolding(crate::specs::Outcomes::numbers_of))]
    pub fn steps(self) -> usize
        ensures { result ≡ (numbers_of (Err self)).steps }
    {
        match self {
            NoAnswer::Short { steps, .. } => steps,
            NoAnswer::Refused(_) => 0,
        }
    }
}

// 1: every size.
fn right_sizes(room: usize, count: usize, numbers: usize, records: usize, steps: usize) -> bool
    ensures { result ≡ formula_sizes room count && (term_sizes numbers && work_sizes records steps) }
{
    refusal::formula_sizes(room, count)
        && refusal::term_sizes(numbers)
        && refusal::work_sizes(records, steps)
}

// 3 to 5, in that order. A test gives a place: `Option` has no method that makes it an error, and a `map_or` for each is no plainer.
#[tactic(auto, unfolding(crate::specs::Lent::later_refusal, theory::specs::Refusal::or_else, theory::specs::Refusal::fault_at))]
fn later_refusal(count: usize, assumed: &[u16], names: &[u8], goal: usize) -> Result<(), Refusal>
    ensures { refused_by result ≡ later_refusal count assumed.now names.now goal }
{
    if let Some(place) = refusal::bad_assumption(assumed, count) {
        return Err(Refusal::BadAssumption(place));
    }
    if let Some(place) = refusal::bad_name(names, assumed.len()) {
        return Err(Refusal::BadNames(place));
    }
    if let Some(place) = refusal::bad_goal(count, goal) {
        return Err(Refusal::BadGoal(place));
    }
    Ok(())
}

// 1 to 5, in that order. No struct holds what is lent: `prove::prove` keeps its separate slices, which are its public contract, and lends
// them on.
pub fn test_claim(
    words: &[u32],
    count: usize,
    assumed: &[u16],
    names: &[u8],
    goal: usize,
    terms: &[u16],
    records: usize,
    steps: usize,
) -> Result<(), Refusal>
    ensures { refused_by result ≡ refusal
        (claim_of words.now count assumed.now names.now goal terms.now records steps) }
{
    if !right_sizes(words.len(), count, terms.len(), records, steps) {
        return Err(Refusal::Sizes);
    }
    // A test gives a place: `Option` has no method that makes it an error, and a `map_or` for it is no plainer.
    if let Some(place) = refusal::bad_word(words, count) {
        return Err(Refusal::BadFormula(place));
    }
    later_refusal(count, assumed, names, goal)
}

// What the search may use of a formula slice of `room` words, a term slice of so many numbers and a work area of so many records. The
// highest level is 0 for a work area that is refused, as theory's `or_zero` has it.
#[tactic(auto, unfolding(theory::specs::Call::or_zero))]
pub fn limits(room: usize, numbers: usize, records: usize, steps: usize) -> Limits
    ensures { result ≡ limits_for room numbers records steps }
{
    Limits {
        steps,
        formulas: room,
        terms: numbers / proof_term::WIDTH,
        levels: refusal::highest_level(records).unwrap_or(0),
    }
}

// An Ident for each assumption in order, all pushed on the ordered context of level 0; the first sequent.
pub fn assume(terms: &mut [u16], work: &mut [Record], assumed: &[u16], goal: usize) -> Sequent
    requires { length assumed.now ≤ 64 }
    ensures result { result ≡ first_sequent (length assumed.now) goal }
    ensures terms { terms.new ≡ put_nodes terms.old 0 (idents_from 0 assumed.now) }
    ensures work { work.new ≡ seated 0 assumed.now work.old }
{
    let mut sequent = Sequent {
        level: 0,
        unordered: 0,
        ordered: 0,
        goal,
    };
    for (i, formula) in assumed.iter().enumerate() {
        proof_term::put(terms, i, Node::Ident(i));
        sequent = context::push(work, sequent, usize::from(*formula), i);
    }
    sequent
}

// How many formula words stay after an answer.
#[tactic(auto, unfolding(crate::specs::Outcomes::words_kept))]
fn words_kept(count: usize, answer: Answer) -> usize
    ensures { result ≡ words_kept count answer }
{
    match answer {
        Ok(found) => found.state.formulas,
        Err(_) => count,
    }
}

// How many term numbers stay after an answer.
#[tactic(auto, unfolding(crate::specs::Outcomes::numbers_kept))]
fn numbers_kept(answer: Answer) -> usize
    requires { keeps answer }
    ensures { result ≡ numbers_kept answer }
{
    match answer {
        Ok(found) => found.state.terms * proof_term::WIDTH,
        Err(_) => 0,
    }
}

// The numbers that come back after an answer.
#[tactic(auto, unfolding(crate::specs::Outcomes::outcome_for))]
fn outcome_for(count: usize, answer: Answer) -> Outcome
    ensures { result ≡ outcome_for count answer }
{
    match answer {
        Ok(Found { node: root, state }) => Ok(Verdict::Proved { root, used: state }),
        Err(Missed::Failed(state)) => Ok(Verdict::Unprovable(State {
            formulas: count,
            terms: 0,
            ..state
        })),
        Err(Missed::Short(limit, state)) => Err(NoAnswer::Short {
            limit,
            steps: state.steps,
        }),
    }
}

// The end of a call that was not refused: what lies above the fills and every work record become zero.
pub fn closing(
    words: &mut [u32],
    terms: &mut [u16],
    work: &mut [Record],
    count: usize,
    answer: Answer,
) -> Outcome
    requires { keeps answer }
    ensures result { result ≡ outcome_for count answer }
    ensures words { words.new ≡ padded (length words.old) (take (words_kept count answer) words.old) }
    ensures terms { terms.new ≡ padded (length terms.old) (take (numbers_kept answer) terms.old) }
    ensures work { work.new ≡ replicate (length work.old) zeroed }
{
    formula::clear(words, words_kept(count, answer));
    proof_term::clear(terms, numbers_kept(answer));
    context::clear(work);
    outcome_for(count, answer)
}
