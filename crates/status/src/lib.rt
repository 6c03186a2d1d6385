#![tactic(auto)]
// The status of a formula (the Rust's `get_prop_solvable_status`): a search of the goal, and where that fails and the goal is open, a
// search of its negation.
// The lent slices stay separate parameters. A struct that holds them was tried for the search's rules, and the proof didn't close: after a
// shared read of a `&mut` slice in a field nothing is known of its elements.
// The count, the goal and the steps stay apart as the public call has them: the second search has others of the first two.
ghost use Rattle.std.specs.Prelude.{◌≡◌, ◌+◌, ◌≤◌, ◌<◌, [], map, length, get_or, take, replicate};
ghost use Rattle.std.proofs.Math.Option.{none};
ghost use Rattle.theory.specs.Form.{shape, form, Good};
ghost use Rattle.theory.specs.NameText.{padded};
ghost use Rattle.theory.specs.Call.{refusal};
ghost use Rattle.theory.specs.Status.{open_form, refuted, first_claim, second_outcome};
ghost use Rattle.context.specs.Area.{zeroed};
ghost use Rattle.call.specs.Lent.{claim_of};
ghost use Rattle.call.specs.Outcomes.{outcome_of};
ghost use Rattle.call.specs.Whole.{Called};
ghost use Rattle.status.specs.Marks.{open_by_itself, parts_marked, some_open};
ghost use Rattle.status.specs.Answers.{status_of};
ghost use Rattle.status.specs.Whole.{inquiry_of, failed_status, Answered};

use call::{NoAnswer, Outcome, Verdict};
use context::Record;
use formula::Kind;
use meter::Limit;

// Symbols from here up carry free parameters.
const FIRST_FREE: usize = 8192;

// What the searches of a goal and of its negation tell. No answer is a shortage of either search with that search's steps, or a refusal.
#[derive(Clone, Copy, PartialEq, Eq)]
pub enum Status {
    // the goal has a proof
    Solvable,
    // it has none and is closed, or its negation has one
    Unsolvable,
    // it is open, and neither it nor its negation has one
    Unknown,
}

// Whether a word is a ForAll, an Exists or an atom of a free symbol.
fn open_leaf(word: u32) -> bool
    ensures { result ≡ open_by_itself (shape word) }
{
    match formula::kind_of(word) {
        Kind::True | Kind::False | Kind::And | Kind::Or | Kind::Impl => false,
        Kind::Atom => FIRST_FREE <= formula::left_of(word),
        Kind::ForAll | Kind::Exists | Kind::Unknown(_) => true,
    }
}

// Both parts of formula i are marked, if it has parts.
fn mark_parts(words: &[u32], work: &mut [Record], i: usize)
    ensures { work.new ≡ parts_marked (shape (get_or words.now i 0)) work.old }
{
    if let Kind::And | Kind::Or | Kind::Impl = formula::kind_at(words, i) {
        context::put(work, formula::left_at(words, i), 1, 0);
        context::put(work, formula::right_at(words, i), 1, 0);
    }
}

// Whether one of the marked formulas below `from` is open. It marks their parts on its way down, so that a formula is looked at once,
// however often it occurs.
fn marked_open(words: &[u32], work: &mut [Record], count: usize, from: usize) -> bool
    requires sizes { (from ≤ count) × (count ≤ length words.now) × (count ≤ length work.old) }
    requires good { Good (map shape (take count words.now)) }
    ensures { result ≡ some_open (map shape (take count words.now)) work.old from }
{
    for i in (0..from).rev() {
        if context::formula_at(work, i) != 0 {
            if open_leaf(formula::word(words, i)) {
                return true;
            }
            mark_parts(words, work, i);
        }
    }
    false
}

// Whether a ForAll, an Exists or a free symbol occurs in the goal. The work area, all zero, holds the marks and is cleared again.
fn open_goal(words: &[u32], work: &mut [Record], count: usize, goal: usize) -> bool
    requires sizes { (goal < count) × (count ≤ length words.now) × (count ≤ length work.old) }
    requires good { Good (map shape (take count words.now)) }
    requires work { work.old ≡ replicate (length work.old) zeroed }
    ensures result { result ≡ open_form (form (map shape (take count words.now)) goal) }
    ensures work { work.new ≡ replicate (length work.old) zeroed }
{
    context::put(work, goal, 1, 0);
    let answer = marked_open(words, work, count, goal + 1);
    context::clear(work);
    answer
}

// The status by the second search: a proof refutes the goal, no proof leaves it unknown, and a shortage is told with this search's steps,
// not the sum of both.
#[tactic(auto, unfolding(crate::specs::Answers::status_of, call::specs::Outcomes::outcome_of, theory::specs::Status::refuted))]
fn refuted(second: Outcome) -> Result<Status, NoAnswer>
    ensures { status_of result ≡ refuted (outcome_of second) }
{
    match second? {
        Verdict::Proved { .. } => Ok(Status::Unsolvable),
        Verdict::Unprovable(_) => Ok(Status::Unknown),
    }
}

// Added words and term nodes become zero.
fn clean(words: &mut [u32], terms: &mut [u16], count: usize)
    ensures words { words.new ≡ padded (length words.old) (take count words.old) }
    ensures terms { terms.new ≡ replicate (length terms.old) 0 }
{
    formula::clear(words, count);
    proof_term::clear(terms, 0);
}

// The search of a goal without assumptions.
fn search_goal(
    words: &mut [u32],
    count: usize,
    goal: usize,
    terms: &mut [u16],
    work: &mut [Record],
    steps: usize,
) -> Outcome
    ensures { Called (claim_of words.old count [] [] goal terms.old (length work.old) steps)
        work.old result words.new terms.new work.new }
{
    prove::prove(words, count, &[], &[], goal, terms, work, steps)
}

// False and goal→False are appended, and the second is searched for; no room for them is a shortage before any step.
fn search_negation(
    words: &mut [u32],
    count: usize,
    goal: usize,
    terms: &mut [u16],
    work: &mut [Record],
    steps: usize,
) -> Result<Status, NoAnswer>
    requires passed { refusal (first_claim (inquiry_of words.old count goal terms.old (length work.old) steps)) ≡ none }
    requires work { work.old ≡ replicate (length work.old) zeroed }
    ensures result { status_of result ≡ refuted (second_outcome
        (inquiry_of words.old count goal terms.old (length work.old) steps)) }
    ensures kept { take count words.new ≡ take count words.old }
    ensures work { work.new ≡ replicate (length work.old) zeroed }
{
    if words.len() < count + 2 {
        return Err(NoAnswer::Short {
            limit: Limit::Formulas,
            steps: 0,
        });
    }
    formula::store(words, count, formula::pack(Kind::False, 0, 0));
    formula::store(words, count + 1, formula::pack(Kind::Impl, goal, count));
    refuted(search_goal(words, count + 2, count + 1, terms, work, steps))
}

// The status of a goal that has no proof: closed, it has none; open, its negation tells.
fn unproved(
    words: &mut [u32],
    count: usize,
    goal: usize,
    terms: &mut [u16],
    work: &mut [Record],
    steps: usize,
) -> Result<Status, NoAnswer>
    requires passed { refusal (first_claim (inquiry_of words.old count goal terms.old (length work.old) steps)) ≡ none }
    requires work { work.old ≡ replicate (length work.old) zeroed }
    ensures result { status_of result ≡ failed_status
        (inquiry_of words.old count goal terms.old (length work.old) steps) }
    ensures kept { take count words.new ≡ take count words.old }
    ensures work { work.new ≡ replicate (length work.old) zeroed }
{
    if open_goal(words, work, count, goal) {
        return search_negation(words, count, goal, terms, work, steps);
    }
    Ok(Status::Unsolvable)
}

// The status of the goal.
pub fn solvable_status(
    words: &mut [u32],
    count: usize,
    goal: usize,
    terms: &mut [u16],
    work: &mut [Record],
    steps: usize,
) -> Result<Status, NoAnswer>
    ensures { Answered (inquiry_of words.old count goal terms.old (length work.old) steps)
        work.old result words.new terms.new work.new }
{
    let status = match search_goal(words, count, goal, terms, work, steps)? {
        Verdict::Proved { .. } => Ok(Status::Solvable),
        Verdict::Unprovable(_) => unproved(words, count, goal, terms, work, steps),
    };
    clean(words, terms, count);
    status
}
