#![tactic(auto)]
// What a rule tests, writes and moves before one of its premises is asked a level up.
// What is `pub` here is for the crate `prove`: a `requires` is what its code shows before it calls.
// The lent slices stay parameters of their own, as in `search_left`, which says why; and so do a state and a sequent, since a rule changes
// the one and keeps the other.
ghost use Rattle.std.specs.Prelude.{◌≡◌, List, ℕ, ◌+◌, ◌*◌, ◌≤◌, ◌<◌, length, set};
ghost use Rattle.theory.specs.Names.{fresh};
ghost use Rattle.context.specs.Moves.{stretch, upped, without, pushed};
ghost use Rattle.context.specs.Area.{rec, raised, removed, push_place};
ghost use Rattle.search_laws.specs.Reading.{lent, kind_at};
ghost use Rattle.search_laws.specs.Keeping.{Rep};
ghost use Rattle.search_premises.specs.Prepared.{Seated, Supposed, Body, Half, First, Second, Nested};

use context::{Record, STRETCH};
use formula::{left_at, right_at};
use identifier_generator::GENERATED;
use meter::{Limits, Missed, Sequent, State};
use proof_term::Node;

// The premise's state and sequent, or the limit that its charge passes.
pub type Premise = Result<(State, Sequent), Missed>;

// A formula is supposed under the name of index x: its Ident, pushed, and the goal of the premise.
fn suppose(
    terms: &mut [u16],
    work: &mut [Record],
    limits: Limits,
    state: State,
    sequent: Sequent,
    goal: usize,
    formula: usize,
    x: usize,
) -> Premise
    requires seated { Seated limits (length work.old) state sequent }
    requires index { x ≤ 10000 }
    ensures { Supposed limits terms.old work.old state sequent goal formula x result terms.new work.new }
{
    let at = state.terms;
    let used = x + 1;
    let records = sequent.unordered + sequent.ordered + 1;
    state.charge(
        limits,
        used,
        state.formulas,
        at + 1,
        records,
        sequent.level + 1,
    )?;
    proof_term::put(terms, at, Node::Ident(GENERATED + x));
    context::copy_up(work, sequent);
    let next = context::push(work, context::up(sequent, goal), formula, at);
    Ok((state.spend(used, 0, 1), next))
}

// The body of an implication: what is before the arrow is supposed, and the goal is what is after it.
pub fn body(
    words: &[u32],
    terms: &mut [u16],
    work: &mut [Record],
    limits: Limits,
    state: State,
    sequent: Sequent,
    x: usize,
) -> Premise
    requires represented { Rep limits (lent words.now terms.old work.old) state sequent }
    requires goal { kind_at words.now sequent.goal ≡ 5 }
    requires index { x ≤ 10000 }
    ensures { (taken : List (List ℕ)) → x ≡ fresh taken state.indices →
        Body limits (lent words.now terms.old work.old) state sequent x result
        (lent words.now terms.new work.new) }
{
    let a = left_at(words, sequent.goal);
    let goal = right_at(words, sequent.goal);
    suppose(terms, work, limits, state, sequent, goal, a, x)
}

// A half a of the disjunction that is the last ordered record: it is supposed in its place.
pub fn half(
    words: &[u32],
    terms: &mut [u16],
    work: &mut [Record],
    limits: Limits,
    state: State,
    sequent: Sequent,
    a: usize,
    x: usize,
) -> Premise
    requires represented { Rep limits (lent words.now terms.old work.old) state sequent }
    requires half { (0 < sequent.ordered) × (a < state.formulas) × (x ≤ 10000) }
    ensures { (taken : List (List ℕ)) → x ≡ fresh taken state.indices →
        Half limits (lent words.now terms.old work.old) state sequent a x result
        (lent words.now terms.new work.new) }
{
    suppose(
        terms,
        work,
        limits,
        state,
        context::pop(sequent),
        sequent.goal,
        a,
        x,
    )
}

// A formula and its term in the place of unordered record i, a level up, for another goal.
fn replace(
    work: &mut [Record],
    sequent: Sequent,
    i: usize,
    goal: usize,
    formula: usize,
    term: usize,
) -> Sequent
    requires level { (sequent.level < 255) × ((sequent.level + 2) * stretch ≤ length work.old) }
    requires few { (length work.old ≤ 65536) × (sequent.unordered + sequent.ordered ≤ stretch) }
    requires here { i < sequent.unordered }
    ensures result { result ≡ pushed (without (upped sequent goal)) }
    ensures work { work.new ≡ set (removed (raised work.old sequent) (upped sequent goal) i)
        (push_place (without (upped sequent goal))) (rec formula term) }
{
    context::copy_up(work, sequent);
    let rest = context::remove(work, context::up(sequent, goal), i);
    context::push(work, rest, formula, term)
}

// A→B, with B→C in the place of unordered record i, (A→B)→C; x and y are the indices of the two names.
pub fn first(
    words: &mut [u32],
    terms: &mut [u16],
    work: &mut [Record],
    limits: Limits,
    state: State,
    sequent: Sequent,
    i: usize,
    x: usize,
    y: usize,
) -> Premise
    requires represented { Rep limits (lent words.old terms.old work.old) state sequent }
    requires nested { Nested (lent words.old terms.old work.old) sequent i }
    requires indices { (x ≤ y) × (y ≤ 10000) }
    ensures { (taken : List (List ℕ)) → x ≡ fresh taken state.indices → y ≡ fresh taken (x + 1) →
        First limits (lent words.old terms.old work.old) state sequent i x y result
        (lent words.new terms.new work.new) }
{
    let made = state.formulas;
    let at = state.terms;
    let used = y + 1;
    let records = sequent.unordered + sequent.ordered;
    state.charge(limits, used, made + 1, at + 5, records, sequent.level + 1)?;
    let place = sequent.level * STRETCH + i;
    let a = context::formula_at(work, place);
    let goal = left_at(words, a);
    search_left::arrow(words, made, right_at(words, goal), right_at(words, a));
    let arg = Node::Function(GENERATED + y, at);
    search_left::composed(terms, at, x, arg, context::term_at(work, place), made);
    let next = replace(work, sequent, i, goal, made, at + 4);
    Ok((state.spend(used, 1, 5), next))
}

// The old goal, with C in the place of unordered record i, (A→B)→C; j is the node of A→B.
pub fn second(
    words: &[u32],
    terms: &mut [u16],
    work: &mut [Record],
    limits: Limits,
    state: State,
    sequent: Sequent,
    i: usize,
    j: usize,
) -> Premise
    requires represented { Rep limits (lent words.now terms.old work.old) state sequent }
    requires nested { Nested (lent words.now terms.old work.old) sequent i }
    requires proof { j < state.terms }
    ensures { Second limits (lent words.now terms.old work.old) state sequent i j result
        (lent words.now terms.new work.new) }
{
    let at = state.terms;
    let records = sequent.unordered + sequent.ordered;
    state.charge(
        limits,
        state.indices,
        state.formulas,
        at + 1,
        records,
        sequent.level + 1,
    )?;
    let place = sequent.level * STRETCH + i;
    proof_term::put(
        terms,
        at,
        Node::Application(context::term_at(work, place), j),
    );
    let c = right_at(words, context::formula_at(work, place));
    let next = replace(work, sequent, i, sequent.goal, c, at);
    Ok((state.spend(state.indices, 0, 1), next))
}
