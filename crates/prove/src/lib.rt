#![tactic(auto)]
// The search of document 01: right, left and search, which call one another, and the public call. Dyckhoff's weight of the sequent is
// the measure. The lent slices are no part of `Setting`: search_left says why.
// A state and a sequent stay apart too: a rule changes the one and keeps the other.
ghost use Rattle.std.specs.Prelude.{◌≡◌, ◌<◌, length};
ghost use Rattle.theory.specs.NameText.{names_in};
ghost use Rattle.theory.specs.Names.{skipped, fresh};
ghost use Rattle.theory.specs.Meter.{by_right, by_left};
ghost use Rattle.search_laws.specs.Reading.{lent, kind_at, right_at, seq_of};
ghost use Rattle.search_laws.specs.Keeping.{Rep};
ghost use Rattle.search_laws.specs.Meaning.{Meets, Goes, Gives};
ghost use Rattle.search_laws.specs.Parts.{Ranges, Seconds};
ghost use Rattle.search_laws.specs.Turning.{Splits, tries};
ghost use Rattle.search_premises.specs.Prepared.{Nested};
ghost use Rattle.search_premises.specs.Asked.{Raised, HalfOf, Branched, Attempted};
ghost use Rattle.std.proofs.Math.Option.{none};
ghost use Rattle.theory.specs.Call.{refusal};
ghost use Rattle.call.specs.Lent.{claim_of};
ghost use Rattle.call.specs.Start.{Ends};
ghost use Rattle.call.specs.Whole.{Called};

use call::{NoAnswer, Outcome};
use context::Record;
use formula::{Kind, kind_at, left_at, right_at};
use identifier_generator::GENERATED;
use meter::{Answer, Limit, Missed, Next, Sequent, State};
use proof_term::Node;
use search_left::Setting;

// Right: True, And and Impl; all else is left to left. And and Impl are not inlined here, since right's frame stands on the stack at every
// level, whatever its goal.
#[cycle(judgement)]
fn right(
    words: &mut [u32],
    terms: &mut [u16],
    work: &mut [Record],
    setting: &Setting,
    state: State,
    sequent: Sequent,
) -> Answer
    requires represented { Rep setting.now.limits (lent words.old terms.old work.old) state sequent }
    ensures { Meets by_right setting.now.limits (skipped (names_in setting.now.names.now))
        (lent words.old terms.old work.old) state sequent result
        (lent words.new terms.new work.new) }
{
    if setting.limits.steps <= state.steps {
        return Err(Missed::Short(Limit::Steps, state));
    }
    let s = state.counted();
    match kind_at(words, sequent.goal) {
        Kind::True => search_left::close(terms, setting.limits, s, Node::Unit),
        Kind::And => right_and(words, terms, work, setting, s, sequent),
        Kind::Impl => right_impl(words, terms, work, setting, s, sequent),
        _ => left(words, terms, work, setting, s, sequent),
    }
}

// Both premises of a conjunction, and then Pair.
#[cycle(judgement)]
#[inline(never)]
fn right_and(
    words: &mut [u32],
    terms: &mut [u16],
    work: &mut [Record],
    setting: &Setting,
    state: State,
    sequent: Sequent,
) -> Answer
    requires represented { Rep setting.now.limits (lent words.old terms.old work.old) state sequent }
    requires goal { kind_at words.old sequent.goal ≡ 3 }
    ensures { Goes by_right setting.now.limits (skipped (names_in setting.now.names.now))
        (lent words.old terms.old work.old) state sequent result
        (lent words.new terms.new work.new) }
{
    let a = left_at(words, sequent.goal);
    let one = premise(words, terms, work, setting, state, sequent, a)?;
    let b = right_at(words, sequent.goal);
    let two = premise(words, terms, work, setting, one.state, sequent, b)?;
    search_left::close(
        terms,
        setting.limits,
        two.state,
        Node::Pair(one.node, two.node),
    )
}

// Another goal by right, a level up: a premise of a conjunction, a half of a disjunction.
#[cycle(judgement)]
fn premise(
    words: &mut [u32],
    terms: &mut [u16],
    work: &mut [Record],
    setting: &Setting,
    state: State,
    sequent: Sequent,
    goal: usize,
) -> Answer
    requires represented { Rep setting.now.limits (lent words.old terms.old work.old) state sequent }
    requires goal { goal < state.formulas }
    ensures { Raised setting.now.limits (skipped (names_in setting.now.names.now))
        (lent words.old terms.old work.old) state sequent goal result
        (lent words.new terms.new work.new) }
{
    let records = sequent.unordered + sequent.ordered;
    state.charge(
        setting.limits,
        state.indices,
        state.formulas,
        state.terms,
        records,
        sequent.level + 1,
    )?;
    context::copy_up(work, sequent);
    right(
        words,
        terms,
        work,
        setting,
        state,
        context::up(sequent, goal),
    )
}

// The body of an implication, and then Function.
#[cycle(judgement)]
#[inline(never)]
fn right_impl(
    words: &mut [u32],
    terms: &mut [u16],
    work: &mut [Record],
    setting: &Setting,
    state: State,
    sequent: Sequent,
) -> Answer
    requires represented { Rep setting.now.limits (lent words.old terms.old work.old) state sequent }
    requires goal { kind_at words.old sequent.goal ≡ 5 }
    ensures { Goes by_right setting.now.limits (skipped (names_in setting.now.names.now))
        (lent words.old terms.old work.old) state sequent result
        (lent words.new terms.new work.new) }
{
    let x = identifier_generator::fresh(setting.names, state.indices);
    let (s, q) = search_premises::body(words, terms, work, setting.limits, state, sequent, x)?;
    let one = right(words, terms, work, setting, s, q)?;
    search_left::close(
        terms,
        setting.limits,
        one.state,
        Node::Function(GENERATED + x, one.node),
    )
}

// Left goes on by left in a loop, so that a million turns in a row use no stack.
#[cycle(judgement)]
fn left(
    words: &mut [u32],
    terms: &mut [u16],
    work: &mut [Record],
    setting: &Setting,
    state: State,
    sequent: Sequent,
) -> Answer
    requires represented { Rep setting.now.limits (lent words.old terms.old work.old) state sequent }
    ensures { Meets by_left setting.now.limits (skipped (names_in setting.now.names.now))
        (lent words.old terms.old work.old) state sequent result
        (lent words.new terms.new work.new) }
{
    let mut s = state;
    let mut p = sequent;
    loop {
        match search_left::turn(words, terms, work, setting, s, p)? {
            Next::Go(s1, p1) => {
                s = s1;
                p = p1;
            }
            Next::End(found) => return Ok(found),
            Next::Split(s1, p1) => return left_or(words, terms, work, setting, s1, p1),
            Next::Try(s1, p1) => return search(words, terms, work, setting, s1, p1),
        }
    }
}

// Both premises of a disjunction, each with a name of its own, and then Case.
#[cycle(judgement)]
fn left_or(
    words: &mut [u32],
    terms: &mut [u16],
    work: &mut [Record],
    setting: &Setting,
    state: State,
    sequent: Sequent,
) -> Answer
    requires represented { Rep setting.now.limits (lent words.old terms.old work.old) state sequent }
    requires split { Splits (lent words.old terms.old work.old) sequent }
    ensures { Goes by_left setting.now.limits (skipped (names_in setting.now.names.now))
        (lent words.old terms.old work.old) state sequent result
        (lent words.new terms.new work.new) }
{
    let at = context::top(sequent);
    let a = context::formula_at(work, at);
    let h = context::term_at(work, at);
    let x = identifier_generator::fresh(setting.names, state.indices);
    let l = left_at(words, a);
    let one = branch(words, terms, work, setting, state, sequent, l, x)?;
    let y = identifier_generator::fresh(setting.names, one.state.indices);
    let r = right_at(words, a);
    let two = branch(words, terms, work, setting, one.state, sequent, r, y)?;
    let node = Node::Case(h, GENERATED + x, one.node, GENERATED + y, two.node);
    search_left::close(terms, setting.limits, two.state, node)
}

// One premise of a disjunction: the half a under the name of index x.
#[cycle(judgement)]
fn branch(
    words: &mut [u32],
    terms: &mut [u16],
    work: &mut [Record],
    setting: &Setting,
    state: State,
    sequent: Sequent,
    a: usize,
    x: usize,
) -> Answer
    requires represented { Rep setting.now.limits (lent words.old terms.old work.old) state sequent }
    requires half { HalfOf (lent words.old terms.old work.old) state sequent a }
    requires fresh { x ≡ fresh (skipped (names_in setting.now.names.now)) state.indices }
    ensures { Branched setting.now.limits (skipped (names_in setting.now.names.now))
        (lent words.old terms.old work.old) state sequent a x result
        (lent words.new terms.new work.new) }
{
    let (s, q) = search_premises::half(words, terms, work, setting.limits, state, sequent, a, x)?;
    left(words, terms, work, setting, s, q)
}

// Search's rules 3 to 5: the halves of a disjunction, and then the positions. Its rules 1 and 2 stand in `search_leaves`, behind left's
// turn: what fires goes on by left, up to a million times in a row, and there it does so in left's loop and not by a call.
// A shortage is taken apart where a failure goes on: an arm for any other error was tried, and there the proof did not know that it is
// no failure.
#[cycle(judgement)]
fn search(
    words: &mut [u32],
    terms: &mut [u16],
    work: &mut [Record],
    setting: &Setting,
    state: State,
    sequent: Sequent,
) -> Answer
    requires represented { Rep setting.now.limits (lent words.old terms.old work.old) state sequent }
    requires empty { sequent.ordered ≡ 0 }
    ensures { Gives (tries setting.now.limits (skipped (names_in setting.now.names.now)) (seq_of work.old sequent)) setting.now.limits
        (lent words.old terms.old work.old) state sequent result
        (lent words.new terms.new work.new) }
{
    let Kind::Or = kind_at(words, sequent.goal) else {
        return positions(words, terms, work, setting, state, sequent);
    };
    let a = left_at(words, sequent.goal);
    match premise(words, terms, work, setting, state, sequent, a) {
        Ok(one) => search_left::close(terms, setting.limits, one.state, Node::OrLeft(one.node)),
        Err(Missed::Failed(after)) => {
            second_half(words, terms, work, setting, state.give_back(after), sequent)
        }
        Err(Missed::Short(limit, after)) => Err(Missed::Short(limit, after)),
    }
}

// The second half of a disjunction, when the first failed; and then the positions. Not one function with search: the half, the node and
// what follows a failure all differ.
#[cycle(judgement)]
fn second_half(
    words: &mut [u32],
    terms: &mut [u16],
    work: &mut [Record],
    setting: &Setting,
    state: State,
    sequent: Sequent,
) -> Answer
    requires represented { Rep setting.now.limits (lent words.old terms.old work.old) state sequent }
    requires disjunction { (sequent.ordered ≡ 0) × (kind_at words.old sequent.goal ≡ 4) }
    ensures { Seconds setting.now.limits (skipped (names_in setting.now.names.now)) (right_at words.old sequent.goal)
        (lent words.old terms.old work.old) state sequent result
        (lent words.new terms.new work.new) }
{
    let b = right_at(words, sequent.goal);
    match premise(words, terms, work, setting, state, sequent, b) {
        Ok(one) => search_left::close(terms, setting.limits, one.state, Node::OrRight(one.node)),
        Err(Missed::Failed(after)) => {
            positions(words, terms, work, setting, state.give_back(after), sequent)
        }
        Err(Missed::Short(limit, after)) => Err(Missed::Short(limit, after)),
    }
}

// Rule 4 by rising position; with none left, failure.
#[cycle(judgement)]
fn positions(
    words: &mut [u32],
    terms: &mut [u16],
    work: &mut [Record],
    setting: &Setting,
    state: State,
    sequent: Sequent,
) -> Answer
    requires represented { Rep setting.now.limits (lent words.old terms.old work.old) state sequent }
    requires empty { sequent.ordered ≡ 0 }
    ensures { Ranges setting.now.limits (skipped (names_in setting.now.names.now))
        (lent words.old terms.old work.old) state sequent result
        (lent words.new terms.new work.new) }
{
    let mut s = state;
    for i in 0..sequent.unordered {
        if search_left::nested(words, work, sequent, i) {
            match attempt(words, terms, work, setting, s, sequent, i) {
                Err(Missed::Failed(after)) => s = s.give_back(after),
                Err(Missed::Short(limit, after)) => return Err(Missed::Short(limit, after)),
                Ok(found) => return Ok(found),
            }
        }
    }
    Err(Missed::Failed(s))
}

// The try of unordered record i, (A→B)→C: first A→B by right, with B→C in its place, and then the old goal by left, with C in its place.
// Who tries gives back what a failed try has filled.
#[cycle(judgement)]
fn attempt(
    words: &mut [u32],
    terms: &mut [u16],
    work: &mut [Record],
    setting: &Setting,
    state: State,
    sequent: Sequent,
    i: usize,
) -> Answer
    requires represented { Rep setting.now.limits (lent words.old terms.old work.old) state sequent }
    requires nested { Nested (lent words.old terms.old work.old) sequent i }
    ensures { Attempted setting.now.limits (skipped (names_in setting.now.names.now))
        (lent words.old terms.old work.old) state sequent i result
        (lent words.new terms.new work.new) }
{
    let limits = setting.limits;
    let (x, y) = setting.next_two(state.indices);
    let (s1, q1) = search_premises::first(words, terms, work, limits, state, sequent, i, x, y)?;
    let one = right(words, terms, work, setting, s1, q1)?;
    let (s2, q2) = search_premises::second(
        words, terms, work, limits, one.state, sequent, i, one.node,
    )?;
    left(words, terms, work, setting, s2, q2)
}

// An Ident for each assumption in order, all pushed; then right.
fn start(
    words: &mut [u32],
    terms: &mut [u16],
    work: &mut [Record],
    names: &[u8],
    assumed: &[u16],
    count: usize,
    goal: usize,
    steps: usize,
) -> Answer
    requires { refusal (claim_of words.old count assumed.now names.now goal terms.old (length work.old) steps) ≡ none }
    ensures { Ends (claim_of words.old count assumed.now names.now goal terms.old
        (length work.old) steps) work.old result (lent words.new terms.new work.new) }
{
    let limits = call::limits(words.len(), terms.len(), work.len(), steps);
    let unused = State {
        steps: 0,
        indices: 0,
        formulas: count,
        terms: 0,
    };
    if limits.terms < assumed.len() {
        return Err(Missed::Short(Limit::Terms, unused));
    }
    let first = State {
        terms: assumed.len(),
        ..unused
    };
    let sequent = call::assume(terms, work, assumed, goal);
    right(
        words,
        terms,
        work,
        &Setting { names, limits },
        first,
        sequent,
    )
}

// The search of a claim: refused, proved, unprovable, or short of a limit.
pub fn prove(
    words: &mut [u32],
    count: usize,
    assumed: &[u16],
    names: &[u8],
    goal: usize,
    terms: &mut [u16],
    work: &mut [Record],
    steps: usize,
) -> Outcome
    ensures { Called (claim_of words.old count assumed.now names.now goal terms.old
        (length work.old) steps) work.old result words.new terms.new work.new }
{
    // by hand and not by `?`, which leaves no value to change for an edit that tells a refusal as a shortage
    let tested = call::test_claim(words, count, assumed, names, goal, terms, work.len(), steps);
    if let Err(refused) = tested {
        return Err(NoAnswer::Refused(refused));
    }
    let answer = start(words, terms, work, names, assumed, count, goal, steps);
    call::closing(words, terms, work, count, answer)
}
