#![tactic(auto)]
// Search's rules 1 and 2, which go by the leaves among the unordered records: the first one that is the goal, and every leaf→B that
// fires. Left's turn asks them, since what fires goes on by left: in left's loop a million of them in a row use no stack. Search's rules 3
// to 5, the tries, are `prove`'s `search`.
// What is `pub` here is for the search's own crates: a `requires` is what their code shows before it calls.
// The lent slices stay separate parameters. A struct that holds them was tried, and the proof didn't close: after a shared read of a `&mut`
// field nothing is known of its elements, and each call would owe a clause for the slices that it leaves alone.
// A state and a sequent stay apart too: a rule changes the one and keeps the other.
ghost use Rattle.std.specs.Prelude.{◌≡◌, List, ℕ, ◌+◌, ◌*◌, ◌≤◌, ◌<◌, length, get_or, set};
ghost use Rattle.theory.specs.Term.{app, six_of};
ghost use Rattle.proof_term.specs.Put.{put_node};
ghost use Rattle.context.specs.Moves.{stretch, pushed, without};
ghost use Rattle.context.specs.Area.{rec, formula_at, term_at, removed, push_place};
ghost use Rattle.search_laws.specs.Reading.{lent, right_at};
ghost use Rattle.theory.specs.Meter.{by_search};
ghost use Rattle.search_laws.specs.Keeping.{Rep};
ghost use Rattle.search_laws.specs.Turning.{Turns};
ghost use Rattle.search_laws.specs.Leaves.{leaf_place, fires_by, firing_in, MayFire, Fell};
ghost use Rattle.search_leaves.specs.Found.{below};

use context::{Record, STRETCH};
use formula::Kind;
use meter::{Found, Limits, Missed, Next, Sequent, State};
use proof_term::Node;

// The place of the first unordered record that is the leaf with this word; no word of another kind stands anywhere.
fn find_leaf(words: &[u32], work: &[Record], sequent: Sequent, leaf: u32) -> Option<usize>
    requires { (sequent.level < 256) × (sequent.unordered ≤ stretch) }
    ensures { result ≡ below sequent.unordered
        (leaf_place words.now work.now sequent.level sequent.unordered leaf) }
{
    if !formula::kind_of(leaf).is_leaf() {
        return None;
    }
    let first = sequent.level * STRETCH;
    (0..sequent.unordered).position(|i| {
        formula::equal_leaves(
            leaf,
            formula::word(words, context::formula_at(work, first + i)),
        )
    })
}

// The place of the leaf that lets unordered record i fire, where it is leaf→B and the leaf is present.
fn fires(words: &[u32], work: &[Record], sequent: Sequent, i: usize) -> Option<usize>
    requires { (sequent.level < 256) × (sequent.unordered ≤ stretch) × (i ≤ stretch) }
    ensures { result ≡ below sequent.unordered
        (fires_by words.now work.now sequent.level sequent.unordered i) }
{
    let a = context::formula_at(work, sequent.level * STRETCH + i);
    let Kind::Impl = formula::kind_at(words, a) else {
        return None;
    };
    let leaf = formula::word(words, formula::left_at(words, a));
    find_leaf(words, work, sequent, leaf)
}

// How many unordered records fire.
fn count_fires(words: &[u32], work: &[Record], sequent: Sequent) -> usize
    requires { (sequent.level < 256) × (sequent.unordered ≤ stretch) }
    ensures { result ≡ firing_in words.now work.now sequent.level sequent.unordered sequent.unordered }
{
    (0..sequent.unordered)
        .filter(|i| fires(words, work, sequent, *i).is_some())
        .count()
}

// Unordered record i fires with the leaf at j: its Application is node n; the record is taken out, and what it yields is pushed.
fn fire_one(
    words: &[u32],
    terms: &mut [u16],
    work: &mut [Record],
    sequent: Sequent,
    i: usize,
    j: usize,
    n: usize,
) -> Sequent
    requires places { (sequent.level < 256) × (i < sequent.unordered) × (j < sequent.unordered) ×
        (sequent.unordered + sequent.ordered ≤ stretch) }
    requires room { (sequent.level + 1) * stretch ≤ length work.old }
    ensures result { result ≡ pushed (without sequent) }
    ensures terms { terms.new ≡ put_node terms.old n
        (six_of (app (term_at work.old (sequent.level * stretch + i)) (term_at work.old
        (sequent.level * stretch + j)))) }
    ensures work { work.new ≡ set (removed work.old sequent i) (push_place (without sequent))
        (rec (right_at words.now (formula_at work.old (sequent.level * stretch + i))) n) }
{
    let first = sequent.level * STRETCH;
    let b = formula::right_at(words, context::formula_at(work, first + i));
    let x = context::term_at(work, first + i);
    let y = context::term_at(work, first + j);
    proof_term::put(terms, n, Node::Application(x, y));
    let q1 = context::remove(work, sequent, i);
    context::push(work, q1, b, n)
}

// All that fire, by falling position; end is one past the last of their nodes.
fn fire_all(
    words: &[u32],
    terms: &mut [u16],
    work: &mut [Record],
    limits: Limits,
    state: State,
    sequent: Sequent,
    end: usize,
) -> Sequent
    requires { MayFire limits (lent words.now terms.old work.old) state sequent end }
    ensures { Fell limits words.now state.formulas state.terms terms.old work.old sequent
        terms.new
        work.new result }
{
    let mut p = sequent;
    let mut n = end;
    for i in (0..sequent.unordered).rev() {
        if let Some(j) = fires(words, work, p, i) {
            n -= 1;
            p = fire_one(words, terms, work, p, i, j, n);
        }
    }
    p
}

// Rule 2, where the goal's leaf is not present; where nothing fires, the tries.
fn fire(
    words: &[u32],
    terms: &mut [u16],
    work: &mut [Record],
    limits: Limits,
    state: State,
    sequent: Sequent,
) -> Result<Next, Missed>
    requires represented { Rep limits (lent words.now terms.old work.old) state sequent }
    requires absent { (sequent.ordered ≡ 0) × (sequent.unordered ≤ leaf_place words.now work.old sequent.level
        sequent.unordered (get_or words.now sequent.goal 0)) }
    ensures { (taken : List (List ℕ)) → Turns limits taken (lent words.now terms.old work.old)
        state sequent by_search result (lent words.now terms.new work.new) }
{
    let c = count_fires(words, work, sequent);
    if c == 0 {
        return Ok(Next::Try(state, sequent));
    }
    let end = state.terms + c;
    state.charge(
        limits,
        state.indices,
        state.formulas,
        end,
        sequent.unordered,
        sequent.level,
    )?;
    let q1 = fire_all(words, terms, work, limits, state, sequent, end);
    Ok(Next::Go(state.spend(state.indices, 0, c), q1))
}

// Search's rules 1 and 2, its entry counted.
pub fn settle(
    words: &[u32],
    terms: &mut [u16],
    work: &mut [Record],
    limits: Limits,
    state: State,
    sequent: Sequent,
) -> Result<Next, Missed>
    requires represented { Rep limits (lent words.now terms.old work.old) state sequent }
    requires empty { sequent.ordered ≡ 0 }
    ensures { (taken : List (List ℕ)) → Turns limits taken (lent words.now terms.old work.old)
        state sequent by_search result (lent words.now terms.new work.new) }
{
    let goal = formula::word(words, sequent.goal);
    if let Some(j) = find_leaf(words, work, sequent, goal) {
        let node = context::term_at(work, sequent.level * STRETCH + j);
        return Ok(Next::End(Found { node, state }));
    }
    fire(words, terms, work, limits, state, sequent)
}
