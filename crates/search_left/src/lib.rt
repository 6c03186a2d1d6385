#![tactic(auto)]
// What one rule of left writes and charges, where it asks nothing of another judgement; and the nodes and words that rules write.
// What is `pub` here is for the crate `prove`: a `requires` is what its code shows before it calls.
// The lent slices stay separate parameters. A struct that holds them was tried, and the proof didn't close: after a shared read of a `&mut`
// field nothing is known of its elements, and each call would owe a clause for the slices that it leaves alone.
// A state and a sequent stay apart too: a rule changes the one and keeps the other.
ghost use Rattle.std.specs.Prelude.{◌≡◌, List, ℕ, ◌+◌, ◌≤◌, ◌<◌, length, map, set};
ghost use Rattle.theory.specs.Form.{is_imp, word};
ghost use Rattle.theory.specs.NameText.{names_in};
ghost use Rattle.theory.specs.Names.{skipped, fresh};
ghost use Rattle.theory.specs.Meter.{by_left};
ghost use Rattle.proof_term.specs.Kinds.{piece_of};
ghost use Rattle.search_laws.specs.Reading.{lent, put_nodes};
ghost use Rattle.search_laws.specs.Keeping.{Rep};
ghost use Rattle.search_laws.specs.Closing.{Closes};
ghost use Rattle.search_laws.specs.Turning.{Turns, Turned};
ghost use Rattle.search_laws.specs.Pieces.{curried, composed};
ghost use Rattle.search_left.specs.Last.{Last, LastFrom, nested};

use context::{Record, STRETCH};
use formula::Kind;
use identifier_generator::GENERATED;
use meter::{Answer, Found, Limit, Limits, Missed, Next, Sequent, State};
use proof_term::Node;

// What stays as it is through a whole search: the text of the names, which are few, so that the next indices are near, and the limits.
// The lent slices are no part of it, for the reason that is given above.
#[derive(Clone, Copy)]
pub struct Setting<'a> {
    pub names: &'a [u8],
    pub limits: Limits,
    pub ghost few: { length (names_in names.now) ≤ 64 },
}

impl<'a> Setting<'a> {
    // The two next indices after those in use.
    pub fn next_two(&self, indices: usize) -> (usize, usize)
        requires { indices ≤ 4096 }
        ensures first { result.0 ≡ fresh (skipped (names_in self.now.names.now)) indices }
        ensures second { result.1 ≡ fresh (skipped (names_in self.now.names.now)) (result.0 + 1) }
        ensures near { result.1 ≤ 4225 }
    {
        let first = identifier_generator::fresh(self.names, indices);
        let second = identifier_generator::fresh(self.names, first + 1);
        (first, second)
    }
}

// The end of a rule: its last node, which is found.
pub fn close(terms: &mut [u16], limits: Limits, state: State, node: Node) -> Answer
    requires { (limits.terms ≤ 16384) × (state.formulas ≤ 16384) }
    ensures { Closes limits terms.old state (piece_of node) result terms.new }
{
    let at = state.terms;
    if limits.terms <= at {
        return Err(Missed::Short(Limit::Terms, state));
    }
    proof_term::put(terms, at, node);
    Ok(Found {
        node: at,
        state: state.spend(state.indices, 0, 1),
    })
}

// Word n becomes the implication from a to b.
pub fn arrow(words: &mut [u32], n: usize, a: usize, b: usize)
    requires { (a < 16384) × (b < 16384) }
    ensures { words.new ≡ set words.old n (word (is_imp a b)) }
{
    formula::store(words, n, formula::pack(Kind::Impl, a, b));
}

// Nodes one after the other, from at on.
fn put_all(terms: &mut [u16], at: usize, nodes: &[Node])
    requires { at + length nodes.now ≤ 65536 }
    ensures { terms.new ≡ put_nodes terms.old at (map piece_of nodes.now) }
{
    for (k, node) in nodes.iter().enumerate() {
        proof_term::put(terms, at + k, *node);
    }
}

// (as (fn a (fn b (app x (pair a b)))) formula): seven nodes from at on.
fn curried(terms: &mut [u16], at: usize, a: usize, b: usize, x: usize, formula: usize)
    requires { (at ≤ 16384) × (a ≤ 4096) × (b ≤ 4096) }
    ensures { terms.new ≡ put_nodes terms.old at (curried at a b x formula) }
{
    let first = GENERATED + a;
    let second = GENERATED + b;
    let nodes = [
        Node::Ident(first),
        Node::Ident(second),
        Node::Pair(at, at + 1),
        Node::Application(x, at + 2),
        Node::Function(second, at + 3),
        Node::Function(first, at + 4),
        Node::Ascription(at + 5, formula),
    ];
    put_all(terms, at, &nodes);
}

// (as (fn a (app x ARG)) formula): five nodes from at on. ARG is inl, inr or (fn b a) of the Ident of a.
pub fn composed(terms: &mut [u16], at: usize, a: usize, arg: Node, x: usize, formula: usize)
    requires { (at ≤ 16384) × (a ≤ 4096) }
    ensures { terms.new ≡ put_nodes terms.old at (composed at a (piece_of arg) x formula) }
{
    let name = GENERATED + a;
    let nodes = [
        Node::Ident(name),
        arg,
        Node::Application(x, at + 1),
        Node::Function(name, at + 2),
        Node::Ascription(at + 3, formula),
    ];
    put_all(terms, at, &nodes);
}

// Whether unordered record i is an implication from an implication.
pub fn nested(words: &[u32], work: &[Record], sequent: Sequent, i: usize) -> bool
    requires { (sequent.level < 256) × (i < 256) }
    ensures { result ≡ nested words.now work.now sequent.level i }
{
    let a = context::formula_at(work, sequent.level * STRETCH + i);
    let from = formula::left_at(words, a);
    formula::kind_at(words, a) == Kind::Impl && formula::kind_at(words, from) == Kind::Impl
}

// A∧B: both halves are pushed in its place, the second last.
// a and x, the last record's formula and term, are indices; a Record holds 16 bits of each.
fn left_and(
    words: &[u32],
    terms: &mut [u16],
    work: &mut [Record],
    limits: Limits,
    state: State,
    sequent: Sequent,
    a: usize,
    x: usize,
) -> Result<Next, Missed>
    requires represented { Rep limits (lent words.now terms.old work.old) state sequent }
    requires last { Last (lent words.now terms.old work.old) sequent 3 a x }
    ensures { (taken : List (List ℕ)) → Turns limits taken (lent words.now terms.old work.old)
        state sequent by_left result (lent words.now terms.new work.new) }
{
    let at = state.terms;
    state.charge(
        limits,
        state.indices,
        state.formulas,
        at + 2,
        sequent.unordered + sequent.ordered + 1,
        sequent.level,
    )?;
    let second = at + 1;
    put_all(terms, at, &[Node::ProjectFst(x), Node::ProjectSnd(x)]);
    let rest = context::pop(sequent);
    let q1 = context::push(work, rest, formula::left_at(words, a), at);
    let q2 = context::push(work, q1, formula::right_at(words, a), second);
    Ok(Next::Go(state.spend(state.indices, 0, 2), q2))
}

// True→C: Unit and Application, and C is pushed in its place.
fn true_impl(
    words: &[u32],
    terms: &mut [u16],
    work: &mut [Record],
    limits: Limits,
    state: State,
    sequent: Sequent,
    a: usize,
    x: usize,
) -> Result<Next, Missed>
    requires represented { Rep limits (lent words.now terms.old work.old) state sequent }
    requires last { LastFrom (lent words.now terms.old work.old) sequent 0 a x }
    ensures { (taken : List (List ℕ)) → Turns limits taken (lent words.now terms.old work.old)
        state sequent by_left result (lent words.now terms.new work.new) }
{
    let at = state.terms;
    state.charge(
        limits,
        state.indices,
        state.formulas,
        at + 2,
        sequent.unordered + sequent.ordered,
        sequent.level,
    )?;
    let second = at + 1;
    put_all(terms, at, &[Node::Unit, Node::Application(x, at)]);
    let rest = context::pop(sequent);
    let q1 = context::push(work, rest, formula::right_at(words, a), second);
    Ok(Next::Go(state.spend(state.indices, 0, 2), q1))
}

// (A∧B)→C: A→(B→C) is pushed in its place.
fn and_impl(
    words: &mut [u32],
    terms: &mut [u16],
    work: &mut [Record],
    setting: &Setting,
    state: State,
    sequent: Sequent,
    a: usize,
    x: usize,
) -> Result<Next, Missed>
    requires represented { Rep setting.now.limits (lent words.old terms.old work.old) state sequent }
    requires last { LastFrom (lent words.old terms.old work.old) sequent 3 a x }
    ensures { Turns setting.now.limits (skipped (names_in setting.now.names.now)) (lent words.old terms.old
        work.old) state sequent by_left result (lent words.new terms.new work.new) }
{
    let inner = state.formulas;
    let outer = inner + 1;
    let at = state.terms;
    let last = at + 6;
    let (first, second) = setting.next_two(state.indices);
    let used = second + 1;
    state.charge(
        setting.limits,
        used,
        inner + 2,
        at + 7,
        sequent.unordered + sequent.ordered,
        sequent.level,
    )?;
    let i = formula::left_at(words, a);
    let l = formula::left_at(words, i);
    arrow(
        words,
        inner,
        formula::right_at(words, i),
        formula::right_at(words, a),
    );
    arrow(words, outer, l, inner);
    curried(terms, at, first, second, x, outer);
    let rest = context::pop(sequent);
    let q1 = context::push(work, rest, outer, last);
    Ok(Next::Go(state.spend(used, 2, 7), q1))
}

// (A∨B)→C: A→C and then B→C are pushed in its place.
fn or_impl(
    words: &mut [u32],
    terms: &mut [u16],
    work: &mut [Record],
    setting: &Setting,
    state: State,
    sequent: Sequent,
    a: usize,
    x: usize,
) -> Result<Next, Missed>
    requires represented { Rep setting.now.limits (lent words.old terms.old work.old) state sequent }
    requires last { LastFrom (lent words.old terms.old work.old) sequent 4 a x }
    ensures { Turns setting.now.limits (skipped (names_in setting.now.names.now)) (lent words.old terms.old
        work.old) state sequent by_left result (lent words.new terms.new work.new) }
{
    let one = state.formulas;
    let two = one + 1;
    let at = state.terms;
    let middle = at + 4;
    let half = at + 5;
    let last = at + 9;
    let (first, second) = setting.next_two(state.indices);
    let used = second + 1;
    state.charge(
        setting.limits,
        used,
        one + 2,
        at + 10,
        sequent.unordered + sequent.ordered + 1,
        sequent.level,
    )?;
    let i = formula::left_at(words, a);
    let c = formula::right_at(words, a);
    let r = formula::right_at(words, i);
    arrow(words, one, formula::left_at(words, i), c);
    arrow(words, two, r, c);
    composed(terms, at, first, Node::OrLeft(at), x, one);
    composed(terms, half, second, Node::OrRight(half), x, two);
    let rest = context::pop(sequent);
    let q1 = context::push(work, rest, one, middle);
    let q2 = context::push(work, q1, two, last);
    Ok(Next::Go(state.spend(used, 2, 10), q2))
}

// An implication, by what it goes from: False→C is dropped, leaf→C and (A→B)→C wait in the unordered context.
fn left_impl(
    words: &mut [u32],
    terms: &mut [u16],
    work: &mut [Record],
    setting: &Setting,
    state: State,
    sequent: Sequent,
    a: usize,
    x: usize,
) -> Result<Next, Missed>
    requires represented { Rep setting.now.limits (lent words.old terms.old work.old) state sequent }
    requires last { Last (lent words.old terms.old work.old) sequent 5 a x }
    ensures { Turns setting.now.limits (skipped (names_in setting.now.names.now)) (lent words.old terms.old
        work.old) state sequent by_left result (lent words.new terms.new work.new) }
{
    match formula::kind_at(words, formula::left_at(words, a)) {
        Kind::True => true_impl(words, terms, work, setting.limits, state, sequent, a, x),
        Kind::False => Ok(Next::Go(state, context::pop(sequent))),
        Kind::And => and_impl(words, terms, work, setting, state, sequent, a, x),
        Kind::Or => or_impl(words, terms, work, setting, state, sequent, a, x),
        _ => Ok(Next::Go(state, context::append(work, context::pop(sequent), a, x))),
    }
}

// Left on the last ordered record, which there is; a disjunction is left to the caller, who asks its two premises.
fn left_rule(
    words: &mut [u32],
    terms: &mut [u16],
    work: &mut [Record],
    setting: &Setting,
    state: State,
    sequent: Sequent,
) -> Result<Next, Missed>
    requires represented { Rep setting.now.limits (lent words.old terms.old work.old) state sequent }
    requires some { 0 < sequent.ordered }
    ensures { Turns setting.now.limits (skipped (names_in setting.now.names.now)) (lent words.old terms.old
        work.old) state sequent by_left result (lent words.new terms.new work.new) }
{
    let at = context::top(sequent);
    let a = context::formula_at(work, at);
    let x = context::term_at(work, at);
    match formula::kind_at(words, a) {
        Kind::True => Ok(Next::Go(state, context::pop(sequent))),
        Kind::False => Ok(Next::End(close(terms, setting.limits, state, Node::Abort(x))?)),
        Kind::And => left_and(words, terms, work, setting.limits, state, sequent, a, x),
        Kind::Or => Ok(Next::Split(state, sequent)),
        Kind::Impl => left_impl(words, terms, work, setting, state, sequent, a, x),
        _ => Ok(Next::Go(state, context::append(work, context::pop(sequent), a, x))),
    }
}

// One turn of left: its entry is counted, then its rule; where nothing is ordered, search's entry and its rules 1 and 2.
pub fn turn(
    words: &mut [u32],
    terms: &mut [u16],
    work: &mut [Record],
    setting: &Setting,
    state: State,
    sequent: Sequent,
) -> Result<Next, Missed>
    requires represented { Rep setting.now.limits (lent words.old terms.old work.old) state sequent }
    ensures { Turned setting.now.limits (skipped (names_in setting.now.names.now))
        (lent words.old terms.old work.old) state sequent result
        (lent words.new terms.new work.new) }
{
    if setting.limits.steps <= state.steps {
        return Err(Missed::Short(Limit::Steps, state));
    }
    let s = state.counted();
    if 0 < sequent.ordered {
        return left_rule(words, terms, work, setting, s, sequent);
    }
    if setting.limits.steps <= s.steps {
        return Err(Missed::Short(Limit::Steps, s));
    }
    search_leaves::settle(words, terms, work, setting.limits, s.counted(), sequent)
}
