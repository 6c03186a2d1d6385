#![tactic(auto)]
// The rows of document 01's table that an input can meet before a search or a writing: 1 to 5 and 13, each with its place.
ghost use Rattle.std.specs.Prelude.{◌≡◌, ◌*◌, ◌≤◌, length, take};
ghost use Rattle.theory.specs.Form.{bad_word};
ghost use Rattle.theory.specs.NameText.{names_in, bad_name};
ghost use Rattle.theory.specs.Layout.{node_width, bad_term};
ghost use Rattle.theory.specs.Refusal.{fault_number, formula_sizes, term_sizes, node_sizes, highest_level, work_sizes};
ghost use Rattle.theory.specs.Refusal.{too_many, outside_from, bad_assumption, bad_goal};
ghost use Rattle.refusal.specs.Answers.{option_of};
ghost use Rattle.refusal.specs.Table.{refusal_of};

mod marks;

// The sizes of row 1 and the number of row 3.
const MOST_WORDS: usize = 16384;

const MOST_NODES: usize = 16384;

const WORK_RECORDS: usize = 16384;

const HIGHEST_LEVEL: usize = 63;

const MOST_STEPS: usize = 1000000;

const MOST_ASSUMPTIONS: usize = 64;

// What an input breaks, by the names of document 01's table, with its place.
#[derive(Clone, Copy, PartialEq, Eq)]
pub enum Refusal {
    // 1: a lent slice, a count or the step limit has a wrong size
    Sizes,
    // 2: this word breaks the layout, or its symbol stands lower under another kind
    BadFormula(usize),
    // 3: there are too many assumptions, or this one is no given formula
    BadAssumption(usize),
    // 4: this name is faulty
    BadNames(usize),
    // 5: the goal is no given formula
    BadGoal(usize),
    // 13: this node breaks the layout, or the root is none
    BadTerm(usize),
}

impl Refusal {
    // The number of the table.
    #[tactic(auto, unfolding(theory::specs::Refusal::fault_number))]
    pub fn number(self) -> usize
        ensures { result ≡ fault_number (refusal_of self).fault }
    {
        match self {
            Refusal::Sizes => 1,
            Refusal::BadFormula(_) => 2,
            Refusal::BadAssumption(_) => 3,
            Refusal::BadNames(_) => 4,
            Refusal::BadGoal(_) => 5,
            Refusal::BadTerm(_) => 13,
        }
    }

    // The place; 0 for wrong sizes.
    pub fn place(self) -> usize
        ensures { result ≡ (refusal_of self).place }
    {
        match self {
            Refusal::Sizes => 0,
            Refusal::BadFormula(i)
            | Refusal::BadAssumption(i)
            | Refusal::BadNames(i)
            | Refusal::BadGoal(i)
            | Refusal::BadTerm(i) => i,
        }
    }
}

// 1, of a formula slice of `room` words.
#[tactic(auto, unfolding(theory::specs::Refusal::formula_sizes))]
pub fn formula_sizes(room: usize, count: usize) -> bool
    ensures { result ≡ formula_sizes room count }
{
    room <= MOST_WORDS && count <= room
}

// 1, of a term slice of `room` numbers.
#[tactic(auto, unfolding(theory::specs::Refusal::term_sizes))]
pub fn term_sizes(room: usize) -> bool
    ensures { result ≡ term_sizes room }
{
    room % proof_term::WIDTH == 0 && room <= MOST_NODES * proof_term::WIDTH
}

// 1, of a term slice that holds `nodes` nodes.
#[tactic(auto, using(crate::proofs::Room::in_nodes), unfolding(theory::specs::Refusal::node_sizes))]
pub fn node_sizes(room: usize, nodes: usize) -> bool
    ensures { result ≡ node_sizes room nodes }
{
    term_sizes(room) && nodes <= room / proof_term::WIDTH
}

// The highest level that a work area of so many records gives, if so many may be lent.
#[tactic(auto, unfolding(theory::specs::Refusal::highest_level))]
pub fn highest_level(records: usize) -> Option<usize>
    ensures { option_of result ≡ highest_level records }
{
    (records == WORK_RECORDS).then_some(HIGHEST_LEVEL)
}

// 1, of a work area and a step limit.
#[tactic(auto, unfolding(theory::specs::Refusal::work_sizes, theory::specs::Refusal::is_some))]
pub fn work_sizes(records: usize, steps: usize) -> bool
    ensures { result ≡ work_sizes records steps }
{
    highest_level(records).is_some() && steps <= MOST_STEPS
}

// 2: the lowest of the first `count` words that breaks the layout, or whose leaf symbol stands at a lower index under another leaf kind;
// a slice that ends before the count is looked at whole.
#[tactic(auto, using(crate::proofs::Noted::word_steps))]
pub fn bad_word(words: &[u32], count: usize) -> Option<usize>
    ensures { option_of result ≡ bad_word (take count words.now) }
{
    let given = &words[..count.min(words.len())];
    let mut marks = [0u8; marks::BYTES];
    for (i, packed) in given.iter().enumerate() {
        // two tests, so that each returns by itself and says why
        if !formula::laid_out(*packed, i) {
            return Some(i);
        }
        if !marks::agrees(&mut marks, *packed) {
            return Some(i); // the later of the two words: the marks do not tell where the lower one stands
        }
    }
    None
}

// 3, the count alone.
#[tactic(auto, unfolding(theory::specs::Refusal::too_many))]
pub fn too_many(assumptions: usize) -> Option<usize>
    ensures { option_of result ≡ too_many assumptions }
{
    (MOST_ASSUMPTIONS < assumptions).then_some(MOST_ASSUMPTIONS)
}

// 3: the first index not below the count.
fn outside(assumed: &[u16], count: usize) -> Option<usize>
    ensures { option_of result ≡ outside_from count 0 assumed.now }
{
    assumed
        .iter()
        .position(|formula| count <= usize::from(*formula))
}

// 3: over 64 assumptions, or the first index not below the count.
#[tactic(auto, unfolding(theory::specs::Refusal::bad_assumption))]
pub fn bad_assumption(assumed: &[u16], count: usize) -> Option<usize>
    ensures { option_of result ≡ bad_assumption count assumed.now }
{
    too_many(assumed.len()).or_else(|| outside(assumed, count))
}

// 4: the first faulty name of a text that is to hold `count` names; surplus text faults at the count.
#[tactic(auto, using(crate::proofs::NameWalk::name_steps))]
pub fn bad_name(text: &[u8], count: usize) -> Option<usize>
    ensures { option_of result ≡ bad_name count text.now }
{
    let mut at = 0;
    for place in 0..count {
        let Some(size) = identifier_generator::entry_size(&text[at..]) else {
            return Some(place);
        };
        let end = at + size;
        if !identifier_generator::lawful(&text[at + 1..end], &text[..at]) {
            return Some(place);
        }
        at = end;
    }
    if at < text.len() { Some(count) } else { None }
}

// 5: a goal's index not below the count.
#[tactic(auto, unfolding(theory::specs::Refusal::bad_goal, theory::specs::Refusal::unless))]
pub fn bad_goal(count: usize, goal: usize) -> Option<usize>
    ensures { option_of result ≡ bad_goal count goal }
{
    (count <= goal).then_some(0)
}

// 13: the lowest of the given nodes that breaks the layout, or the node count for a root not below it. Names are judged by the assumptions'
// text. For callers that have tested the sizes, as 1 comes before.
#[tactic(auto, using(crate::proofs::TermWalk::term_steps))]
pub fn bad_term(
    terms: &[u16],
    nodes: usize,
    root: usize,
    count: usize,
    text: &[u8],
) -> Option<usize>
    requires { nodes * node_width ≤ length terms.now }
    ensures { option_of result ≡ bad_term (names_in text.now) count terms.now nodes root }
{
    // counted once for all nodes; a struct would be made for one caller
    let names = proof_term::count_names(text);
    for i in 0..nodes {
        if !proof_term::lawful_node(terms, i, count, names, text) {
            return Some(i);
        }
    }
    if root < nodes { None } else { Some(nodes) }
}
