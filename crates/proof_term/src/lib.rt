#![tactic(auto)]
// Term nodes in numbers: the kinds in the order of `ProofTerm`, the one writer of a node, and the layout test of nodes.
ghost use Rattle.std.specs.Prelude.{◌≡◌, ◌*◌, ◌<◌, length, get_or, take};
ghost use Rattle.theory.specs.Term.{six_of};
ghost use Rattle.theory.specs.NameText.{names_in, padded};
ghost use Rattle.theory.specs.Layout.{node_width, lawful_field, lawful_node};
ghost use Rattle.proof_term.specs.Kinds.{piece_of, field_as, Settles};
ghost use Rattle.proof_term.specs.Put.{put_node};

use Field::{Child, Formula, Name, Unused};
use identifier_generator::{GENERATED, LAST_INDEX, Names};

// A node is so many numbers: its kind, then its fields.
pub const WIDTH: usize = 6;

// The kinds of nodes, in the order of `ProofTerm`; LetIn (6) and Sorry (13) are none. They are numbers, as the lent nodes hold them
// (document 01); what has a node at hand goes by `Node`.
const IDENT: usize = 0;

const PAIR: usize = 1;

const PROJECT_FST: usize = 2;

const PROJECT_SND: usize = 3;

const FUNCTION: usize = 4;

const APPLICATION: usize = 5;

const OR_LEFT: usize = 7;

const OR_RIGHT: usize = 8;

const CASE: usize = 9;

const ABORT: usize = 10;

const ASCRIPTION: usize = 11;

const UNIT: usize = 12;

// A node: the nodes below it by their places, names by their numbers, a formula by its index.
#[derive(Clone, Copy, PartialEq, Eq)]
pub enum Node {
    Ident(usize),
    Pair(usize, usize),
    ProjectFst(usize),
    ProjectSnd(usize),
    Function(usize, usize),
    Application(usize, usize),
    OrLeft(usize),
    OrRight(usize),
    Case(usize, usize, usize, usize, usize),
    Abort(usize),
    Ascription(usize, usize),
    Unit,
}

impl Node {
    // Its kind, its fields, and 0 where it has none.
    #[tactic(auto, unfolding(theory::specs::Term::six_of))]
    fn numbers(self) -> [usize; WIDTH]
        ensures { result ≡ six_of (piece_of self) }
    {
        match self {
            Node::Ident(x) => [IDENT, x, 0, 0, 0, 0],
            Node::Pair(s, t) => [PAIR, s, t, 0, 0, 0],
            Node::ProjectFst(t) => [PROJECT_FST, t, 0, 0, 0, 0],
            Node::ProjectSnd(t) => [PROJECT_SND, t, 0, 0, 0, 0],
            Node::Function(x, t) => [FUNCTION, x, t, 0, 0, 0],
            Node::Application(s, t) => [APPLICATION, s, t, 0, 0, 0],
            Node::OrLeft(t) => [OR_LEFT, t, 0, 0, 0, 0],
            Node::OrRight(t) => [OR_RIGHT, t, 0, 0, 0, 0],
            Node::Case(h, x, s, y, t) => [CASE, h, x, s, y, t],
            Node::Abort(t) => [ABORT, t, 0, 0, 0, 0],
            Node::Ascription(t, a) => [ASCRIPTION, t, a, 0, 0, 0],
            Node::Unit => [UNIT, 0, 0, 0, 0, 0],
        }
    }
}

// What a field of a node holds.
#[derive(Clone, Copy, PartialEq, Eq)]
pub enum Field {
    // a name's number
    Name,
    // a node below it
    Child,
    // a formula's index
    Formula,
    // 0
    Unused,
}

// How a kind is printed and what its fields hold.
#[derive(Clone, Copy)]
pub struct Fields {
    // with its bracket; a Unit's is the bracket alone. An Ident has none: its name stands alone
    pub keyword: &'static [u8],
    // the five, first to last
    pub held: [Field; 5],
}

// The one decision over kind numbers, in the order of `ProofTerm`: LetIn (6), Sorry (13) and what lies above are refused. The layout test
// and the writer of the house text go by it.
#[tactic(auto, unfolding(theory::specs::Layout::fields_of, theory::specs::Text::bytes, crate::specs::Kinds::keyword))]
pub fn fields_of(kind: usize) -> Option<Fields>
    ensures { Settles result kind }
{
    let (keyword, held): (&[u8], _) = match kind {
        IDENT => (b"", [Name, Unused, Unused, Unused, Unused]),
        PAIR => (b"(pair", [Child, Child, Unused, Unused, Unused]),
        PROJECT_FST => (b"(fst", [Child, Unused, Unused, Unused, Unused]),
        PROJECT_SND => (b"(snd", [Child, Unused, Unused, Unused, Unused]),
        FUNCTION => (b"(fn", [Name, Child, Unused, Unused, Unused]),
        APPLICATION => (b"(app", [Child, Child, Unused, Unused, Unused]),
        OR_LEFT => (b"(inl", [Child, Unused, Unused, Unused, Unused]),
        OR_RIGHT => (b"(inr", [Child, Unused, Unused, Unused, Unused]),
        CASE => (b"(case", [Child, Name, Child, Name, Child]),
        ABORT => (b"(abort", [Child, Unused, Unused, Unused, Unused]),
        ASCRIPTION => (b"(as", [Child, Formula, Unused, Unused, Unused]),
        UNIT => (b"(", [Unused, Unused, Unused, Unused, Unused]),
        _ => return None,
    };
    Some(Fields { keyword, held })
}

// Number i of the nodes; 0 out of range, so that no caller owes a bound.
pub fn number(terms: &[u16], i: usize) -> usize
    ensures { result ≡ get_or terms.now i 0 }
{
    usize::from(terms.get(i).copied().unwrap_or(0))
}

// Writes node n as these numbers, where the slice has room for the whole of it; each number becomes its low 16 bits.
pub fn put_numbers(terms: &mut [u16], n: usize, numbers: [usize; WIDTH])
    ensures { terms.new ≡ put_node terms.old n numbers }
{
    if n < terms.len() / WIDTH {
        let at = n * WIDTH;
        // One by one: an array of the six, copied as a whole, is read back from the stack in wider pieces, and each waits for its stores.
        for (k, x) in numbers.iter().enumerate() {
            // `as` stays: the low 16 bits are meant, and `From` and `TryFrom` cut no number down
            terms[at + k] = (*x % 65536) as u16;
        }
    }
}

// Writes node n, where the slice has room for the whole of it.
pub fn put(terms: &mut [u16], n: usize, node: Node)
    ensures { terms.new ≡ put_node terms.old n (six_of (piece_of node)) }
{
    put_numbers(terms, n, node.numbers());
}

// The numbers from `from` on become 0. `formula::clear` does so for words: no crate with code lies under both. Both are named calls of
// docs/CONTRACTS.md.
#[tactic(auto, unfolding(theory::specs::NameText::padded))]
pub fn clear(terms: &mut [u16], from: usize)
    ensures { terms.new ≡ padded (length terms.old) (take from terms.old) }
{
    if from < terms.len() {
        terms[from..].fill(0);
    }
}

// How many names a text holds.
#[tactic(auto, using(theory::proofs::Entries::names_few))]
pub fn count_names(text: &[u8]) -> usize
    ensures { result ≡ length (names_in text.now) }
{
    Names(text).count()
}

// Whether number x may stand in such a field of node i, over `count` formulas. A name is one of the text's `names` names, or a generated
// one that none of them is spelled like.
// `count`, `names` and `text` stay apart: `refusal::bad_term` alone has them together, and a struct of them would be made there and
// taken apart here, with what binds `names` to `text` to be shown again.
#[tactic(auto, unfolding(theory::specs::Layout::lawful_field, theory::specs::Layout::lawful_name))]
fn lawful_field(field: Field, x: usize, i: usize, count: usize, names: usize, text: &[u8]) -> bool
    requires { names ≡ length (names_in text.now) }
    ensures { result ≡ lawful_field (names_in text.now) count i (field_as field) x }
{
    match field {
        Name if x < GENERATED => x < names,
        Name => {
            let g = x - GENERATED;
            g <= LAST_INDEX && !identifier_generator::spelled_like(text, g)
        }
        Child => x < i,
        Formula => x < count,
        Unused => x == 0,
    }
}

// Whether node i keeps the layout.
pub fn lawful_node(terms: &[u16], i: usize, count: usize, names: usize, text: &[u8]) -> bool
    requires counted { names ≡ length (names_in text.now) }
    requires inside { i * node_width < length terms.now }
    ensures { result ≡ lawful_node (names_in text.now) count terms.now i }
{
    let at = i * WIDTH;
    let Some(fields) = fields_of(number(terms, at)) else {
        return false;
    };
    fields.held.iter().enumerate().all(|(k, field)| {
        lawful_field(*field, number(terms, at + 1 + k), i, count, names, text)
    })
}
