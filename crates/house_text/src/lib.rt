#![tactic(auto)]
// The writer of the house text of a term: `(pair s t)`, `(fn a t)`, .., laid piece by piece into a lent buffer.
ghost use Rattle.std.specs.Prelude.{◌≡◌, ◌++◌, [], ◌∷◌, ◌-◌, ◌/◌, ◌≤◌, ◌<◌, length, get_or, take, replicate};
ghost use Rattle.std.proofs.Math.Option.{some};
ghost use Rattle.theory.specs.Term.{term};
ghost use Rattle.theory.specs.Names.{spell, bytes_of};
ghost use Rattle.theory.specs.NameText.{names_in};
ghost use Rattle.theory.specs.Text.{decimal};
ghost use Rattle.theory.specs.Layout.{node_width};
ghost use Rattle.theory.specs.Writer.{writer_refusal, text_fitted, written};
ghost use Rattle.identifier_generator.specs.Handed.{Hands, HandsResult, size_in, number_in};
ghost use Rattle.proof_term.specs.Kinds.{field_as};
ghost use Rattle.house_text.specs.Laid.{Laid};
ghost use Rattle.house_text.specs.Pieces.{form_piece, term_piece, field_piece, book, nodes, Given, GoodWords, FieldIn};
ghost use Rattle.refusal.specs.Table.{refused_by};
ghost use Rattle.house_text.specs.declared.TextRefusal.TheVariants.{Refused};
ghost use Rattle.house_text.specs.Drafted.{draft_of, number_of, place_of};

use formula::Kind;
use identifier_generator::{GENERATED, NameRefusal};
use proof_term::{Field, WIDTH, number};
use refusal::Refusal;

// What the writer is lent to write: formula words and how many are given, the number of assumptions and their names' text, term numbers and
// how many nodes are given, and the node to start at.
#[derive(Clone, Copy)]
pub struct Draft<'a> {
    pub words: &'a [u32],
    pub count: usize,
    pub assumptions: usize,
    pub names: &'a [u8],
    pub terms: &'a [u16],
    pub nodes: usize,
    pub root: usize,
}

// Each function that lays a piece returns the next place; there is none where the text has no room, and then nothing more is laid.
// The buffer and the place are no struct: after a shared read of a `&mut` field nothing is known of its elements.

fn lay_byte(buf: &mut [u8], at: usize, b: u8) -> Option<usize>
    ensures { Laid (some (b ∷ [])) buf.old at buf.new result }
{
    if buf.len() <= at {
        return None;
    }
    buf[at] = b;
    Some(at + 1)
}

// The bytes of a text. For the program's lines too.
// One by one, each with its test: a copy of the whole slice was compiled to a call of `memmove` where this is inlined, and of the C library
// our crates call `memcpy` and `memset` alone.
pub fn lay(buf: &mut [u8], at: usize, text: &[u8]) -> Option<usize>
    ensures { Laid (some text.now) buf.old at buf.new result }
{
    let mut next = at;
    for i in 0..text.len() {
        next = lay_byte(buf, next, text[i])?;
    }
    Some(next)
}

// A number in decimal. For symbols and counts, which have at most seven digits.
// By hand: of a slice that `write!` fills no clause says which bytes it then holds.
pub fn lay_decimal(buf: &mut [u8], at: usize, n: usize) -> Option<usize>
    requires { n < 10000000 }
    ensures { Laid (some (decimal n)) buf.old at buf.new result }
{
    if n < 10 {
        return lay_byte(buf, at, b'0' + n as u8);
    }
    let next = lay_decimal(buf, at, n / 10)?;
    lay_byte(buf, next, b'0' + (n % 10) as u8)
}

// The letters of generated index `g`.
fn lay_generated(buf: &mut [u8], at: usize, g: usize) -> Option<usize>
    ensures { Laid (some (spell g)) buf.old at buf.new result }
{
    let mut next = at;
    for j in 0..identifier_generator::letter_count(g) {
        next = lay_byte(buf, next, identifier_generator::letter(g, j))?;
    }
    Some(next)
}

// The bytes of name `x`: an assumption's stand in the text of names, where no number from 64 on is looked up.
fn lay_name(buf: &mut [u8], at: usize, names: &[u8], x: usize) -> Option<usize>
    ensures { Laid (some (bytes_of (names_in names.now) x)) buf.old at buf.new result }
{
    if x < GENERATED {
        return lay(buf, at, identifier_generator::name(names, names, x));
    }
    lay_generated(buf, at, x - GENERATED)
}

// A leaf: the letter of its kind, and its symbol.
fn lay_leaf(buf: &mut [u8], at: usize, letter: u8, symbol: usize) -> Option<usize>
    requires { symbol < 10000000 }
    ensures { Laid (some (letter ∷ decimal symbol)) buf.old at buf.new result }
{
    let next = lay_byte(buf, at, letter)?;
    lay_decimal(buf, next, symbol)
}

// The formula at `i`, of which at most `levels` nodes may stand on a path. Its halves have smaller indices.
fn lay_formula(buf: &mut [u8], at: usize, words: &[u32], i: usize, levels: usize) -> Option<usize>
    requires good { GoodWords words.now }
    requires inside { i < length words.now }
    ensures { Laid (form_piece words.now levels i) buf.old at buf.new result }
{
    // by a test: with `checked_sub(1)?` each answer would have to say what is left
    if levels == 0 {
        return None;
    }
    let left = formula::left_at(words, i);
    let opening = match formula::kind_at(words, i) {
        Kind::True => return lay(buf, at, b"T"),
        Kind::False => return lay(buf, at, b"F"),
        Kind::Atom => return lay_leaf(buf, at, b'p', left),
        Kind::ForAll => return lay_leaf(buf, at, b'U', left),
        Kind::Exists | Kind::Unknown(_) => return lay_leaf(buf, at, b'E', left),
        Kind::And => b"(& ",
        Kind::Or => b"(| ",
        Kind::Impl => b"(> ",
    };
    let opened = lay(buf, at, opening)?;
    let one = lay_formula(buf, opened, words, left, levels - 1)?;
    let between = lay(buf, one, b" ")?;
    let two = lay_formula(buf, between, words, formula::right_at(words, i), levels - 1)?;
    lay(buf, two, b")")
}

// A field of a node, number `place` of the nodes, behind a space.
// Its six parameters stay: the buffer and the place are what each layer takes, the draft is whole, and the other three are new at each
// field: a struct of them would be made at the one call and taken apart here.
#[cycle(laying)]
fn lay_field(
    buf: &mut [u8],
    at: usize,
    draft: Draft,
    what: Field,
    place: usize,
    levels: usize,
) -> Option<usize>
    requires given { Given draft.words.now draft.terms.now }
    requires field { FieldIn (length draft.words.now) (length draft.terms.now / node_width) (field_as what)
        (get_or draft.terms.now place 0) }
    ensures { Laid (field_piece draft.entry.words.now draft.entry.terms.now (names_in draft.entry.names.now) levels (field_as what)
        (get_or draft.entry.terms.now place 0)) buf.old at buf.new result }
{
    let x = number(draft.terms, place);
    match what {
        Field::Unused => Some(at),
        Field::Name => {
            let next = lay(buf, at, b" ")?;
            lay_name(buf, next, draft.names, x)
        }
        Field::Child => {
            let next = lay(buf, at, b" ")?;
            lay_term(buf, next, draft, x, levels)
        }
        Field::Formula => {
            let next = lay(buf, at, b" ")?;
            lay_formula(buf, next, draft.words, x, levels)
        }
    }
}

// The term at node `i`, of which at most `levels` nodes may stand on a path. Its children have smaller indices. The tests let no kind pass
// that is refused; the definition reads one as a Unit.
#[cycle(laying)]
fn lay_term(buf: &mut [u8], at: usize, draft: Draft, i: usize, levels: usize) -> Option<usize>
    requires { Given draft.words.now draft.terms.now × (i < length draft.terms.now / node_width) }
    ensures { Laid (term_piece draft.entry.words.now draft.entry.terms.now (names_in draft.entry.names.now) levels i) buf.old at
        buf.new result }
{
    // by a test, as in `lay_formula`
    if levels == 0 {
        return None;
    }
    let node = i * WIDTH;
    let Some(fields) = proof_term::fields_of(number(draft.terms, node)) else {
        return lay(buf, at, b"()");
    };
    // an Ident has no keyword: its name stands alone
    if fields.keyword.is_empty() {
        return lay_name(buf, at, draft.names, number(draft.terms, node + 1));
    }
    let mut next = lay(buf, at, fields.keyword)?;
    // by number: a field's place in the node needs it too
    for j in 0..5 {
        next = lay_field(buf, next, draft, fields.held[j], node + 1 + j, levels - 1)?;
    }
    lay(buf, next, b")")
}

// Zeros from `from` on. Behind the program's lines too.
pub fn clear_from(buf: &mut [u8], from: usize)
    requires { from ≤ length buf.old }
    ensures { buf.new ≡ take from buf.old ++ replicate (length buf.old - from) 0 }
{
    buf[from..].fill(0);
}

// Why no text is written.
#[derive(Clone, Copy, PartialEq, Eq)]
pub enum TextRefusal {
    // the draft is refused, and the buffer stays as it was
    Refused(Refusal),
    // the buffer has no room for the text, or the term is too deep, and the buffer is zero
    NoRoom,
}

impl From<Refusal> for TextRefusal {
    ghost from_gives = { λ refusal r. r ≡ Refused refusal };

    fn from(refusal: Refusal) -> TextRefusal {
        TextRefusal::Refused(refusal)
    }
}

impl TextRefusal {
    // Its number in document 01's table.
    pub fn number(self) -> usize
        ensures { result ≡ number_of self }
    {
        match self {
            TextRefusal::Refused(refusal) => refusal.number(),
            TextRefusal::NoRoom => NameRefusal::NoRoom.number(),
        }
    }

    // The place of what is refused; 0 where the text has no room.
    pub fn place(self) -> usize
        ensures { result ≡ place_of self }
    {
        match self {
            TextRefusal::Refused(refusal) => refusal.place(),
            TextRefusal::NoRoom => 0,
        }
    }
}

// The first test that refuses, in the order 1, 2, 3, 4, 13.
// A test gives a place: `Option` has no method that makes it an error, and a `map_or` for each is no plainer.
fn test(draft: Draft) -> Result<(), Refusal>
    ensures { refused_by result ≡ writer_refusal (draft_of draft.entry []) }
{
    if !refusal::formula_sizes(draft.words.len(), draft.count)
        || !refusal::node_sizes(draft.terms.len(), draft.nodes)
    {
        return Err(Refusal::Sizes);
    }
    if let Some(i) = refusal::bad_word(draft.words, draft.count) {
        return Err(Refusal::BadFormula(i));
    }
    if let Some(i) = refusal::too_many(draft.assumptions) {
        return Err(Refusal::BadAssumption(i));
    }
    if let Some(i) = refusal::bad_name(draft.names, draft.assumptions) {
        return Err(Refusal::BadNames(i));
    }
    if let Some(i) = refusal::bad_term(
        draft.terms,
        draft.nodes,
        draft.root,
        draft.count,
        draft.names,
    ) {
        return Err(Refusal::BadTerm(i));
    }
    Ok(())
}

// Nodes on a path from the root, ascribed formulas included.
const MOST_LEVELS: usize = 1024;

// Writes the term at the root and zeros behind it, and returns how many bytes its text has; all is zero where it has no room.
fn write_term(draft: Draft, buf: &mut [u8]) -> Result<usize, TextRefusal>
    requires given { Given draft.words.now draft.terms.now }
    requires root { draft.root < length draft.terms.now / node_width }
    ensures written { Hands (text_fitted (names_in draft.entry.names.now) (term (book draft.entry.words.now)
        (nodes draft.entry.terms.now) draft.entry.root) (length buf.old)) (size_in result) (number_in number_of result) buf.new }
    ensures place { number_in place_of result ≡ 0 }
{
    let end = lay_term(buf, 0, draft, draft.root, MOST_LEVELS);
    clear_from(buf, end.unwrap_or(0));
    end.ok_or(TextRefusal::NoRoom)
}

// Writes the house text of the term at the root, and returns how many bytes it has. Without room the buffer is zero; where the draft is
// refused, by 1 to 4 or 13, it stays as it was.
pub fn write_text(draft: Draft, buf: &mut [u8]) -> Result<usize, TextRefusal>
    ensures written { Hands (written (draft_of draft.entry buf.old)) (size_in result) (number_in number_of result) buf.new }
    ensures place { number_in place_of result ≡ (written (draft_of draft.entry buf.old)).place }
{
    test(draft)?;
    let given = Draft {
        words: &draft.words[..draft.count],
        terms: &draft.terms[..draft.nodes * WIDTH],
        ..draft
    };
    write_term(given, buf)
}

// The house text as the front part of the buffer that `write_text` fills.
pub fn write<'a>(draft: Draft, buf: &'a mut [u8]) -> Result<&'a mut [u8], TextRefusal>
    ensures written { HandsResult number_of (written (draft_of draft.entry buf.old)) buf.entry result }
    ensures place { number_in place_of result ≡ (written (draft_of draft.entry buf.old)).place }
{
    let n = write_text(draft, buf)?;
    Ok(&mut buf[..n])
}
