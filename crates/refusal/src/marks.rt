// The kinds under which the leaf symbols of a book have stood: two bits for each of the 16,384 symbols, so that a table is soon cleared.
ghost use Rattle.std.specs.Prelude.{◌≡◌, ◌<◌};
ghost use Rattle.refusal.specs.Marks.{mark_of, shift_of, mark_at, marked, agrees, noted};

use formula::Kind;

// The bytes of a table.
pub const BYTES: usize = 4096;

// The bits of a mark, and a mark of ones.
const BITS: usize = 2;

const MASK: u8 = 3;

// The marks: of a symbol that has not stood yet, and of one that has, by its kind.
// They stay numbers: a table holds them as two bits, and an enum, made from bits and turned into bits at each use, would be no plainer.
const NONE: u8 = 0;

const ATOM: u8 = 1;

const FOR_ALL: u8 = 2;

const EXISTS: u8 = 3;

// The mark of a leaf kind.
fn mark_of(kind: Kind) -> u8
    ensures { result ≡ mark_of kind }
{
    match kind {
        Kind::Atom => ATOM,
        Kind::ForAll => FOR_ALL,
        _ => EXISTS,
    }
}

// How many bits from the low end of its byte the mark of a symbol stands.
fn shift_of(symbol: usize) -> usize
    ensures { result ≡ shift_of symbol }
{
    BITS * (symbol / BYTES)
}

// The mark of a symbol.
#[tactic(auto, using(theory::proofs::Fields::take_field), unfolding(crate::specs::Marks::mark_at))]
fn mark_at(marks: &[u8; BYTES], symbol: usize) -> u8
    requires { symbol < 16384 }
    ensures { result ≡ mark_at marks.now symbol }
{
    (marks[symbol % BYTES] >> shift_of(symbol)) & MASK
}

// A symbol without a mark gets that of a kind.
fn mark(marks: &mut [u8; BYTES], symbol: usize, kind: Kind)
    requires given { symbol < 16384 }
    requires free { mark_at marks.old symbol ≡ 0 }
    ensures { marks.new ≡ marked marks.old symbol (mark_of kind) }
{
    marks[symbol % BYTES] += mark_of(kind) << shift_of(symbol);
}

// Whether a word's leaf symbol has stood under no other kind than the word's, which is noted.
#[tactic(auto, using(formula::proofs::KindLaws::leaf_named), unfolding(crate::specs::Marks::agrees, crate::specs::Marks::noted))]
pub fn agrees(marks: &mut [u8; BYTES], packed: u32) -> bool
    ensures answer { result ≡ agrees marks.old packed }
    ensures table { marks.new ≡ noted marks.old packed }
{
    let kind = formula::kind_of(packed);
    if !kind.is_leaf() {
        return true;
    }
    let symbol = formula::left_of(packed);
    let held = mark_at(marks, symbol);
    if held != NONE {
        return held == mark_of(kind);
    }
    mark(marks, symbol, kind);
    true
}
