#![tactic(auto)]
// Formula words (document 01): total reads and stores, the fields by shifts and masks, leaves, and the layout of a word.
ghost use Rattle.std.specs.Prelude.{◌≡◌, ◌%◌, length, get_or, set, take};
ghost use Rattle.theory.specs.Form.{kind_of, left_of, right_of, pack, laid_out};
ghost use Rattle.theory.specs.NameText.{padded};
ghost use Rattle.formula.specs.Kinds.{kind_named, number_of, is_leaf};
ghost use Rattle.formula.specs.Leaves.{equal_leaves};

// The kinds of formulas, in the order of their numbers; a number that is no kind's is kept.
#[derive(Clone, Copy, PartialEq, Eq)]
pub enum Kind {
    True,
    False,
    Atom,
    And,
    Or,
    Impl,
    ForAll,
    Exists,
    Unknown(usize),
}

impl From<usize> for Kind {
    ghost from_gives = { λ number kind. kind ≡ kind_named number };

    #[tactic(auto, using(crate::proofs::KindLaws::unknown), unfolding(crate::specs::Kinds::kind_named))]
    fn from(number: usize) -> Kind {
        match number {
            0 => Kind::True,
            1 => Kind::False,
            2 => Kind::Atom,
            3 => Kind::And,
            4 => Kind::Or,
            5 => Kind::Impl,
            6 => Kind::ForAll,
            7 => Kind::Exists,
            _ => Kind::Unknown(number),
        }
    }
}

impl Kind {
    // The number that stands in a word.
    pub fn number(self) -> usize
        ensures { result ≡ number_of self }
    {
        match self {
            Kind::True => 0,
            Kind::False => 1,
            Kind::Atom => 2,
            Kind::And => 3,
            Kind::Or => 4,
            Kind::Impl => 5,
            Kind::ForAll => 6,
            Kind::Exists => 7,
            Kind::Unknown(number) => number,
        }
    }

    // Whether this is a leaf's kind.
    pub fn is_leaf(self) -> bool
        ensures { result ≡ is_leaf self }
    {
        matches!(self, Kind::Atom | Kind::ForAll | Kind::Exists)
    }
}

// The word at i; 0 out of range, so that no caller owes a bound.
pub fn word(words: &[u32], i: usize) -> u32
    ensures { result ≡ get_or words.now i 0 }
{
    words.get(i).copied().unwrap_or(0)
}

// The word at i becomes x; nothing changes out of range. By its index: after a borrow by `get_mut` nothing is known of the others.
pub fn store(words: &mut [u32], i: usize, x: u32)
    ensures { words.new ≡ set words.old i x }
{
    if i < words.len() {
        words[i] = x;
    }
}

// The words from `from` on become 0. `proof_term::clear` does so for numbers: no crate with code lies under both. Both are named calls of
// docs/CONTRACTS.md.
pub fn clear(words: &mut [u32], from: usize)
    ensures { words.new ≡ padded (length words.old) (take from words.old) }
{
    if from < words.len() {
        words[from..].fill(0);
    }
}

// The kind of a word.
pub fn kind_of(packed: u32) -> Kind
    ensures { result ≡ kind_named (kind_of packed) }
{
    Kind::from((packed & 15) as usize)
}

// The left field of a word: a child, or a leaf's symbol.
pub fn left_of(packed: u32) -> usize
    ensures { result ≡ left_of packed }
{
    ((packed >> 4) & 16383) as usize
}

// The right field of a word.
pub fn right_of(packed: u32) -> usize
    ensures { result ≡ right_of packed }
{
    (packed >> 18) as usize
}

// The kind of the word at i.
pub fn kind_at(words: &[u32], i: usize) -> Kind
    ensures { result ≡ kind_named (kind_of (get_or words.now i 0)) }
{
    kind_of(word(words, i))
}

// The left field of the word at i.
pub fn left_at(words: &[u32], i: usize) -> usize
    ensures { result ≡ left_of (get_or words.now i 0) }
{
    left_of(word(words, i))
}

// The right field of the word at i.
pub fn right_at(words: &[u32], i: usize) -> usize
    ensures { result ≡ right_of (get_or words.now i 0) }
{
    right_of(word(words, i))
}

// The word of a kind and two fields, each reduced to its width.
pub fn pack(kind: Kind, left: usize, right: usize) -> u32
    ensures { result ≡ pack (number_of kind % 16) (left % 16384) (right % 16384) }
{
    let k = (kind.number() & 15) as u32;
    let l = (left & 16383) as u32;
    let r = (right & 16383) as u32;
    k | (l << 4) | (r << 18)
}

// "Leaves are equal when their words are": whether v is a leaf and w the same.
#[tactic(auto, using(crate::proofs::KindLaws::leaf_named), unfolding(crate::specs::Leaves::equal_leaves))]
pub fn equal_leaves(v: u32, w: u32) -> bool
    ensures { result ≡ equal_leaves v w }
{
    kind_of(v).is_leaf() && v == w
}

// The layout of a word at index i: True and False have no fields, a leaf has no right, And, Or and Impl look back.
#[tactic(auto, using(crate::proofs::KindLaws::laid_by_kind))]
pub fn laid_out(packed: u32, i: usize) -> bool
    ensures { result ≡ laid_out i packed }
{
    let (kind, left, right) = (kind_of(packed), left_of(packed), right_of(packed));
    // tests in turn: a `match` becomes a jump through a table, which costs more where kinds come in no order
    if matches!(kind, Kind::True | Kind::False) {
        left == 0 && right == 0
    } else if kind.is_leaf() {
        right == 0
    } else {
        matches!(kind, Kind::And | Kind::Or | Kind::Impl) && left < i && right < i
    }
}
