#![tactic(auto)]
// Generated names and the names of assumptions: `identifier_generator.rs` of the Rust, over lent bytes.
ghost use Rattle.std.specs.Prelude.{◌/◌, ◌%◌, ◌^◌, ◌≤◌, ◌≡◌, length, get_or};
ghost use Rattle.std.specs.Iterator.{YieldsFirstRef, item_count};
ghost use Rattle.theory.specs.Names.{spell, same, among, skipped, fresh};
ghost use Rattle.theory.specs.NameText.{names_in, name_byte, well_spelled, lawful_after, padded, name_alone};
ghost use Rattle.identifier_generator.specs.Entry.{entry_size, entry_from, EntryPart, NamePart};
ghost use Rattle.identifier_generator.specs.Handed.{Hands, HandsResult, number_of, size_in, number_in};

// Generated indices are at most this.
pub const LAST_INDEX: usize = 4095;

// Names below this number are the assumptions'; a generated index is added to it.
pub const GENERATED: usize = 64;

// The most bytes of an assumption's name.
const MOST_BYTES: usize = 32;

// The letters of the alphabet.
const LETTERS: usize = 26;

// How many digits in base 26 the largest number has.
const DIGITS: usize = 14;

// How many letters index `i` has.
pub fn letter_count(i: usize) -> usize
    ensures { result ≡ length (spell i) }
{
    i / LETTERS + 1
}

// Digit `k` of `i` in base 26, by a power of its own; 0 where the power passes `i`.
fn digit(i: usize, k: usize) -> usize
    ensures { result ≡ i / 26 ^ k % 26 }
{
    let mut power: usize = 1;
    // `_passed` is named for the invariant
    for _passed in 0..k {
        // the first test spares the front letters of a long name the powers
        if DIGITS <= k || i / LETTERS < power {
            return 0;
        }
        power *= LETTERS;
    }
    i / power % LETTERS
}

// Letter `j` of index `i`, the front one first; 0 after the last.
pub fn letter(i: usize, j: usize) -> u8
    ensures { result ≡ get_or (spell i) j 0 }
{
    let count = letter_count(i);
    if count <= j {
        return 0;
    }
    b'a' + digit(i, count - 1 - j) as u8
}

// Whether index `i` is spelled as `name`; a name of another length is passed over.
fn spells(i: usize, name: &[u8]) -> bool
    ensures { result ≡ same (spell i) name.now }
{
    letter_count(i) == name.len() && name.iter().enumerate().all(|(j, b)| letter(i, j) == *b)
}

// How many bytes the first entry of `text` takes with its length byte, unless it is cut or missing.
pub fn entry_size(text: &[u8]) -> Option<usize>
    ensures { result ≡ entry_size text.now }
{
    // `_rest` is named for the proof
    let (first, _rest) = text.split_first()?;
    let size = usize::from(*first) + 1;
    if text.len() < size {
        return None;
    }
    Some(size)
}

// The names of a text, one after the other, up to the first entry that is cut or missing.
#[derive(Clone, Copy, Drop)]
pub struct Names<'a>(pub &'a [u8]);

impl<'a> Iterator for Names<'a> {
    type Item = &'a [u8];

    ghost next_gives = { YieldsFirstRef (λ s. names_in s.0.now) };

    ghost remaining = { item_count (λ s. names_in s.0.now) };

    fn next(&mut self) -> Option<&'a [u8]> {
        let size = entry_size(self.0)?;
        let name = &self.0[1..size];
        self.0 = &self.0[size..];
        Some(name)
    }
}

// Whether index `i` is spelled like a name that generated names skip.
pub fn spelled_like(text: &[u8], i: usize) -> bool
    ensures { result ≡ among (spell i) (skipped (names_in text.now)) }
{
    Names(text).any(|name| spells(i, name))
}

// The first index from `i` on that is not spelled like a name that is skipped. For the search, whose indices are far below the bound.
pub fn fresh(text: &[u8], i: usize) -> usize
    requires { i ≤ 1000000 }
    ensures { result ≡ fresh (skipped (names_in text.now)) i }
{
    let mut next = i;
    // a `while`: the indices from `i` on have no last one for a `for` to name, and which one is free is what is looked for
    while spelled_like(text, next) {
        next += 1;
    }
    next
}

// Whether a name may hold the byte.
fn name_byte(b: u8) -> bool
    ensures { result ≡ name_byte b }
{
    b.is_ascii_alphanumeric() || b == b'_'
}

// Whether `name` has 1 to 32 bytes, all of them lawful.
fn well_spelled(name: &[u8]) -> bool
    ensures { result ≡ well_spelled name.now }
{
    !name.is_empty() && name.len() <= MOST_BYTES && name.iter().all(|b| name_byte(*b))
}

// Whether two names are the same. The first bytes before all: most names differ there, and `==` costs more.
fn alike(a: &[u8], b: &[u8]) -> bool
    ensures { result ≡ same a.now b.now }
{
    a.len() == b.len() && a.first() == b.first() && a == b
}

// Whether an assumption may carry `name` where the names of `earlier` are given already.
pub fn lawful(name: &[u8], earlier: &[u8]) -> bool
    ensures { result ≡ lawful_after (names_in earlier.now) name.now }
{
    !Names(earlier).any(|other| alike(name, other)) && well_spelled(name)
}

// From where to where the bytes of entry `k` of `text` stand, if no entry up to it is cut or missing.
// By places and not over `Names`: the promise of `name` says where its part starts.
fn find_entry(text: &[u8], k: usize) -> Option<(usize, usize)>
    ensures { result ≡ entry_from 0 k text.now }
{
    let mut at = 0;
    // `_passed` is named for the invariant
    for _passed in 0..k {
        at += entry_size(&text[at..])?;
    }
    let size = entry_size(&text[at..])?;
    Some((at + 1, at + size))
}

// Entry `k` of `text` as a part of it; the empty front of `assumed` where it is cut or missing.
// No Option: what `name` promises of a number that has no name is the empty front of `assumed`.
fn entry_part<'a>(text: &'a [u8], k: usize, assumed: &'a [u8]) -> &'a [u8]
    ensures { EntryPart text.entry k assumed.entry result }
{
    match find_entry(text, k) {
        Some((start, end)) => &text[start..end],
        None => &assumed[..0],
    }
}

// The bytes of name `x`, as a part of the text that holds it.
pub fn name<'a>(assumed: &'a [u8], generated: &'a [u8], x: usize) -> &'a [u8]
    ensures { NamePart assumed.entry generated.entry x result }
{
    if x < GENERATED {
        return entry_part(assumed, x, assumed);
    }
    entry_part(generated, x - GENERATED, assumed)
}

// The letters of index `i`, then zeros. For a buffer that has room for them.
// By index: of the elements that an `iter_mut` lends nothing is known afterwards.
fn spell_into(i: usize, buf: &mut [u8])
    requires { length (spell i) ≤ length buf.old }
    ensures { buf.new ≡ padded (length buf.old) (spell i) }
{
    for j in 0..buf.len() {
        buf[j] = letter(i, j);
    }
}

// Why no name is written, by the numbers of document 01's table.
#[derive(Clone, Copy, PartialEq, Eq)]
pub enum NameRefusal {
    // the index is over the last one
    Names = 7,
    // the buffer has no room for the letters
    NoRoom = 12,
}

impl NameRefusal {
    // The number by which it is told.
    pub fn number(self) -> usize
        ensures { result ≡ number_of self }
    {
        self as usize
    }
}

// Writes the name of index `i` asked for alone and returns how many bytes it has. Where it is refused, the buffer is zero.
pub fn write_alone(i: usize, buf: &mut [u8]) -> Result<usize, NameRefusal>
    ensures { Hands (name_alone i (length buf.old)) (size_in result) (number_in number_of result) buf.new }
{
    let count = letter_count(i);
    let refusal = if LAST_INDEX < i {
        NameRefusal::Names
    } else if buf.len() < count {
        NameRefusal::NoRoom
    } else {
        spell_into(i, buf);
        return Ok(count);
    };
    buf.fill(0);
    Err(refusal)
}

// The name of index `i` asked for alone, as the front part of the buffer that `write_alone` fills.
pub fn name_alone<'a>(i: usize, buf: &'a mut [u8]) -> Result<&'a mut [u8], NameRefusal>
    ensures { HandsResult number_of (name_alone i (length buf.old)) buf.entry result }
{
    let n = write_alone(i, buf)?;
    Ok(&mut buf[..n])
}
