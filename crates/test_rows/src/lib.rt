#![tactic(auto)]
// The list of rows that `test_cases` and `test_replay` run, as bytes: numbers of one, three or five bytes, and stretches of words, halves
// and bytes. Past the end of the list every byte is 0, and no position lies past it, so that no caller owes a bound.
// A place stays a number beside the list: the definitions in specs/ read a whole list from a place on.
mod compare;
mod numbers;

ghost use Rattle.std.specs.Prelude.{◌≡◌, ◌≤◌, ◌<◌, length, get_or};
ghost use Rattle.test_rows.specs.Bytes.{onward, half_at, word_at};

pub use compare::{all_are, words_stand};
pub use numbers::{Number, read};

// The byte at a position.
pub fn byte(list: &[u8], at: usize) -> u8
    ensures { result ≡ get_or list.now at 0 }
{
    list.get(at).copied().unwrap_or(0)
}

// The position k bytes on.
pub fn after(list: &[u8], at: usize, k: usize) -> usize
    ensures result { result ≡ onward list.now at k }
    ensures bounded { result ≤ length list.now }
{
    at.saturating_add(k).min(list.len())
}

// Two bytes, little-endian.
pub fn half(list: &[u8], at: usize) -> u16
    ensures { result ≡ half_at list.now at }
{
    u16::from_le_bytes([byte(list, at), byte(list, after(list, at, 1))])
}

// Four bytes, little-endian: two halves, as its definition reads them.
pub fn word(list: &[u8], at: usize) -> u32
    ensures { result ≡ word_at list.now at }
{
    u32::from(half(list, at)) + 65536 * u32::from(half(list, after(list, at, 2)))
}

// The number at a position: below 254 it is one byte, else two bytes after a 254 or four after a 255. (std has no `From<u32>` for usize.)
pub fn value(list: &[u8], at: usize) -> usize
    ensures { result < 4294967296 }
{
    let rest = after(list, at, 1);
    match byte(list, at) {
        255 => word(list, rest) as usize,
        254 => usize::from(half(list, rest)),
        small => usize::from(small),
    }
}

// The position past that number.
pub fn past(list: &[u8], at: usize) -> usize
    ensures { result ≤ length list.now }
{
    let bytes = match byte(list, at) {
        255 => 5,
        254 => 3,
        _ => 1,
    };
    after(list, at, bytes)
}

// The position past k numbers.
pub fn skip(list: &[u8], at: usize, k: usize) -> usize
    ensures { result ≤ length list.now }
{
    let mut next = after(list, at, 0);
    for _ in 0..k {
        next = past(list, next);
    }
    next
}

// Number k from a position on.
pub fn field(list: &[u8], at: usize, k: usize) -> usize
    ensures { result < 4294967296 }
{
    value(list, skip(list, at, k))
}

// n bytes from a position on; none where the list has not so many.
pub fn part<'a>(list: &'a [u8], at: usize, n: usize) -> &'a [u8]
    ensures { length result.now ≤ n }
{
    match list.get(at..) {
        Some(rest) if n <= rest.len() => &rest[..n],
        _ => &list[..0],
    }
}
