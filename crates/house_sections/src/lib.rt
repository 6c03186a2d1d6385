#![tactic(auto)]
// The sections of a house file: the whole file is tested before anything is written, then each section is copied into a lent array.
// The copies are for `house_file`: they require a file that passed the test and room for the section, which it shows.
ghost use Rattle.std.specs.Prelude.{◌+◌, ◌*◌, ◌^◌, ◌≤◌, ◌<◌, ◌≡◌, length, take, drop};
ghost use Rattle.theory.specs.File.{little_endian, decoded};
ghost use Rattle.house_sections.specs.Held.{numbers_from, indices_from, text_from, entries_end, Whole, goal_in, held_by, Fits, laid_over};

// The most bytes of a house file, and the most formulas and assumptions in one.
const MOST_BYTES: usize = 32768;

const MOST_FORMULAS: usize = 4096;

const MOST_ASSUMPTIONS: usize = 64;

// The number of the `WIDTH` bytes at `at`, little-endian.
fn number_at<const WIDTH: usize>(file: &[u8], at: usize) -> usize
    requires narrow { WIDTH ≤ 4 }
    requires inside { at + WIDTH ≤ length file.now }
    ensures result { result ≡ little_endian (take WIDTH (drop at file.now)) }
    ensures bounded { result < 256 ^ WIDTH }
{
    let mut number = 0;
    // a `for`: its invariant bounds the number, so that no sum overflows
    for byte in file[at..at + WIDTH].iter().rev() {
        number = usize::from(*byte) + 256 * number;
    }
    number
}

// Where `count` assumptions end that start at `from`: behind the last name, or nowhere, since one is cut. Each has two bytes of index, a
// length byte and its name.
fn entries_end(file: &[u8], from: usize, count: usize) -> Option<usize>
    requires { from ≤ length file.now }
    ensures { result ≡ entries_end from count (drop from file.now) }
{
    let mut at = from;
    for _ in 0..count {
        let size = usize::from(*file.get(at + 2)?) + 3;
        if file.len() - at < size {
            return None;
        }
        at += size;
    }
    Some(at)
}

// The goal behind the assumptions, which end at `at`, where the last section holds one and nothing else.
fn goal_at(file: &[u8], at: usize) -> Option<usize>
    requires { at ≤ length file.now }
    ensures { result ≡ goal_in (drop at file.now) }
{
    if file.len() - at != 4 {
        return None;
    }
    (number_at::<2>(file, at) == 1).then_some(number_at::<2>(file, at + 2))
}

// What a file holds: so many formulas from byte 2 on, so many assumptions behind them and their count, and the goal's index.
#[derive(Clone, Copy)]
pub struct Sections {
    pub formulas: usize,
    pub assumptions: usize,
    pub goal: usize,
}

// The test of a whole file: its sections, or none where it is no house file (14).
pub fn test_file(file: &[u8]) -> Option<Sections>
    ensures held { held_by result file.now ≡ decoded file.now }
    ensures fits { Fits result file.now }
{
    if MOST_BYTES < file.len() || file.len() < 2 {
        return None;
    }
    let formulas = number_at::<2>(file, 0);
    let first = 4 + 4 * formulas;
    if MOST_FORMULAS < formulas || file.len() < first {
        return None;
    }
    let assumptions = number_at::<2>(file, first - 2);
    if MOST_ASSUMPTIONS < assumptions {
        return None;
    }
    let end = entries_end(file, first, assumptions)?;
    let goal = goal_at(file, end)?;
    Some(Sections {
        formulas,
        assumptions,
        goal,
    })
}

// The three that fill a lent array take a place and a count, not `Sections`: what they promise is for every place where so many stand. They
// write by the index, since of elements written through `iter_mut` a proof knows nothing afterwards.

// The words of the formulas, at the front of a lent array.
pub fn fill_words(file: &[u8], count: usize, words: &mut [u32])
    requires section { 2 + 4 * count ≤ length file.now }
    requires room { count ≤ length words.old }
    ensures { words.new ≡ laid_over (numbers_from 4 count (drop 2 file.now)) words.old }
{
    for i in 0..count {
        words[i] = number_at::<4>(file, 2 + 4 * i) as u32;
    }
}

// The formula indices of the assumptions, at the front of a lent array.
pub fn fill_indices(file: &[u8], from: usize, count: usize, indices: &mut [u16])
    requires whole { Whole (entries_end from count (drop from file.now)) }
    requires inside { from ≤ length file.now }
    requires room { count ≤ length indices.old }
    ensures { indices.new ≡ laid_over (indices_from count (drop from file.now)) indices.old }
{
    let mut at = from;
    for i in 0..count {
        indices[i] = number_at::<2>(file, at) as u16;
        at += usize::from(file[at + 2]) + 3;
    }
}

// The names of the assumptions, each after its length byte, at the front of a lent array; how many bytes they take.
pub fn fill_names(file: &[u8], from: usize, count: usize, text: &mut [u8]) -> usize
    requires whole { Whole (entries_end from count (drop from file.now)) }
    requires inside { from ≤ length file.now }
    requires room { length file.now ≤ length text.old }
    ensures text { text.new ≡ laid_over (text_from count (drop from file.now)) text.old }
    ensures length { result ≡ length (text_from count (drop from file.now)) }
{
    let mut at = from;
    let mut filled = 0;
    for _ in 0..count {
        let start = at + 2;
        let size = usize::from(file[start]) + 1;
        let end = start + size;
        text[filled..filled + size].copy_from_slice(&file[start..end]);
        filled += size;
        at = end;
    }
    filled
}
