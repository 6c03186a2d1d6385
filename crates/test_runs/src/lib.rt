#![tactic(auto)]
// One row of a list through the public calls: a claim is searched and its term written, a given term is written alone, the status of a
// goal is asked, or a house file is answered.
//
// A row is eleven numbers (Field), what its program adds, and its book, unless it says again that of the row before. A book is four
// numbers, how many words, assumptions, bytes of names and numbers of a given term; then the words, the indices, the names, the numbers.
// The bytes of a house file stand in the place of the names.
mod book;
mod house;
mod inquiry;
mod numbers;
mod row;
mod search;
mod writer;

pub use book::Book;
pub use numbers::Call;
pub use row::{Field, Kind, Row, again, behind_head};

// The most bytes that come back: what the program prints for a house file.
pub const MOST_TEXT: usize = house_file::OUTPUT_BYTES;

// One more word, node and record than document 01 lets anyone lend, so that too much can be lent too.
const MOST_WORDS: usize = 16385;

const MOST_NUMBERS: usize = MOST_WORDS * proof_term::WIDTH;

const MOST_RECORDS: usize = 16385;

// What came back: the numbers of the call, the writer's number, the length and the checksum of the text, and whether each lent slice holds
// what document 01 says.
#[derive(Clone, Copy, PartialEq, Eq)]
pub struct Answer {
    pub call: Call,
    pub writer: usize,
    pub length: usize,
    pub checksum: usize,
    pub kept: bool,
}

// Runs a row; the text is written to the front of a buffer that holds junk.
pub fn run(row: Row, text: &mut [u8; MOST_TEXT]) -> Answer {
    match row.kind() {
        Kind::Term => writer::run(row, text),
        Kind::File => house::run(row, text),
        Kind::Claim | Kind::Status => search::run(row, text),
    }
}
