// A claim through the public call, and its term through the writer. The lent slices serve the status too.
ghost use Rattle.std.specs.Prelude.{◌≡◌, true, length};
ghost use Rattle.test_runs.specs.Judged.{Asked, RestHolds};

use crate::writer::Written;
use crate::{Answer, Field, Kind, MOST_NUMBERS, MOST_RECORDS, MOST_WORDS, Row};
use call::{NoAnswer, Outcome, Verdict};
use context::Record;
use house_text::Draft;
use proof_term::WIDTH;

// One more than document 01 allows.
const MOST_ASSUMPTIONS: usize = 65;

// Reads the words and the assumptions' indices of a book.
fn read(row: Row, assumed: &mut [u16], words: &mut [u32])
    ensures { length assumed.new ≡ length assumed.old }
{
    let book = row.book;
    test_rows::read(book.list, book.words_at(), book.given(), words);
    test_rows::read(book.list, book.indices_at(), assumed.len(), assumed);
}

// Asks the public call.
fn ask(
    row: Row,
    assumed: &[u16],
    words: &mut [u32],
    terms: &mut [u16],
    work: &mut [Record],
) -> Outcome
    ensures { Asked assumed.now words.old terms.old work.old result
        words.new terms.new work.new }
{
    let goal = row.field(Field::Goal);
    let steps = row.field(Field::Steps);
    let names = row.book.names();
    prove::prove(words, row.count(), assumed, names, goal, terms, work, steps)
}

// What lies above the given words and the nodes that stay.
#[derive(Clone, Copy)]
pub struct Rest {
    pub words: usize,
    pub numbers: usize,
    pub value: u8,
}

impl Rest {
    // What every record of the work area holds.
    pub fn record(self) -> Record {
        let x = u16::from(self.value);
        Record {
            formula: x,
            term: x,
        }
    }
}

// Every value there: zero after an answer or a shortage, junk still after a refusal.
pub fn value_left<T: Copy>(row: Row, outcome: Result<T, NoAnswer>) -> u8 {
    match outcome {
        Err(NoAnswer::Refused(_)) => row.junk(),
        _ => 0,
    }
}

fn left_over(row: Row, outcome: Outcome) -> Rest {
    let value = value_left(row, outcome);
    let (words, numbers) = match outcome {
        Ok(Verdict::Proved { used, .. }) => (used.formulas, WIDTH * used.terms.min(MOST_NUMBERS)),
        Ok(Verdict::Unprovable(used)) => (used.formulas, 0),
        Err(_) => (row.book.given(), 0),
    };
    Rest {
        words,
        numbers,
        value,
    }
}

// The given words stand, and the rest of words and numbers is as it must be.
pub fn kept(row: Row, words: &[u32], terms: &[u16], rest: Rest) -> bool
    ensures { result ≡ true → RestHolds rest words.now terms.now }
{
    let book = row.book;
    test_rows::words_stand(book.list, book.words_at(), book.given(), words)
        && test_rows::all_are(words, rest.words, u32::from(rest.value))
        && test_rows::all_are(terms, rest.numbers, u16::from(rest.value))
}

// The term of an outcome, written; nothing of any other.
fn write(
    row: Row,
    words: &[u32],
    terms: &[u16],
    outcome: Outcome,
    text: &mut [u8],
) -> Option<Written> {
    let Ok(Verdict::Proved { root, used }) = outcome else {
        return None;
    };
    let draft = Draft {
        words,
        count: used.formulas,
        assumptions: row.book.assumptions(),
        names: row.book.names(),
        terms,
        nodes: used.terms,
        root,
    };
    Some(crate::writer::write(draft, text))
}

// Asks the call, writes the term, and judges what the slices hold. The lent slices stay parameters of their own: of the elements of a slice
// in a struct nothing is known after a shared read.
fn answer(
    row: Row,
    assumed: &[u16],
    words: &mut [u32],
    terms: &mut [u16],
    work: &mut [Record],
    text: &mut [u8],
) -> Answer {
    let outcome = ask(row, assumed, words, terms, work);
    let rest = left_over(row, outcome);
    let stands = kept(row, words, terms, rest);
    let cleared = test_rows::all_are(work, 0, rest.record());
    let written = write(row, words, terms, outcome, text);
    let right = crate::writer::kept(text, written, row.junk());
    let (writer, length) = crate::writer::told(written);
    Answer {
        call: crate::numbers::of_outcome(outcome),
        writer,
        length,
        checksum: crate::writer::checksum(text, length),
        kept: stands && cleared && right,
    }
}

// Lends as much of each slice as the row says.
fn lend(
    row: Row,
    assumed: &mut [u16],
    words: &mut [u32],
    terms: &mut [u16],
    work: &mut [Record],
    text: &mut [u8],
) -> Answer {
    let assumptions = row.book.assumptions().min(assumed.len());
    let given = row.field(Field::Words).min(words.len());
    let numbers = row.field(Field::Numbers).min(terms.len());
    let records = row.field(Field::Records).min(work.len());
    let room = row.field(Field::Text).min(text.len());
    let assumed = &mut assumed[..assumptions];
    let words = &mut words[..given];
    let terms = &mut terms[..numbers];
    let work = &mut work[..records];
    let text = &mut text[..room];
    read(row, assumed, words);
    if row.kind() == Kind::Status {
        return crate::inquiry::answer(row, words, terms, work, text);
    }
    answer(row, assumed, words, terms, work, text)
}

// Runs a claim, or asks a status, over slices full of junk. They are arrays, since no library that is tested takes memory.
pub fn run(row: Row, text: &mut [u8]) -> Answer {
    let junk = row.junk();
    let mut assumed = [0u16; MOST_ASSUMPTIONS];
    let mut words = [u32::from(junk); MOST_WORDS];
    let mut terms = [u16::from(junk); MOST_NUMBERS];
    let mut work = context::filled::<MOST_RECORDS>(u16::from(junk));
    lend(row, &mut assumed, &mut words, &mut terms, &mut work, text)
}
