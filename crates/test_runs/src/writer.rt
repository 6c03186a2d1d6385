// A term through the writer.
ghost use Rattle.std.specs.Prelude.{◌<◌};

use crate::{Answer, Call, Field, MOST_NUMBERS, MOST_WORDS, Row};
use house_text::{Draft, TextRefusal};

// What the spare buffer holds before the writer is asked.
const SPARE: u8 = 90;

// What the writer gave: how many bytes, or its refusal, and whether its two forms gave the same.
#[derive(Clone, Copy)]
pub struct Written {
    pub given: Result<usize, TextRefusal>,
    pub alike: bool,
}

// The writer's number and how many bytes it wrote; 0 of both where it was not asked.
pub fn told(written: Option<Written>) -> (usize, usize) {
    match written.map(|written| written.given) {
        Some(Ok(length)) => (0, length),
        Some(Err(refusal)) => (refusal.number(), 0),
        None => (0, 0),
    }
}

// Asks the writer for the text as a part of a buffer, and holds it against what came of the other form, whose text stands at the front.
fn hands_same(
    draft: Draft,
    spare: &mut [u8],
    given: Result<usize, TextRefusal>,
    text: &[u8],
) -> bool {
    let (handed, alike) = match house_text::write(draft, spare) {
        Ok(part) => (Ok(part.len()), text.starts_with(part)),
        Err(refusal) => (Err(refusal), true),
    };
    handed == given && kept(spare, Some(Written { given, alike }), SPARE)
}

// Asks the writer in both of its forms, each over a buffer of its own and as long.
pub fn write(draft: Draft, text: &mut [u8]) -> Written {
    let given = house_text::write_text(draft, text);
    let mut spare = [SPARE; crate::MOST_TEXT];
    let room = text.len().min(crate::MOST_TEXT);
    let alike = hands_same(draft, &mut spare[..room], given, text);
    Written { given, alike }
}

// Behind the text the buffer is zero, and so is all of it where it had no room; a writer that refused or was not asked left it as it was.
// Where the two forms differ, nothing is as it must be.
pub fn kept(text: &[u8], written: Option<Written>, junk: u8) -> bool {
    let Some(written) = written else {
        return test_rows::all_are(text, 0, junk);
    };
    written.alike
        && match written.given {
            Ok(length) => test_rows::all_are(text, length, 0),
            Err(TextRefusal::NoRoom) => test_rows::all_are(text, 0, 0),
            Err(TextRefusal::Refused(_)) => test_rows::all_are(text, 0, junk),
        }
}

// The Adler-32 of the first n bytes, 0 of none.
pub fn checksum(text: &[u8], n: usize) -> usize
    ensures { result < 4294967296 }
{
    if n == 0 {
        return 0;
    }
    let mut low = 1;
    let mut high = 0;
    for b in &text[..n.min(text.len())] {
        low = (low + usize::from(*b)) % 65521;
        high = (high + low) % 65521;
    }
    high * 65536 + low
}

// Writes the term of a row, and tells what came back.
fn answer(row: Row, words: &[u32], terms: &[u16], text: &mut [u8]) -> Answer {
    let draft = Draft {
        words,
        count: row.count(),
        assumptions: row.book.assumptions(),
        names: row.book.names(),
        terms,
        nodes: row.field(Field::Nodes),
        root: row.field(Field::Goal),
    };
    let written = write(draft, text);
    let (number, length) = told(Some(written));
    let place = written.given.err().map_or(0, TextRefusal::place);
    Answer {
        call: Call {
            number,
            place,
            ..Call::default()
        },
        writer: number,
        length,
        checksum: checksum(text, length),
        kept: kept(text, Some(written), row.junk()),
    }
}

// Reads the words and the term of a book.
fn read(row: Row, words: &mut [u32], terms: &mut [u16]) {
    let book = row.book;
    test_rows::read(book.list, book.words_at(), book.given(), words);
    test_rows::read(book.list, book.numbers_at(), book.numbers(), terms);
}

// Lends as much of each slice as the row says.
fn lend(row: Row, words: &[u32], terms: &[u16], text: &mut [u8]) -> Answer {
    let given = row.field(Field::Words).min(words.len());
    let numbers = row.field(Field::Numbers).min(terms.len());
    let room = row.field(Field::Text).min(text.len());
    answer(row, &words[..given], &terms[..numbers], &mut text[..room])
}

// Writes a given term, over slices full of junk.
pub fn run(row: Row, text: &mut [u8]) -> Answer {
    let junk = row.junk();
    let mut words = [u32::from(junk); MOST_WORDS];
    let mut terms = [u16::from(junk); MOST_NUMBERS];
    read(row, &mut words, &mut terms);
    lend(row, &words, &terms, text)
}
