// The status of a goal through its public call.
use crate::search::Rest;
use crate::{Answer, Field, Row};
use context::Record;

// Asks the status, and judges what the slices hold.
pub fn answer(
    row: Row,
    words: &mut [u32],
    terms: &mut [u16],
    work: &mut [Record],
    text: &[u8],
) -> Answer {
    let goal = row.field(Field::Goal);
    let steps = row.field(Field::Steps);
    let status = status::solvable_status(words, row.count(), goal, terms, work, steps);
    let rest = Rest {
        words: row.book.given(),
        numbers: 0,
        value: crate::search::value_left(row, status),
    };
    Answer {
        call: crate::numbers::of_status(status),
        writer: 0,
        length: 0,
        checksum: 0,
        kept: crate::search::kept(row, words, terms, rest)
            && test_rows::all_are(work, 0, rest.record())
            && test_rows::all_are(text, 0, row.junk()),
    }
}
