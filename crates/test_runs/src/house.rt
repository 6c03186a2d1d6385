// A house file through the one function from its bytes to the bytes that the program prints.
ghost use Rattle.std.specs.Prelude.{◌<◌};

use crate::{Answer, Call, Row};

fn digit(b: u8) -> usize
    ensures { result < 48 }
{
    usize::from(b % 48)
}

// The number of a line `refused N`, and 0 of any other.
fn refusal(printed: &[u8]) -> usize {
    match printed.strip_prefix(b"refused ") {
        Some([tens, ones @ b'0'..=b'9', ..]) => 10 * digit(*tens) + digit(*ones),
        Some([ones, ..]) => digit(*ones),
        _ => 0,
    }
}

// The bytes of a file stand in the place of a book's names.
pub fn run(row: Row, text: &mut [u8; crate::MOST_TEXT]) -> Answer {
    let length = house_file::output(row.book.names(), text);
    Answer {
        call: Call {
            number: refusal(text),
            ..Call::default()
        },
        writer: 0,
        length,
        checksum: crate::writer::checksum(text, length),
        kept: test_rows::all_are(text, length, 0),
    }
}
