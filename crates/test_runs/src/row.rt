// A row of a list: what it asks for, and the book that it runs.
ghost use Rattle.std.specs.Prelude.{◌<◌, ◌≤◌, length};

use crate::book::Book;

// What a row asks for.
#[derive(Clone, Copy, PartialEq, Eq)]
pub enum Kind {
    Claim,
    Term,
    Status,
    File,
}

// A number that is none of the kinds asks for a claim.
impl From<usize> for Kind {
    fn from(number: usize) -> Kind {
        match number {
            1 => Kind::Term,
            2 => Kind::Status,
            3 => Kind::File,
            _ => Kind::Claim,
        }
    }
}

// The numbers of a row, in their order.
#[derive(Clone, Copy)]
pub enum Field {
    Kind,
    Again,
    Words,
    Numbers,
    Records,
    Steps,
    Text,
    Junk,
    Surplus,
    Nodes,
    Goal,
}

// How many numbers a row has. What its program adds stands behind them.
const HEAD: usize = 11;

// Where a row begins, and its book.
#[derive(Clone, Copy)]
pub struct Row<'a> {
    pub list: &'a [u8],
    pub at: usize,
    pub book: Book<'a>,
}

impl<'a> Row<'a> {
    pub fn field(self, field: Field) -> usize
        ensures { result < 4294967296 }
    {
        test_rows::field(self.list, self.at, field as usize)
    }

    // What the row asks for.
    pub fn kind(self) -> Kind {
        Kind::from(self.field(Field::Kind))
    }

    // What every lent slice holds where the row gives nothing.
    pub fn junk(self) -> u8 {
        (self.field(Field::Junk) % 256) as u8
    }

    // How many words are lent as given: those of the book, and so many more.
    pub fn count(self) -> usize {
        self.book.given() + self.field(Field::Surplus)
    }
}

// Where what its program adds to a row begins.
pub fn behind_head(list: &[u8], at: usize) -> usize
    ensures { result ≤ length list.now }
{
    test_rows::skip(list, at, HEAD)
}

// The row has the book of the row before.
pub fn again(list: &[u8], at: usize) -> bool {
    test_rows::field(list, at, Field::Again as usize) != 0
}
