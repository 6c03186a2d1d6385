// The parts of a book, by their places in the list.
ghost use Rattle.std.specs.Prelude.{◌≤◌, ◌<◌, length};

use test_rows::{after, field};

// Where a book begins.
#[derive(Clone, Copy)]
pub struct Book<'a> {
    pub list: &'a [u8],
    pub at: usize,
}

impl<'a> Book<'a> {
    // How many words it gives.
    pub fn given(self) -> usize
        ensures { result < 4294967296 }
    {
        field(self.list, self.at, 0)
    }

    // How many assumptions it has.
    pub fn assumptions(self) -> usize
        ensures { result < 4294967296 }
    {
        field(self.list, self.at, 1)
    }

    // How many numbers its term has.
    pub fn numbers(self) -> usize
        ensures { result < 4294967296 }
    {
        field(self.list, self.at, 3)
    }

    pub fn words_at(self) -> usize
        ensures { result ≤ length self.entry.list.now }
    {
        test_rows::skip(self.list, self.at, 4)
    }

    pub fn indices_at(self) -> usize
        ensures { result ≤ length self.entry.list.now }
    {
        after(self.list, self.words_at(), 4 * self.given())
    }

    fn names_at(self) -> usize
        ensures { result ≤ length self.entry.list.now }
    {
        after(self.list, self.indices_at(), 2 * self.assumptions())
    }

    // How many bytes its names have.
    fn names_bytes(self) -> usize {
        field(self.list, self.at, 2)
    }

    // The text of the names.
    pub fn names(self) -> &'a [u8] {
        test_rows::part(self.list, self.names_at(), self.names_bytes())
    }

    pub fn numbers_at(self) -> usize
        ensures { result ≤ length self.entry.list.now }
    {
        after(self.list, self.names_at(), self.names_bytes())
    }

    // Where the next row begins.
    pub fn end(self) -> usize
        ensures { result ≤ length self.entry.list.now }
    {
        after(self.list, self.numbers_at(), 2 * self.numbers())
    }
}
