#![tactic(auto)]
// The lists that `test_cases` and `test_replay` run: how a list was made, and its rows, one after another.
//
// A list is how it was made (a length and so many bytes), how many rows it has, and the rows. What a program adds to a row stands behind
// the row's own numbers and before its book.
ghost use Rattle.std.specs.Prelude.{◌≡◌, ◌≤◌, IfOk, IfSome, vec_len};
ghost use Rattle.std.specs.Iterator.{at_most};

use std::io::Read;
use std::rt::Files;
use std::{fs, io};
use test_runs::{Book, Row};

// The most bytes of a list; what a file has behind them is not read.
const MOST_BYTES: usize = 524288;

// The list that lies beside a program. It takes memory, as the test programs may; no library of the prover does.
pub fn read<R: Files + AllocGlobal>(rt: &R) -> io::Result<Vec<u8>>
    ensures { IfOk result (λ list. vec_len list ≤ 524288) }
{
    let mut list = Vec::new(rt.alloc());
    let mut file = fs::open(rt, "list")?.take(MOST_BYTES as u64);
    file.read_to_end(&mut list)?;
    list.truncate(MOST_BYTES); // changes nothing: of `take` no clause says how much it gives
    Ok(list)
}

// How the list was made.
pub fn made(list: &[u8]) -> &[u8] {
    test_rows::part(list, test_rows::past(list, 0), test_rows::value(list, 0))
}

// Where the number of rows stands, behind how the list was made.
fn counted(list: &[u8]) -> usize {
    test_rows::after(list, test_rows::past(list, 0), test_rows::value(list, 0))
}

// The rows of a list from a place on. `behind` says where what its program adds to a row ends.
#[derive(Drop)]
pub struct Rows<'a, F> {
    list: &'a [u8],
    left: usize,
    next: usize,
    book: Book<'a>,
    behind: F,
}

impl<'a, F: Fn(&[u8], usize) -> usize> Rows<'a, F> {
    // All rows of a list.
    pub fn of(list: &'a [u8], behind: F) -> Rows<'a, F>
        ensures { result.behind ≡ behind }
    {
        let counted = counted(list);
        Rows {
            list,
            left: test_rows::value(list, counted),
            next: test_rows::past(list, counted),
            book: Book { list, at: 0 },
            behind,
        }
    }

    // The row that begins where the one before ended: its book begins at `behind`, or it runs that of the row before and ends there.
    fn step(&mut self, behind: usize) -> Row<'a>
        ensures place { result.at ≡ self.old.next }
        ensures left { self.new.left ≡ self.old.left }
        ensures behind { self.new.behind ≡ self.old.behind }
    {
        let list = self.list;
        let at = self.next;
        if test_runs::again(list, at) {
            self.next = behind;
        } else {
            let book = Book { list, at: behind };
            self.next = book.end();
            self.book = book;
        }
        Row {
            list,
            at,
            book: self.book,
        }
    }
}

impl<'a, F: Fn(&[u8], usize) -> usize> Iterator for Rows<'a, F> {
    type Item = Row<'a>;

    ghost can_next = { λ s. F.IsAlwaysCallable s.behind };

    ghost next_gives = { λ before row after. IfSome row (λ r. r.at ≡ before.next) };

    ghost remaining = { λ s. at_most s.left };

    fn next(&mut self) -> Option<Row<'a>> {
        if self.left == 0 {
            return None;
        }
        let behind = (self.behind)(self.list, self.next);
        self.left -= 1;
        Some(self.step(behind))
    }
}
