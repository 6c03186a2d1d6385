#![tactic(auto)]
// The oracle's answers: every row of the list through the public calls, and every number compared.
mod tally;

use std::io;
use std::io::Write;
use tally::{Tally, one_more};
use test_lists::Rows;
use test_runs::{Answer, Call, Row};

// The numbers behind a row's own: seven of the call, then the writer's number, the length and the checksum of the text.
const ANSWER: usize = 10;

// So many rows that differ are shown.
const SHOWN: usize = 20;

// Where a row's expected numbers end.
fn behind_answer(list: &[u8], row: usize) -> usize {
    test_rows::skip(list, test_runs::behind_head(list, row), ANSWER)
}

// The expected answer of a row, with each lent slice as it must be.
fn expected(row: Row) -> Answer {
    let at = test_runs::behind_head(row.list, row.at);
    let number = |k: usize| test_rows::field(row.list, at, k);
    Answer {
        call: Call {
            number: number(0),
            place: number(1),
            root: number(2),
            steps: number(3),
            indices: number(4),
            formulas: number(5),
            terms: number(6),
        },
        writer: number(7),
        length: number(8),
        checksum: number(9),
        kept: true,
    }
}

// Runs a row, counts its answer, and shows it where it is not the expected one.
fn replay<W: Write>(out: &mut W, i: usize, row: Row, tally: &mut Tally) -> io::Result<()> {
    let mut text = [row.junk(); test_runs::MOST_TEXT];
    let answer = test_runs::run(row, &mut text);
    tally.count(row.kind(), answer);
    if answer == expected(row) {
        one_more(&mut tally.equal);
        return Ok(());
    }
    if tally.different < SHOWN {
        let Call { number, steps, .. } = answer.call;
        let length = answer.length;
        writeln!(
            out,
            "different: row {i} gave number {number}, steps {steps}, text of {length}"
        )?;
    }
    one_more(&mut tally.different);
    Ok(())
}

// How the list was made, and the counts of what its rows gave.
fn replay_all<W: Write>(out: &mut W, list: &[u8]) -> io::Result<()> {
    out.write_all(test_lists::made(list))?;
    writeln!(out)?;
    let mut tally = Tally::default();
    for (i, row) in Rows::of(list, behind_answer).enumerate() {
        replay(out, i, row, &mut tally)?;
    }
    tally.show(out)
}

fn main(rt: HostRuntime) -> io::Result<()> {
    let list = test_lists::read(&rt)?;
    if list.is_empty() {
        return Ok(());
    }
    replay_all(&mut io::writer(&rt), &list)
}
