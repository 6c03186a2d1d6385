#![tactic(auto)]
// Document 01's cases, each limit at its boundary and each pair of neighbouring refusals, through the public calls. A line of output is a
// case's name and what came back.
mod show;

use std::io;
use std::io::Write;
use test_lists::Rows;
use test_runs::Row;

// The name of a row stands behind the row's own numbers and the name's length.
fn name_at(list: &[u8], row: usize) -> usize {
    test_rows::past(list, test_runs::behind_head(list, row))
}

fn name_length(list: &[u8], row: usize) -> usize {
    test_rows::value(list, test_runs::behind_head(list, row))
}

// Where a row's name ends.
fn behind_name(list: &[u8], row: usize) -> usize {
    test_rows::after(list, name_at(list, row), name_length(list, row))
}

// Runs a row, and prints its name and its answer.
fn line<W: Write>(out: &mut W, row: Row) -> io::Result<()> {
    let name = test_rows::part(
        row.list,
        name_at(row.list, row.at),
        name_length(row.list, row.at),
    );
    out.write_all(name)?;
    let mut text = [row.junk(); test_runs::MOST_TEXT];
    let answer = test_runs::run(row, &mut text);
    write!(out, ": ")?;
    show::answer(out, row.kind(), answer, &text)
}

// How the list was made, and a line for each row.
fn lines<W: Write>(out: &mut W, list: &[u8]) -> io::Result<()> {
    out.write_all(test_lists::made(list))?;
    writeln!(out)?;
    for row in Rows::of(list, behind_name) {
        line(out, row)?;
    }
    Ok(())
}

fn main(rt: HostRuntime) -> io::Result<()> {
    let list = test_lists::read(&rt)?;
    if list.is_empty() {
        return Ok(());
    }
    lines(&mut io::writer(&rt), &list)
}
