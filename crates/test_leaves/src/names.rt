// Names: indices at every change of length, the test of the assumption text at each of its rules, the lookup, and the next free index.
use crate::show::{flag, letter, place};
use identifier_generator::NameRefusal;
use std::io;
use std::io::Write;

// What the buffers hold before a name is asked for, and how long they are at most.
const JUNK: u8 = 165;

const MOST_ROOM: usize = 160;

// How many bytes a name has, and the number of a refusal; 0 where there is none.
fn told(written: Result<usize, NameRefusal>) -> (usize, usize) {
    match written {
        Ok(length) => (length, 0),
        Err(refusal) => (0, refusal.number()),
    }
}

// Prints a name that is handed as a part of a buffer, and returns how many bytes it has.
fn written<W: Write>(out: &mut W, name: &mut [u8]) -> io::Result<usize> {
    out.write_all(name)?;
    Ok(name.len())
}

// The name as a part of the buffer, the number, and whether the buffer is zero behind the name.
fn handed<W: Write>(out: &mut W, i: usize, buf: &mut [u8]) -> io::Result<()> {
    let (length, number) = match identifier_generator::name_alone(i, buf) {
        Ok(name) => (written(out, name)?, 0),
        Err(refusal) => (0, refusal.number()),
    };
    let zero = flag(test_rows::all_are(buf, length, 0));
    write!(out, " {number} {zero}")
}

// The length, so many bytes of the buffer, the number, and whether the buffer is zero behind them.
fn filled<W: Write>(out: &mut W, i: usize, buf: &mut [u8]) -> io::Result<()> {
    let (length, number) = told(identifier_generator::write_alone(i, buf));
    write!(out, ", {length} ")?;
    out.write_all(test_rows::part(buf, 0, length))?;
    let zero = flag(test_rows::all_are(buf, length, 0));
    write!(out, " {number} {zero}")
}

// Index i asked for alone in both forms, each over so much room full of junk.
fn alone<W: Write>(out: &mut W, i: usize, room: usize) -> io::Result<()> {
    let mut one = [JUNK; MOST_ROOM];
    let mut other = [JUNK; MOST_ROOM];
    let room = room.min(MOST_ROOM);
    write!(out, "name {i} in {room}: ")?;
    handed(out, i, &mut one[..room])?;
    filled(out, i, &mut other[..room])?;
    writeln!(out)
}

// Indices about every change of length, the last index, and one more: each with one byte too few for its letters, with as many as it has,
// and with one more.
fn indices<W: Write>(out: &mut W) -> io::Result<()> {
    let cases: [(usize, usize); 12] = [
        (0, 1),
        (25, 1),
        (26, 2),
        (51, 2),
        (52, 3),
        (78, 4),
        (363, 14),
        (364, 15),
        (4081, 157),
        (4082, 158),
        (4095, 158),
        (4096, 158),
    ];
    for (i, letters) in cases {
        alone(out, i, letters.saturating_sub(1))?;
        alone(out, i, letters)?;
        alone(out, i, letters.saturating_add(1))?;
    }
    for (i, room) in [(4095, MOST_ROOM), (4096, 0), (4096, MOST_ROOM)] {
        alone(out, i, room)?;
    }
    Ok(())
}

// Names of one byte.
fn bytes<W: Write>(out: &mut W) -> io::Result<()> {
    write!(out, "bytes ")?;
    for b in *b"/09:@AZ[^_`az{\x00\xff" {
        let bad = refusal::bad_name(&[1, b], 1);
        write!(out, "{}", letter(bad.is_none()))?;
    }
    writeln!(out)
}

fn fault<W: Write>(out: &mut W, text: &[u8], counts: &[usize]) -> io::Result<()> {
    for count in counts {
        let bad = place(refusal::bad_name(text, *count));
        writeln!(out, "names {count} {bad}")?;
    }
    Ok(())
}

fn faults<W: Write>(out: &mut W) -> io::Result<()> {
    fault(out, b"", &[0, 1])?;
    fault(out, b"\x00", &[0, 1])?;
    fault(out, b"\x01a", &[0, 1])?;
    fault(out, b"\x02a", &[1])?;
    fault(out, b"\x20abcdefghijklmnopqrstuvwxyzABCDEF", &[1])?;
    fault(out, b"\x21abcdefghijklmnopqrstuvwxyzABCDEFG", &[1])?;
    fault(out, b"\x01a\x01b", &[1, 2, 3])?;
    fault(out, b"\x01a\x01a", &[2])?;
    fault(out, b"\x01a\x02aa\x01b\x02aa", &[4])?;
    fault(out, b"\x01a\x01-\x00", &[3])
}

fn lookups<W: Write>(out: &mut W) -> io::Result<()> {
    for x in [0, 1, 2, 3, 4, 63, 64, 65, 66, 67, 4160] {
        write!(out, "found {x} ")?;
        let name = identifier_generator::name(b"\x01x\x00\x03yes\x05cut", b"\x01b\x00\x02ba", x);
        out.write_all(name)?;
        writeln!(out)?;
    }
    Ok(())
}

fn next<W: Write>(out: &mut W, text: &[u8], indices: &[u16]) -> io::Result<()> {
    for i in indices {
        let i = usize::from(*i);
        let spelled = flag(identifier_generator::spelled_like(text, i));
        let free = identifier_generator::fresh(text, i);
        writeln!(out, "index {i} {spelled} {free}")?;
    }
    Ok(())
}

fn free_indices<W: Write>(out: &mut W) -> io::Result<()> {
    next(out, b"", &[0])?;
    next(out, b"\x01a", &[0])?;
    next(out, b"\x01b", &[0])?;
    next(out, b"\x01b\x01a\x01c", &[0, 3])?;
    next(out, b"\x01z\x02ba", &[25])?;
    next(out, b"\x02ab", &[0, 26])?;
    next(out, b"\x01a\x05b", &[1])?;
    next(out, b"\x01a", &[4095, 4096])
}

pub fn all<W: Write>(out: &mut W) -> io::Result<()> {
    indices(out)?;
    faults(out)?;
    bytes(out)?;
    lookups(out)?;
    free_indices(out)
}
