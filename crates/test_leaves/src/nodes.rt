// Term nodes: every kind with each of its fields at every boundary, the lowest bad node, and the root. One assumption, named a.
use crate::show::{letter, place};
use proof_term::{WIDTH, put_numbers};
use std::io;
use std::io::Write;

// A field's value: 0, 1 and 2 about node 2; 2 and 3 about three formulas; names about 64 (index 0 is spelled a) and about the last index.
const SAMPLES: [usize; 9] = [0, 1, 2, 3, 63, 64, 65, 4159, 4160];

// Field j of node 2 at each sample, its other fields 0: g where the layout is kept.
fn field<W: Write>(out: &mut W, kind: usize, j: usize) -> io::Result<()> {
    for sample in SAMPLES {
        let mut numbers = [kind, 0, 0, 0, 0, 0];
        if j < WIDTH {
            numbers[j] = sample;
        }
        let mut t = [0u16; 3 * WIDTH];
        put_numbers(&mut t, 2, numbers);
        let bad = refusal::bad_term(&t, 3, 2, 3, b"\x01a");
        write!(out, "{}", letter(bad.is_none()))?;
    }
    Ok(())
}

fn kinds<W: Write>(out: &mut W) -> io::Result<()> {
    for kind in 0..15 {
        write!(out, "node {kind}")?;
        for j in 1..WIDTH {
            write!(out, " ")?;
            field(out, kind, j)?;
        }
        writeln!(out)?;
    }
    Ok(())
}

// Three nodes of these kinds, all fields 0: where they are first broken, under a root.
fn places<W: Write>(out: &mut W) -> io::Result<()> {
    let cases = [
        (0, 12, 1, 0),
        (0, 12, 1, 2),
        (0, 12, 1, 3),
        (2, 6, 13, 3),
        (12, 6, 13, 0),
        (12, 7, 13, 0),
        (12, 7, 11, 0),
    ];
    for (first, second, third, root) in cases {
        let mut t = [0u16; 3 * WIDTH];
        put_numbers(&mut t, 0, [first, 0, 0, 0, 0, 0]);
        put_numbers(&mut t, 1, [second, 0, 0, 0, 0, 0]);
        put_numbers(&mut t, 2, [third, 0, 0, 0, 0, 0]);
        let bad = place(refusal::bad_term(&t, 3, root, 0, b"\x01a"));
        writeln!(out, "nodes {first} {second} {third} {root}: {bad}")?;
    }
    Ok(())
}

// No node: no root is below the count. No assumption: number 0 is no name.
fn nothing<W: Write>(out: &mut W) -> io::Result<()> {
    let t = [0u16; WIDTH];
    let no_node = place(refusal::bad_term(&t, 0, 0, 0, b""));
    let no_name = place(refusal::bad_term(&t, 1, 0, 0, b""));
    writeln!(out, "no node: {no_node}, no name: {no_name}")
}

// A node past the room of thirteen numbers, the last that has room, and numbers over 16 bits.
fn writing<W: Write>(out: &mut W) -> io::Result<()> {
    let mut t = [1u16; 13];
    put_numbers(&mut t, 2, [9; WIDTH]);
    put_numbers(&mut t, usize::MAX, [9; WIDTH]);
    put_numbers(&mut t, 1, [9, 65535, 65536, 65537, 4, 5]);
    write!(out, "numbers")?;
    for i in 4..15 {
        write!(out, " {}", proof_term::number(&t, i))?;
    }
    writeln!(out)
}

pub fn all<W: Write>(out: &mut W) -> io::Result<()> {
    kinds(out)?;
    places(out)?;
    nothing(out)?;
    writing(out)
}
