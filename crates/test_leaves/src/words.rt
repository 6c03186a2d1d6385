// Formula words: packing, the layout of every kind, and the rows 1, 2, 3 and 5.
use crate::show::{Or, flag, letter, place};
use formula::{Kind, pack};
use std::io;
use std::io::Write;

// A packed word and its three fields.
fn packed<W: Write>(out: &mut W, kind: usize, left: usize, right: usize) -> io::Result<()> {
    let w = pack(Kind::from(kind), left, right);
    writeln!(
        out,
        "pack {kind} {left} {right}: {w} {} {} {}",
        formula::kind_of(w).number(),
        formula::left_of(w),
        formula::right_of(w)
    )
}

fn packing<W: Write>(out: &mut W) -> io::Result<()> {
    let cases = [
        (0, 0, 0),
        (1, 0, 0),
        (15, 0, 0),
        (0, 1, 0),
        (0, 16383, 0),
        (0, 0, 1),
        (0, 0, 16383),
        (15, 16383, 16383),
        (16, 16384, 16384),
        (17, 16385, 16385),
    ];
    for (kind, left, right) in cases {
        packed(out, kind, left, right)?;
    }
    Ok(())
}

// Reads and stores at the last word and past it.
fn reading<W: Write>(out: &mut W) -> io::Result<()> {
    let mut f = [pack(Kind::Atom, 7, 0), pack(Kind::Impl, 0, 0)];
    formula::store(&mut f, 1, pack(Kind::And, 1, 16383));
    formula::store(&mut f, 2, 1);
    writeln!(
        out,
        "read {} {} {} {} {} {}",
        formula::kind_at(&f, 1).number(),
        formula::left_at(&f, 1),
        formula::right_at(&f, 1),
        formula::word(&f, 0),
        formula::word(&f, 2),
        formula::kind_at(&f, 2).number()
    )
}

// A field at index 2: the lowest, the highest that looks back, the first that does not, the highest.
const SAMPLES: [usize; 4] = [0, 1, 2, 16383];

// Each left and each right of one kind at index 2: g where the layout is kept.
fn kind_at_2<W: Write>(out: &mut W, kind: usize) -> io::Result<()> {
    write!(out, "kind {kind} ")?;
    for left in SAMPLES {
        for right in SAMPLES {
            let packed = pack(Kind::from(kind), left, right);
            write!(out, "{}", letter(formula::laid_out(packed, 2)))?;
        }
    }
    writeln!(out)
}

fn kinds<W: Write>(out: &mut W) -> io::Result<()> {
    for kind in 0..16 {
        kind_at_2(out, kind)?;
    }
    Ok(())
}

fn first_bad<W: Write>(out: &mut W, f: &[u32], counts: &[usize]) -> io::Result<()> {
    for count in counts {
        let length = f.len();
        let bad = place(refusal::bad_word(f, *count));
        writeln!(out, "words {length} {count}: {bad}")?;
    }
    Ok(())
}

fn layout<W: Write>(out: &mut W) -> io::Result<()> {
    let good = [0, 1, pack(Kind::Atom, 16383, 0), pack(Kind::And, 2, 1)];
    first_bad(out, &good, &[0, 3, 4, 5])?;
    let bad = [pack(Kind::Or, 0, 0), pack(Kind::from(8), 0, 0), 0];
    first_bad(out, &bad, &[0, 1, 3])?;
    let late = [
        0,
        pack(Kind::Impl, 0, 0),
        pack(Kind::ForAll, 0, 1),
        pack(Kind::True, 1, 0),
    ];
    first_bad(out, &late, &[2, 3, 4])
}

// A symbol under two kinds. 5, 4101, 8197 and 12293 are neighbours in the table of marks.
fn kinds_of_symbols<W: Write>(out: &mut W) -> io::Result<()> {
    let mixed = [pack(Kind::Atom, 5, 0), pack(Kind::ForAll, 5, 0)];
    first_bad(out, &mixed, &[1, 2])?;
    let equal = [pack(Kind::Exists, 16383, 0), pack(Kind::Exists, 16383, 0)];
    first_bad(out, &equal, &[2])?;
    let beside = [
        pack(Kind::Atom, 5, 0),
        pack(Kind::ForAll, 4101, 0),
        pack(Kind::Exists, 8197, 0),
        pack(Kind::Atom, 12293, 0),
        pack(Kind::Exists, 12293, 0),
        pack(Kind::ForAll, 5, 0),
    ];
    first_bad(out, &beside, &[4, 5])
}

fn leaves<W: Write>(out: &mut W) -> io::Result<()> {
    let cases = [
        (pack(Kind::Atom, 5, 0), pack(Kind::Atom, 5, 0)),
        (pack(Kind::Atom, 5, 0), pack(Kind::Atom, 4, 0)),
        (pack(Kind::ForAll, 5, 0), pack(Kind::Exists, 5, 0)),
        (pack(Kind::ForAll, 5, 0), pack(Kind::ForAll, 5, 0)),
        (pack(Kind::Exists, 0, 0), pack(Kind::Exists, 0, 0)),
        (pack(Kind::And, 5, 0), pack(Kind::And, 5, 0)),
        (0, 0),
    ];
    for (v, w) in cases {
        let same = flag(formula::equal_leaves(v, w));
        writeln!(out, "same leaf {v} {w}: {same}")?;
    }
    Ok(())
}

fn assumed<W: Write>(out: &mut W, indices: &[u16], counts: &[usize]) -> io::Result<()> {
    for count in counts {
        let length = indices.len();
        let bad = place(refusal::bad_assumption(indices, *count));
        writeln!(out, "assumptions {length} {count}: {bad}")?;
    }
    Ok(())
}

fn assumptions<W: Write>(out: &mut W) -> io::Result<()> {
    assumed(out, &[0u16; 0], &[0])?;
    assumed(out, &[0, 2, 1], &[3, 2, 0])?;
    assumed(out, &[7; 64], &[8, 7])?;
    assumed(out, &[7; 65], &[8, 7])
}

fn goals<W: Write>(out: &mut W) -> io::Result<()> {
    for (count, goal) in [(0, 0), (1, 0), (1, 1), (16384, 16383), (16384, 16384)] {
        let bad = place(refusal::bad_goal(count, goal));
        writeln!(out, "goal {count} {goal}: {bad}")?;
    }
    Ok(())
}

fn formula_rooms<W: Write>(out: &mut W) -> io::Result<()> {
    for (room, count) in [(0, 0), (0, 1), (16384, 16384), (16384, 16385), (16385, 0)] {
        let right = flag(refusal::formula_sizes(room, count));
        writeln!(out, "formula room {room} {count}: {right}")?;
    }
    Ok(())
}

fn term_rooms<W: Write>(out: &mut W) -> io::Result<()> {
    let cases = [
        (0, 0),
        (5, 0),
        (6, 1),
        (6, 2),
        (7, 1),
        (98304, 16384),
        (98304, 16385),
        (98310, 0),
        (6, usize::MAX),
    ];
    for (room, nodes) in cases {
        let right = flag(refusal::term_sizes(room));
        let inside = flag(refusal::node_sizes(room, nodes));
        writeln!(out, "term room {room} {nodes}: {right} {inside}")?;
    }
    Ok(())
}

fn work_areas<W: Write>(out: &mut W) -> io::Result<()> {
    let cases = [
        (0, 0),
        (16383, 0),
        (16384, 1000000),
        (16384, 1000001),
        (16385, 0),
        (65536, 0),
    ];
    for (records, steps) in cases {
        let level = Or(refusal::highest_level(records), "none");
        let right = flag(refusal::work_sizes(records, steps));
        writeln!(out, "work area {records} {steps}: {level} {right}")?;
    }
    Ok(())
}

pub fn all<W: Write>(out: &mut W) -> io::Result<()> {
    packing(out)?;
    reading(out)?;
    kinds(out)?;
    layout(out)?;
    kinds_of_symbols(out)?;
    leaves(out)?;
    assumptions(out)?;
    goals(out)?;
    formula_rooms(out)?;
    term_rooms(out)?;
    work_areas(out)
}
