// What came back, as words.
use std::io::Write;
use std::{fmt, io};
use test_runs::{Answer, Call, Kind};

// The names of document 01's table, the first at 1.
const FAULTS: [&str; 14] = [
    "Sizes",
    "BadFormula",
    "BadAssumption",
    "BadNames",
    "BadGoal",
    "Steps",
    "Names",
    "Formulas",
    "Terms",
    "Contexts",
    "Levels",
    "NoRoom",
    "BadTerm",
    "BadFile",
];

// A number of that table, shown with its name.
#[derive(Drop)]
struct Fault(usize);

impl fmt::Display for Fault {
    fn fmt<W: fmt::Write>(&self, f: &mut fmt::Formatter<W>) -> fmt::Result {
        let number = self.0;
        // a number outside the table has no name
        let name = FAULTS
            .get(number.wrapping_sub(1))
            .copied()
            .unwrap_or("BadFile");
        write!(f, "{number} {name}")
    }
}

// A refusal has a place, a shortage has steps.
fn missed<W: Write>(out: &mut W, call: Call) -> io::Result<()> {
    let fault = Fault(call.number);
    match call.number {
        6..=11 => write!(out, "{fault}, steps {}", call.steps),
        _ => write!(out, "{fault}, place {}", call.place),
    }
}

// A text of at most this many bytes is shown, a longer one told by its length and its checksum.
const SHOWN: usize = 160;

// The text, or the number of a writer that wrote none.
fn written<W: Write>(out: &mut W, answer: Answer, text: &[u8]) -> io::Result<()> {
    let length = answer.length;
    match length {
        0 => write!(out, "text {}", Fault(answer.writer)),
        1..=SHOWN => out.write_all(test_rows::part(text, 0, length)),
        _ => write!(out, "{length} bytes of text, Adler-32 {}", answer.checksum),
    }
}

// What a search used; only a proof has nodes, and a text.
fn found<W: Write>(out: &mut W, answer: Answer, text: &[u8]) -> io::Result<()> {
    let call = answer.call;
    if call.terms == 0 {
        write!(out, "unprovable")?;
        return used(out, call);
    }
    write!(out, "proved, root {}", call.root)?;
    used(out, call)?;
    write!(out, ", ")?;
    written(out, answer, text)
}

fn used<W: Write>(out: &mut W, call: Call) -> io::Result<()> {
    write!(
        out,
        ", steps {}, names {}, formulas {}, terms {}",
        call.steps, call.indices, call.formulas, call.terms
    )
}

// The name of a verdict, which stands in the root's place.
fn verdict(root: usize) -> &'static str {
    match root {
        1 => "Solvable",
        2 => "Unsolvable",
        _ => "Unknown",
    }
}

// What the program prints for a file: a refusal's line, or how many bytes.
fn printed<W: Write>(out: &mut W, answer: Answer) -> io::Result<()> {
    match answer.call.number {
        0 => write!(
            out,
            "prints {} bytes, Adler-32 {}",
            answer.length, answer.checksum
        ),
        number => write!(out, "prints refused {number}"),
    }
}

// What the lent slices hold: nothing above the fills after an answer, all that they held after a refusal. A file's slices are its own.
fn left(kind: Kind, answer: Answer) -> &'static str {
    match answer.call.number {
        _ if !answer.kept => "SLICES WRONG",
        1..=5 | 13 if kind != Kind::File => "unchanged",
        _ => "rest zero",
    }
}

// The answer of a row, and what its slices hold.
pub fn answer<W: Write>(out: &mut W, kind: Kind, answer: Answer, text: &[u8]) -> io::Result<()> {
    match kind {
        Kind::File => printed(out, answer)?,
        _ if answer.call.number != 0 => missed(out, answer.call)?,
        Kind::Claim => found(out, answer, text)?,
        Kind::Term => written(out, answer, text)?,
        Kind::Status => write!(out, "{}", verdict(answer.call.root))?,
    }
    writeln!(out, "; {}", left(kind, answer))
}
