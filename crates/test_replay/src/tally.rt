// Counts of what came back.
use std::io;
use std::io::Write;
use test_runs::{Answer, Kind};

// The proofs, the claims without a proof, the files that are not refused, the statuses with a verdict, how often each number of document
// 01's table came back, the first at 0, and the rows that are as expected or not.
#[derive(Clone, Copy, Default)]
pub struct Tally {
    proved: usize,
    unprovable: usize,
    printed: usize,
    settled: usize,
    faults: [usize; 14],
    pub equal: usize,
    pub different: usize,
}

// A count goes no further than this.
const MOST: usize = 1000000;

// Counts one more.
pub fn one_more(count: &mut usize) {
    if *count < MOST {
        *count += 1;
    }
}

impl Tally {
    fn count_fault(&mut self, number: usize) {
        if let Some(count) = self.faults.get_mut(number.wrapping_sub(1)) {
            one_more(count);
        }
    }

    // Counts the call's number, or else the writer's, or what else came of what the row asks for; only a proof has nodes.
    pub fn count(&mut self, asked: Kind, answer: Answer) {
        match (answer.call.number, asked) {
            (0, Kind::File) => one_more(&mut self.printed),
            (0, Kind::Status) => one_more(&mut self.settled),
            (0, _) if answer.writer != 0 => self.count_fault(answer.writer),
            (0, _) if answer.call.terms == 0 => one_more(&mut self.unprovable),
            (0, _) => one_more(&mut self.proved),
            (number, _) => self.count_fault(number),
        }
    }

    // Prints all counts.
    pub fn show<W: Write>(&self, out: &mut W) -> io::Result<()> {
        writeln!(
            out,
            "proved {}, unprovable {}, files answered {}, statuses settled {}",
            self.proved, self.unprovable, self.printed, self.settled
        )?;
        for (i, count) in self.faults.iter().enumerate() {
            writeln!(out, "{}: {count}", i.saturating_add(1))?;
        }
        writeln!(out, "{} equal, {} different", self.equal, self.different)
    }
}
