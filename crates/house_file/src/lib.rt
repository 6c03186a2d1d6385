#![tactic(auto)]
// One house file, from its bytes to the bytes that the program prints for it.
ghost use Rattle.std.specs.Prelude.{◌≡◌, ◌≤◌, length, replicate};
ghost use Rattle.std.proofs.Math.Option.{some};
ghost use Rattle.theory.specs.NameText.{padded};
ghost use Rattle.theory.specs.Writer.{written};
ghost use Rattle.theory.specs.File.{decoded, proved_lines, printed};
ghost use Rattle.call.specs.Lent.{claim_of};
ghost use Rattle.house_text.specs.Drafted.{draft_of};
ghost use Rattle.house_lines.specs.Lines.{Printable};
ghost use Rattle.house_sections.specs.Held.{file_in, Seen};
ghost use Rattle.house_file.specs.Output.{Answers, lines_for, Printables};

use call::{Outcome, Verdict};
use house_sections::Sections;
use house_text::Draft;
use meter::State;

// "The program lends 4,096 words, 4,096 nodes, 1,000,000 steps, 32,768 text bytes". Its arrays are of these sizes and stand on the stack:
// it takes no memory.
const WORDS: usize = 4096;

const NODES: usize = 4096;

const STEPS: usize = 1000000;

const TEXT_BYTES: usize = 32768;

// Assumptions of a house file, and bytes that hold all names of one.
const ASSUMPTIONS: usize = 64;

const NAME_BYTES: usize = 32768;

// Bytes that hold the lines of every answer: those of a proved goal with the longest text are the most.
pub const OUTPUT_BYTES: usize = 32835;

// Records of the work area.
const RECORDS: usize = 16384;

// The number of document 01's table for a file that is no house file. It is no enum: this is the one refusal that is found here.
const BAD_FILE: usize = 14;

// The search with the program's work area and step limit. Its parameters stay apart, as `prove::prove` lends them.
fn search_claim(
    words: &mut [u32],
    count: usize,
    assumed: &[u16],
    names: &[u8],
    goal: usize,
    terms: &mut [u16],
) -> Outcome
    ensures { Answers (claim_of words.old count assumed.now names.now goal terms.old 16384 1000000) result
        words.new terms.new }
{
    let mut work = context::filled::<RECORDS>(0);
    prove::prove(words, count, assumed, names, goal, terms, &mut work, STEPS)
}

// The lines of a proved goal: its counts and the text of its term, or the writer's refusal.
fn proved_lines(draft: Draft, used: State, out: &mut [u8]) -> usize
    requires printable { Printable used.steps × Printable used.indices × Printable used.formulas × Printable used.terms }
    requires room { length (proved_lines used.steps used.indices used.formulas used.terms
        (written (draft_of draft (replicate 32768 0)))) ≤ length out.old }
    ensures out { out.new ≡ padded (length out.old) (proved_lines used.steps used.indices used.formulas used.terms
        (written (draft_of draft.entry (replicate 32768 0)))) }
    ensures length { result ≡ length (proved_lines used.steps used.indices used.formulas used.terms
        (written (draft_of draft.entry (replicate 32768 0)))) }
{
    let mut text = [0u8; TEXT_BYTES];
    match house_text::write_text(draft, &mut text) {
        Ok(size) => {
            let text = &text[..size];
            house_lines::proved(out, used, text)
        }
        Err(refusal) => house_lines::refused(out, refusal.number()),
    }
}

// The lines of one answer of the search. What it left, and what it was asked, stay apart as `prove::prove` lends them.
#[tactic(auto, unfolding(crate::specs::Output::lines_for))]
fn answer_lines(
    outcome: Outcome,
    words: &[u32],
    terms: &[u16],
    assumptions: usize,
    names: &[u8],
    out: &mut [u8],
) -> usize
    requires printable { Printables outcome }
    requires room { length (lines_for outcome words.now terms.now assumptions names.now) ≤ length out.old }
    ensures out { out.new ≡
        padded (length out.old) (lines_for outcome words.now terms.now assumptions names.now) }
    ensures length { result ≡ length (lines_for outcome words.now terms.now assumptions names.now) }
{
    match outcome {
        Ok(Verdict::Proved { root, used }) => {
            let draft = Draft {
                words,
                count: used.formulas,
                assumptions,
                names,
                terms,
                nodes: used.terms,
                root,
            };
            proved_lines(draft, used, out)
        }
        Ok(Verdict::Unprovable(used)) => house_lines::unprovable(out, used.steps),
        Err(missing) => house_lines::refused(out, missing.number()),
    }
}

// The output for a file that passed the test: its sections are copied, its goal is searched for, and the lines of the answer are laid.
fn held_output(file: &[u8], sections: Sections, out: &mut [u8]) -> usize
    requires tested { decoded file.now ≡ some (file_in sections file.now) }
    requires seen { Seen sections file.now }
    requires room { 32835 ≤ length out.old }
    ensures out { out.new ≡ padded (length out.old) (printed file.now) }
    ensures length { result ≡ length (printed file.now) }
{
    let mut words = [0u32; WORDS];
    let mut indices = [0u16; ASSUMPTIONS];
    let mut names = [0u8; NAME_BYTES];
    let mut terms = [0u16; NODES * proof_term::WIDTH];
    let first = 4 + 4 * sections.formulas;
    house_sections::fill_words(file, sections.formulas, &mut words);
    house_sections::fill_indices(file, first, sections.assumptions, &mut indices);
    let size = house_sections::fill_names(file, first, sections.assumptions, &mut names);
    let names = &names[..size];
    let outcome = search_claim(
        &mut words,
        sections.formulas,
        &indices[..sections.assumptions],
        names,
        sections.goal,
        &mut terms,
    );
    answer_lines(outcome, &words, &terms, sections.assumptions, names, out)
}

// What the program prints for a file's bytes: how many bytes it is, at the front of an array that has room for every answer.
pub fn output(file: &[u8], out: &mut [u8; OUTPUT_BYTES]) -> usize
    ensures out { out.new ≡ padded 32835 (printed file.now) }
    ensures length { result ≡ length (printed file.now) }
{
    match house_sections::test_file(file) {
        Some(sections) => held_output(file, sections, out),
        None => house_lines::refused(out, BAD_FILE),
    }
}
