#![tactic(auto)]
// The public calls for other languages to link: C's calling convention, a slice as a pointer and a length, the answer as numbers.
// A call returns a number and sets the lent `answer`, `size` or `place` in the place of a `Result`: the C interface needs it so.
ghost use Rattle.std.specs.Prelude.{◌≡◌, length, take, Err};
ghost use Rattle.theory.specs.Form.{bad_word};
ghost use Rattle.theory.specs.NameText.{bad_name, padded, name_alone};
ghost use Rattle.theory.specs.Refusal.{BadFormula, BadNames, fault_at};
ghost use Rattle.theory.specs.Writer.{written};
ghost use Rattle.theory.specs.File.{printed};
ghost use Rattle.identifier_generator.specs.Handed.{Hands};
ghost use Rattle.call.specs.Lent.{claim_of};
ghost use Rattle.status.specs.Whole.{inquiry_of};
ghost use Rattle.house_text.specs.Drafted.{draft};
ghost use Rattle.call.specs.Outcomes as Outcomes;
ghost use Rattle.status.specs.Answers as Answers;
ghost use Rattle.quaysaffron_c.specs.Told.{kind_of, verdict_of, in_order, refused_in, Searched, Settled, Tests};

use call::{NoAnswer, Outcome, Verdict};
use context::Record;
use house_text::Draft;
use meter::State;
use refusal::Refusal;
use status::Status;

// The kinds of answers; numbers, since the C interface needs them.
const PROVED: usize = 1;

const UNPROVABLE: usize = 2;

const SHORT: usize = 3;

const REFUSED: usize = 4;

const SOLVABLE: usize = 5;

const UNSOLVABLE: usize = 6;

const UNKNOWN: usize = 7;

// An answer: its kind, and document 01's seven numbers in their order (number, place, root, steps, indices, formulas, terms).
const ANSWER: usize = 8;

// Where the number of a refusal or a shortage stands in it.
const NUMBER: usize = 1;

// Why there is no verdict, as an answer.
#[tactic(auto, unfolding(call::specs::Outcomes::numbers_of))]
fn no_verdict(why: NoAnswer) -> [usize; ANSWER]
    ensures { result ≡ in_order (kind_of (Err why)) (Outcomes.numbers_of (Err why)) }
{
    let kind = match why {
        NoAnswer::Short { .. } => SHORT,
        NoAnswer::Refused(_) => REFUSED,
    };
    [kind, why.number(), why.place(), 0, why.steps(), 0, 0, 0]
}

// The outcome of a search as an answer.
#[tactic(auto, unfolding(call::specs::Outcomes::numbers_of))]
fn outcome_answer(outcome: Outcome) -> [usize; ANSWER]
    ensures { result ≡ in_order (kind_of outcome) (Outcomes.numbers_of outcome) }
{
    let (kind, root, used) = match outcome {
        Ok(Verdict::Proved { root, used }) => (PROVED, root, used),
        Ok(Verdict::Unprovable(used)) => (UNPROVABLE, 0, used),
        Err(why) => return no_verdict(why),
    };
    let State {
        steps,
        indices,
        formulas,
        terms,
    } = used;
    [kind, 0, 0, root, steps, indices, formulas, terms]
}

// The status of a goal as an answer.
#[tactic(auto, unfolding(status::specs::Answers::numbers_of))]
fn status_answer(status: Result<Status, NoAnswer>) -> [usize; ANSWER]
    ensures { result ≡ in_order (verdict_of status) (Answers.numbers_of status) }
{
    let kind = match status {
        Ok(Status::Solvable) => SOLVABLE,
        Ok(Status::Unsolvable) => UNSOLVABLE,
        Ok(Status::Unknown) => UNKNOWN,
        Err(why) => return no_verdict(why),
    };
    [kind, 0, 0, 0, 0, 0, 0, 0]
}

// A test's place, 0 where nothing is refused; the number of the refusal, or 0.
fn tell_test(refused: Option<Refusal>, place: &mut usize) -> usize
    ensures { Tests (refused_in refused) result place.new }
{
    *place = refused.map_or(0, Refusal::place);
    refused.map_or(0, Refusal::number)
}

// The search: `prove::prove`.
#[unsafe(no_mangle)]
pub extern "C" fn quaysaffron_prove(
    words: &mut [u32],
    count: usize,
    assumed: &[u16],
    names: &[u8],
    goal: usize,
    terms: &mut [u16],
    work: &mut [Record],
    steps: usize,
    answer: &mut [usize; ANSWER],
) -> usize
    ensures { Searched (claim_of words.old count assumed.now names.now goal terms.old
        (length work.old) steps) work.old result answer.new words.new terms.new
        work.new }
{
    let outcome = prove::prove(words, count, assumed, names, goal, terms, work, steps);
    *answer = outcome_answer(outcome);
    answer[NUMBER]
}

// The status of a goal: `status::solvable_status`.
#[unsafe(no_mangle)]
pub extern "C" fn quaysaffron_status(
    words: &mut [u32],
    count: usize,
    goal: usize,
    terms: &mut [u16],
    work: &mut [Record],
    steps: usize,
    answer: &mut [usize; ANSWER],
) -> usize
    ensures { Settled (inquiry_of words.old count goal terms.old (length work.old) steps)
        work.old result answer.new words.new terms.new work.new }
{
    let status = status::solvable_status(words, count, goal, terms, work, steps);
    *answer = status_answer(status);
    answer[NUMBER]
}

// The house text of a term: `house_text::write_text`.
#[unsafe(no_mangle)]
pub extern "C" fn quaysaffron_text(
    words: &[u32],
    count: usize,
    assumptions: usize,
    names: &[u8],
    terms: &[u16],
    nodes: usize,
    root: usize,
    text: &mut [u8],
    size: &mut usize,
    place: &mut usize,
) -> usize
    ensures written { Hands (written (draft words.now count assumptions names.now terms.now nodes
        root text.old)) size.new result text.new }
    ensures place { place.new ≡ (written (draft words.now count assumptions names.now
        terms.now nodes root text.old)).place }
{
    let draft = Draft {
        words,
        count,
        assumptions,
        names,
        terms,
        nodes,
        root,
    };
    let (length, number, at) = match house_text::write_text(draft, text) {
        Ok(length) => (length, 0, 0),
        Err(refused) => (0, refused.number(), refused.place()),
    };
    *size = length;
    *place = at;
    number
}

// A name asked for alone: `identifier_generator::write_alone`.
#[unsafe(no_mangle)]
pub extern "C" fn quaysaffron_name(index: usize, name: &mut [u8], size: &mut usize) -> usize
    ensures { Hands (name_alone index (length name.old)) size.new result name.new }
{
    let (length, number) = match identifier_generator::write_alone(index, name) {
        Ok(length) => (length, 0),
        Err(refused) => (0, refused.number()),
    };
    *size = length;
    number
}

// What the program prints for a file's bytes: `house_file::output`. Its result is their length: the number of a refusal stands in them.
#[unsafe(no_mangle)]
pub extern "C" fn quaysaffron_output(file: &[u8], out: &mut [u8; house_file::OUTPUT_BYTES]) -> usize
    ensures length { result ≡ length (printed file.now) }
    ensures out { out.new ≡ padded 32835 (printed file.now) }
{
    house_file::output(file, out)
}

// 2, of the first `count` words alone: `refusal::bad_word`.
#[tactic(auto, unfolding(theory::specs::Refusal::fault_at))]
#[unsafe(no_mangle)]
pub extern "C" fn quaysaffron_test_words(words: &[u32], count: usize, place: &mut usize) -> usize
    ensures { Tests (fault_at BadFormula (bad_word (take count words.now))) result place.new }
{
    let refused = refusal::bad_word(words, count).map(Refusal::BadFormula);
    tell_test(refused, place)
}

// 4, of a text that is to hold so many names: `refusal::bad_name`.
#[tactic(auto, unfolding(theory::specs::Refusal::fault_at))]
#[unsafe(no_mangle)]
pub extern "C" fn quaysaffron_test_names(
    names: &[u8],
    assumptions: usize,
    place: &mut usize,
) -> usize
    ensures { Tests (fault_at BadNames (bad_name assumptions names.now)) result place.new }
{
    let refused = refusal::bad_name(names, assumptions).map(Refusal::BadNames);
    tell_test(refused, place)
}
