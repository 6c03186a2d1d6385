#![tactic(auto)]
// The work area of the search: a stretch of records a level, the unordered context from its front, the ordered one from its back, the
// last record lowest; and the small moves on sequents, which are functions, since a type's methods stand in its crate, meter. Every element
// of the work area is read and written here alone.
// What is `pub` here is for the search's own crates: a `requires` is what their code shows before it calls.
ghost use Rattle.std.specs.Prelude.{◌≡◌, ◌+◌, ◌-◌, ◌*◌, ◌%◌, ◌≤◌, ◌<◌, length, set, replicate};
ghost use Rattle.context.specs.Area.{zeroed, rec, record_of, formula_at, term_at, raised};
ghost use Rattle.context.specs.Area.{push_place, append_place, removed, top_place};
ghost use Rattle.context.specs.Moves.{stretch, upped, pushed, popped, appended, without};

use meter::Sequent;

// A record of the two contexts: a formula's index and a term's, in this order for any language that lends them.
#[repr(C)]
#[derive(Clone, Copy, PartialEq, Eq)]
pub struct Record {
    pub formula: u16,
    pub term: u16,
}

// Records of a level: as many as both contexts of a sequent may hold.
pub const STRETCH: usize = meter::MOST_RECORDS;

// Records that hold x twice.
pub fn filled<const N: usize>(x: u16) -> [Record; N]
    ensures { result ≡ replicate N (record_of x x) }
{
    [Record {
        formula: x,
        term: x,
    }; N]
}

// The formula of record i; 0 out of range, so that no caller owes a bound.
pub fn formula_at(work: &[Record], i: usize) -> usize
    ensures { result ≡ formula_at work.now i }
{
    work.get(i).map_or(0, |record| usize::from(record.formula))
}

// The term of record i; 0 out of range, so that no caller owes a bound.
pub fn term_at(work: &[Record], i: usize) -> usize
    ensures { result ≡ term_at work.now i }
{
    work.get(i).map_or(0, |record| usize::from(record.term))
}

// Record i becomes a formula and a term, 16 bits of each; nothing changes out of range. It is stored by its index, since the proof
// does not close over `get_mut`, after which nothing is known of the other records.
pub fn put(work: &mut [Record], i: usize, a: usize, x: usize)
    ensures { work.new ≡ set work.old i (rec a x) }
{
    if i < work.len() {
        work[i] = Record {
            formula: (a % 65536) as u16,
            term: (x % 65536) as u16,
        };
    }
}

// Every record becomes zero.
pub fn clear(work: &mut [Record])
    ensures { work.new ≡ replicate (length work.old) zeroed }
{
    work.fill(Record {
        formula: 0,
        term: 0,
    });
}

// The records in use, copied a level up.
pub fn copy_up(work: &mut [Record], sequent: Sequent)
    requires { (length work.old ≤ 65536) × ((sequent.level + 2) * stretch ≤ length work.old) ×
        (sequent.unordered + sequent.ordered ≤ stretch) }
    ensures { work.new ≡ raised work.old sequent }
{
    let first = sequent.level * STRETCH;
    let end = first + STRETCH;
    work.copy_within(first..first + sequent.unordered, end);
    work.copy_within(end - sequent.ordered..end, end + STRETCH - sequent.ordered);
}

// The place of the last ordered record.
pub fn top(sequent: Sequent) -> usize
    requires { (sequent.level < 256) × (sequent.ordered ≤ stretch) }
    ensures { result ≡ top_place sequent }
{
    sequent.level * STRETCH + STRETCH - sequent.ordered
}

// A record pushed on the ordered context.
pub fn push(work: &mut [Record], sequent: Sequent, a: usize, x: usize) -> Sequent
    requires { (sequent.level < 256) × (sequent.unordered + sequent.ordered < stretch) }
    ensures result { result ≡ pushed sequent }
    ensures work { work.new ≡ set work.old (push_place sequent) (rec a x) }
{
    let at = sequent.level * STRETCH + STRETCH - 1 - sequent.ordered;
    put(work, at, a, x);
    Sequent {
        ordered: sequent.ordered + 1,
        ..sequent
    }
}

// The sequent without its last ordered record.
pub fn pop(sequent: Sequent) -> Sequent
    requires { 0 < sequent.ordered }
    ensures { result ≡ popped sequent }
{
    Sequent {
        ordered: sequent.ordered - 1,
        ..sequent
    }
}

// A record appended to the unordered context.
pub fn append(work: &mut [Record], sequent: Sequent, a: usize, x: usize) -> Sequent
    requires { (sequent.level < 256) × (sequent.unordered + sequent.ordered < stretch) }
    ensures result { result ≡ appended sequent }
    ensures work { work.new ≡ set work.old (append_place sequent) (rec a x) }
{
    let at = sequent.level * STRETCH + sequent.unordered;
    put(work, at, a, x);
    Sequent {
        unordered: sequent.unordered + 1,
        ..sequent
    }
}

// Unordered record i taken out; those after it move one place down.
pub fn remove(work: &mut [Record], sequent: Sequent, i: usize) -> Sequent
    requires { (sequent.level < 256) × (i < sequent.unordered) × (sequent.unordered ≤ stretch) ×
        ((sequent.level + 1) * stretch ≤ length work.old) }
    ensures result { result ≡ without sequent }
    ensures work { work.new ≡ removed work.old sequent i }
{
    let first = sequent.level * STRETCH;
    work.copy_within(first + i + 1..first + sequent.unordered, first + i);
    Sequent {
        unordered: sequent.unordered - 1,
        ..sequent
    }
}

// The sequent a level up, with another goal.
pub fn up(sequent: Sequent, goal: usize) -> Sequent
    requires { sequent.level < 256 }
    ensures { result ≡ upped sequent goal }
{
    Sequent {
        level: sequent.level + 1,
        goal,
        ..sequent
    }
}
