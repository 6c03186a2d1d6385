#![tactic(auto)]
// Limits, states, sequents and answers of the search, the small moves on states, and the test of a charge: theory's Meter in numbers.
// What is `pub` here is for the search's own crates, and Limit for those who read an answer: a `requires` is what their code shows first.
ghost use Rattle.std.specs.Prelude.{◌≡◌, ◌+◌, ◌≤◌, ◌<◌};
ghost use Rattle.theory.specs.Meter.{lacking};
ghost use Rattle.meter.specs.Moves.{stepped, spent, returned, limits_of, number_of, charged};

// The most generated indices, skipped ones included.
const MOST_INDICES: usize = 4096;

// The most records over both contexts of a sequent.
pub const MOST_RECORDS: usize = 256;

// What can run short, by the numbers of document 01's table.
#[derive(Clone, Copy, PartialEq, Eq)]
pub enum Limit {
    Steps = 6,
    Names,
    Formulas,
    Terms,
    Contexts,
    Levels,
}

// What the search may use: steps, formula words, term nodes, and the highest level.
#[derive(Clone, Copy)]
pub struct Limits {
    pub steps: usize,
    pub formulas: usize,
    pub terms: usize,
    pub levels: usize,
}

// What the search has used: steps entered, generated indices, and the fills of the lent words and nodes.
#[derive(Clone, Copy, PartialEq, Eq)]
pub struct State {
    pub steps: usize,
    pub indices: usize,
    pub formulas: usize,
    pub terms: usize,
}

// A sequent: its level's stretch of the work area holds so many unordered and ordered records; the goal is a formula's index. No ghost
// field bounds it: a struct that has one takes no `..sequent`, and each move needs a bound of its own.
#[derive(Clone, Copy)]
pub struct Sequent {
    pub level: usize,
    pub unordered: usize,
    pub ordered: usize,
    pub goal: usize,
}

// A term: its node, and what has been used by then.
#[derive(Clone, Copy)]
pub struct Found {
    pub node: usize,
    pub state: State,
}

// No term, and what has been used by then.
#[derive(Clone, Copy)]
pub enum Missed {
    // there is none
    Failed(State),
    // a limit would be passed
    Short(Limit, State),
}

// What a judgement answers.
pub type Answer = Result<Found, Missed>;

// What one turn of left comes to, where nothing is missed.
#[derive(Clone, Copy)]
pub enum Next {
    // left again
    Go(State, Sequent),
    // a term
    End(Found),
    // the two premises of a disjunction
    Split(State, Sequent),
    // the tries of search
    Try(State, Sequent),
}

impl Limit {
    // The number by which a shortage is told.
    pub fn number(self) -> usize
        ensures { result ≡ number_of self }
    {
        self as usize
    }
}

impl State {
    // One more step entered.
    pub fn counted(self) -> State
        requires { self.steps < 1000000 }
        ensures { result ≡ stepped self }
    {
        State {
            steps: self.steps + 1,
            ..self
        }
    }

    // Indices used up to a number, and so many formulas and terms more.
    pub fn spend(self, indices: usize, formulas: usize, terms: usize) -> State
        requires { (self.formulas + formulas ≤ 16384) × (self.terms + terms ≤ 16384) }
        ensures { result ≡ spent self indices formulas terms }
    {
        State {
            indices,
            formulas: self.formulas + formulas,
            terms: self.terms + terms,
            ..self
        }
    }

    // After a failed try: the fills from before it, the steps and indices from after it.
    pub fn give_back(self, after: State) -> State
        ensures { result ≡ returned self after }
    {
        State {
            steps: after.steps,
            indices: after.indices,
            ..self
        }
    }

    // Whether the limits let a charge through that comes to these indices, fills, records and this level; else the first that it passes.
    // Each charge has its own five numbers: a struct of them would be made at the call and taken apart here.
    pub fn charge(
        self,
        limits: Limits,
        indices: usize,
        formulas: usize,
        terms: usize,
        records: usize,
        level: usize,
    ) -> Result<(), Missed>
        ensures { result ≡ charged (lacking (limits_of limits) indices formulas terms records level)
            self }
    {
        let passed = if MOST_INDICES < indices {
            Limit::Names
        } else if limits.formulas < formulas {
            Limit::Formulas
        } else if limits.terms < terms {
            Limit::Terms
        } else if MOST_RECORDS < records {
            Limit::Contexts
        } else if limits.levels < level {
            Limit::Levels
        } else {
            return Ok(());
        };
        Err(Missed::Short(passed, self))
    }
}
