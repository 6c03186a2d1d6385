// How an answer is shown.
use std::fmt;

pub fn flag(b: bool) -> &'static str {
    if b { "yes" } else { "no" }
}

// A letter of a long line: g for good, b for bad.
pub fn letter(good: bool) -> char {
    if good { 'g' } else { 'b' }
}

// A place or a level, or the word for none.
#[derive(Drop)]
pub struct Or(pub Option<usize>, pub &'static str);

impl fmt::Display for Or {
    fn fmt<W: fmt::Write>(&self, f: &mut fmt::Formatter<W>) -> fmt::Result {
        match self.0 {
            Some(n) => write!(f, "{n}"),
            None => write!(f, "{}", self.1),
        }
    }
}

// A place, or that nothing is refused.
pub fn place(refused: Option<usize>) -> Or {
    Or(refused, "nowhere")
}
