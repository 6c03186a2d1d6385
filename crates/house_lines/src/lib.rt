#![tactic(auto)]
// The lines that the program prints for one answer, laid from the front of a lent buffer, with zeros behind them. The three public
// functions are for `house_file`: they require numbers of at most seven digits and room for their lines, which it shows.
ghost use Rattle.std.specs.Prelude.{◌≡◌, ◌++◌, ◌-◌, ◌≤◌, length, take, replicate, unwrap_or};
ghost use Rattle.std.proofs.Math.Option.{some};
ghost use Rattle.theory.specs.NameText.{padded};
ghost use Rattle.theory.specs.File.{line, counted, refused_line, unprovable_lines, proved_with};
ghost use Rattle.house_text.specs.Laid.{Laid, InRoom};
ghost use Rattle.house_lines.specs.Lines.{Printable};

use house_text::{clear_from, lay, lay_decimal};
use meter::State;

// A text, and the newline that ends its line.
fn lay_line(out: &mut [u8], at: usize, text: &[u8]) -> Option<usize>
    ensures { Laid (some (line text.now)) out.old at out.new result }
{
    let next = lay(out, at, text)?;
    lay(out, next, b"\n")
}

// What is counted, its number, and the newline.
fn lay_counted(out: &mut [u8], at: usize, what: &[u8], n: usize) -> Option<usize>
    requires { Printable n }
    ensures { Laid (some (counted what.now n)) out.old at out.new result }
{
    let next = lay(out, at, what)?;
    let end = lay_decimal(out, next, n)?;
    lay(out, end, b"\n")
}

// Zeros behind the lines that end there, of which the size is returned.
fn close(out: &mut [u8], end: Option<usize>) -> usize
    requires { InRoom out.old end }
    ensures out { out.new ≡ take (unwrap_or end 0) out.old ++ replicate (length out.old - unwrap_or end 0) 0 }
    ensures length { result ≡ unwrap_or end 0 }
{
    let size = end.unwrap_or(0);
    clear_from(out, size);
    size
}

// The line of a refusal or a shortage, by its number.
pub fn refused(out: &mut [u8], number: usize) -> usize
    requires printable { Printable number }
    requires room { length (refused_line number) ≤ length out.old }
    ensures out { out.new ≡ padded (length out.old) (refused_line number) }
    ensures length { result ≡ length (refused_line number) }
{
    let end = lay_counted(out, 0, b"refused ", number);
    close(out, end)
}

// The two lines of an unprovable goal.
fn lay_unprovable(out: &mut [u8], at: usize, steps: usize) -> Option<usize>
    requires { Printable steps }
    ensures { Laid (some (unprovable_lines steps)) out.old at out.new result }
{
    let next = lay_line(out, at, b"unprovable")?;
    lay_counted(out, next, b"steps ", steps)
}

// The lines of an unprovable goal.
pub fn unprovable(out: &mut [u8], steps: usize) -> usize
    requires printable { Printable steps }
    requires room { length (unprovable_lines steps) ≤ length out.old }
    ensures out { out.new ≡ padded (length out.old) (unprovable_lines steps) }
    ensures length { result ≡ length (unprovable_lines steps) }
{
    let end = lay_unprovable(out, 0, steps);
    close(out, end)
}

// The six lines of a proved goal, the last of which is the text of its term.
fn lay_proved(out: &mut [u8], at: usize, used: State, text: &[u8]) -> Option<usize>
    requires { Printable used.steps × Printable used.indices × Printable used.formulas × Printable used.terms }
    ensures { Laid (some (proved_with used.steps used.indices used.formulas used.terms text.now)) out.old at out.new result }
{
    let after_verdict = lay_line(out, at, b"proved")?;
    let after_steps = lay_counted(out, after_verdict, b"steps ", used.steps)?;
    let after_names = lay_counted(out, after_steps, b"names ", used.indices)?;
    let after_formulas = lay_counted(out, after_names, b"formulas ", used.formulas)?;
    let after_terms = lay_counted(out, after_formulas, b"terms ", used.terms)?;
    lay_line(out, after_terms, text)
}

// The lines of a proved goal whose text is written.
pub fn proved(out: &mut [u8], used: State, text: &[u8]) -> usize
    requires printable { Printable used.steps × Printable used.indices × Printable used.formulas × Printable used.terms }
    requires room { length (proved_with used.steps used.indices used.formulas used.terms text.now) ≤ length out.old }
    ensures out { out.new ≡ padded (length out.old) (proved_with used.steps used.indices used.formulas used.terms text.now) }
    ensures length { result ≡ length (proved_with used.steps used.indices used.formulas used.terms text.now) }
{
    let end = lay_proved(out, 0, used, text);
    close(out, end)
}
