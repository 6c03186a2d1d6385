#![tactic(auto)]
// Prints what the prover says of a house file: the file that the first argument names, or standard input where there is none.
ghost use Rattle.std.specs.Prelude.{◌≡◌, ◌≤◌, ◌<◌, IfOk, OnOk, IfSome, length, slice_range};
ghost use Rattle.std.specs.Io.KnownBytes.{Appends, Consumes, IsAtEnd};
ghost use Rattle.theory.specs.File.{printed};
ghost use Rattle.quaysaffron.specs.Reading.{Grown};

use std::env::{Env, FillError};
use std::io::{Read, Write};
use std::process::ExitCode;
use std::rt::Files;
use std::{fs, io, str};

// Reads once, behind the `done` bytes that were read before, and leaves these; no byte more is the end of the input.
fn read_more<R: Read>(from: &mut R, buf: &mut [u8], done: usize) -> io::Result<usize>
    requires { done ≤ length buf.old }
    ensures grown { Grown done buf.old result buf.new }
    ensures bytes { IfOk result (λ n. Consumes (R.remaining from.old) (R.remaining from.new)
        (slice_range buf.new done n)) }
    ensures end { IfOk result (λ n. n ≡ done → done < length buf.new → IsAtEnd (R.remaining from.new)) }
{
    let got = from.read(&mut buf[done..])?;
    Ok(done + got)
}

// Reads until the input ends or the buffer is full: a pipe hands its bytes over in pieces. It is stated for a buffer with `start` bytes in
// it, which every turn of the loop must leave.
fn read_rest<R: Read>(from: &mut R, buf: &mut [u8], start: usize) -> io::Result<usize>
    requires { start ≤ length buf.old }
    ensures grown { Grown start buf.old result buf.new }
    ensures bytes { IfOk result (λ n. Consumes (R.remaining from.old) (R.remaining from.new)
        (slice_range buf.new start n)) }
    ensures end { IfOk result (λ n. n < length buf.new → IsAtEnd (R.remaining from.new)) }
{
    let mut done = start;
    // a `while`: how many bytes a turn adds is the reader's to say
    while done < buf.len() {
        let all = read_more(from, buf, done)?;
        if all == done {
            break;
        }
        done = all;
    }
    Ok(done)
}

// Prints what the prover says of a file.
fn print<W: Write>(out: &mut W, file: &[u8]) -> io::Result<()>
    ensures { OnOk result (Appends (W.contents out.old) (W.contents out.new) (printed file.now)) }
{
    let mut buffer = [0u8; house_file::OUTPUT_BYTES];
    let n = house_file::output(file, &mut buffer);
    let lines = &buffer[..n];
    out.write_all(lines)
}

// A byte more than a house file may have, which is enough to know that it has too many. The program takes no memory while it runs, so what
// it reads stands in an array of this size.
const MOST_READ: usize = 32769;

// Which of the two the system refused.
#[derive(Drop)]
enum Failure {
    Reading(io::Error),
    Writing(io::Error),
}

// Writes the lines of the file that a reader gives, however long it is.
fn answer<R: Read, W: Write>(from: &mut R, out: &mut W) -> Result<(), Failure>
    ensures { OnOk result (IfSome (R.remaining from.old)
        (λ file. Appends (W.contents out.old) (W.contents out.new) (printed file))) }
{
    let mut file = [0u8; MOST_READ];
    let n = read_rest(from, &mut file, 0).map_err(Failure::Reading)?;
    print(out, &file[..n]).map_err(Failure::Writing)
}

// Says what failed and why. That nobody listens changes no exit status.
fn fail(rt: &impl Eprint, name: &str, error: io::Error) -> ExitCode {
    let _ = eprintln!(rt; "{name}: {error}");
    ExitCode::FAILURE
}

fn answer_from<R: Read>(rt: &(impl Print + Eprint), from: &mut R, name: &str) -> ExitCode {
    match answer(from, &mut io::writer(rt)) {
        Ok(()) => ExitCode::SUCCESS,
        Err(Failure::Reading(error)) => fail(rt, name, error),
        Err(Failure::Writing(error)) => fail(rt, "standard output", error),
    }
}

fn answer_file(rt: &(impl Files + Print + Eprint), name: &str) -> ExitCode {
    match fs::open(rt, name) {
        Ok(mut file) => answer_from(rt, &mut file, name),
        Err(error) => fail(rt, name, error),
    }
}

// The file's name stands in an array too.
fn main(rt: HostRuntime) -> ExitCode {
    let mut path = [0u8; 4096];
    let name = "the file's name";
    match rt.arg(1, &mut path) {
        Ok(n) => match str::from_utf8(&path[..n]) {
            Ok(name) => answer_file(&rt, name),
            Err(_) => fail(&rt, name, io::Error::from(io::ErrorKind::InvalidData)),
        },
        Err(FillError::NotPresent) => answer_from(&rt, &mut rt.stdin(), "standard input"),
        Err(FillError::TooLong) => fail(&rt, name, io::Error::from(io::ErrorKind::InvalidFilename)),
    }
}
