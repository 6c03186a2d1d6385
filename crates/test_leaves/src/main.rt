#![tactic(auto)]
// The boundaries of the leaves: what each function answers just inside and just outside of every rule.
mod names;
mod nodes;
mod show;
mod words;

use std::io;

fn main(rt: HostRuntime) -> io::Result<()> {
    let mut out = io::writer(&rt);
    words::all(&mut out)?;
    names::all(&mut out)?;
    nodes::all(&mut out)
}
