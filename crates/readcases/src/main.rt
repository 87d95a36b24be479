// Reads cases from a file, and compares what the reader says of each with what is expected.
#![tactic(auto)]

mod cases;
mod running;

use crate::running::run;
use std::io::Write;
use std::{fs, io};

fn main(rt: HostRuntime) -> io::Result<()> {
    let data = fs::read(&rt, "reading.cases")?;
    let report = run(rt.alloc(), &data)?;
    let mut output = rt.stdout();
    output.write_all(&report)
}
