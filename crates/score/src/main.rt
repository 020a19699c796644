// Scores one worksheet that comes on standard input: `score 25 < sheet`, where 25 is the number of units in the sample.
#![tactic(auto)]

use anyhow::{anyhow, ensure};
use std::env;
use std::io::Read;
use worksheet::scoring::{Scored, read};

// A portion's sample on normal inspection.
const USUAL_UNITS: u32 = 25;

// How many bytes are read at a time.
const PART: usize = 65536;

const USAGE: &str =
    "score takes one argument at most: the number of units in the sample, as in `score 25 < sheet`";

// The number of units that the argument gives.
fn sample_units(rt: &HostRuntime) -> anyhow::Result<u32> {
    let mut args = env::args(rt)?.skip(1);
    let units = match args.next() {
        Some(arg) => arg.as_str().parse().map_err(|_| anyhow!("{USAGE}"))?,
        None => USUAL_UNITS,
    };
    ensure!(args.next().is_none(), "{USAGE}");
    Ok(units)
}

// All of standard input, a large part at a time. `read_to_end` wants room beyond the last byte before it can tell that it was the last.
fn read_input(rt: &HostRuntime) -> anyhow::Result<Vec<u8>> {
    let heap = rt.alloc();
    let mut input = Vec::new(heap);
    let mut part = vec![in heap; 0u8; PART]?;
    let mut stdin = rt.stdin();
    for _ in 0..u64::MAX {
        let n = stdin.read(&mut part)?;
        if n == 0 {
            break;
        }
        // Growing copies what is there, so it is done seldom; where so much room is not to be had, less may do.
        if input.capacity() - input.len() < n
            && input.reserve(input.len().saturating_mul(3).max(n)).is_err()
        {
            input.reserve(n)?;
        }
        input.extend_from_slice(&part[..n])?;
    }
    Ok(input)
}

fn print_scored(rt: &HostRuntime, units: u32, scored: Scored) -> anyhow::Result<()> {
    let tally = scored.tally;
    println!(rt; "sample units: {units}")?;
    println!(rt; "lines read: {}", scored.lines)?;
    println!(rt; "critical: {}", tally.critical)?;
    println!(rt; "major: {}", tally.major)?;
    println!(rt; "minor: {}", tally.minor)?;
    println!(rt; "total: {}", tally.total())?;
    Ok(())
}

fn main(rt: HostRuntime) -> anyhow::Result<()> {
    let units = sample_units(&rt)?;
    let sheet = read_input(&rt)?;
    match read(&sheet, units) {
        Ok(scored) => print_scored(&rt, units, scored),
        Err(refusal) => {
            println!(rt; "{refusal}")?;
            Err(anyhow!("the sheet is refused"))
        }
    }
}
