//! `bench_jobs JOB SIZE SEED`: does one of the jobs that users of the library wait for, on input that it makes from the seed, and
//! writes a digest of all that came of it. The jobs are `fires`, `bursts`, `moves`, `few`, `scripts` and `threads`.
#![tactic(auto)]

mod digest;
mod few;
mod fires;
mod machine;
mod moves;
mod random;
mod scripts;
mod text;
mod threads;

use anyhow::{Context, Result, bail};
use std::env::{self, Env};
use std::sync::Wait;
use std::thread::Threads;

/// What the program is asked for.
#[derive(Drop)]
struct Wanted {
    job: String,
    size: u32,
    seed: u32,
}

/// The words of the program.
fn words<R: Env + AllocGlobal>(rt: &R) -> Result<Wanted> {
    let mut words = env::args(rt)?;
    let _program = words.next();
    let job = words.next().context("which job?")?;
    let size = words.next().context("of which size?")?;
    let seed = words.next().context("of which seed?")?;
    Ok(Wanted {
        job,
        size: size.parse::<u32>()?,
        seed: seed.parse::<u32>()?,
    })
}

/// The digest of all that came of a job.
fn digest_of<R: AllocGlobal + Threads + Wait + Sync>(rt: &R, words: &Wanted) -> Result<u64> {
    let alloc = rt.alloc();
    let Wanted { job, size, seed } = words;
    match job.as_str() {
        "fires" => Ok(fires::fires(alloc, *size, *seed)?),
        "bursts" => Ok(fires::bursts(alloc, *size, *seed)?),
        "moves" => Ok(moves::moves(alloc, *size, *seed)?),
        "few" => Ok(few::few(alloc, *size, *seed)?),
        "scripts" => scripts::scripts(alloc, *size, *seed),
        "threads" => threads::threads(rt, alloc, *size, *seed),
        _ => bail!("no such job"),
    }
}

fn main(rt: HostRuntime) -> Result<()> {
    let words = words(&rt)?;
    let digest = digest_of(&rt, &words)?;
    println!(rt; "{digest}")?;
    Ok(())
}
