// Tries an outcome of a question in every memory order and with every source of each load.
#![tactic(auto)]

use failure::Failure;
use std::alloc::Global;
use std::process::ExitCode;
use std::{env, fs};
use tests::LitmusTest;
use tries::Tally;
use untried::Untried;

mod failure;
mod tests;
mod tries;
mod untried;

/// Allowed or forbidden.
fn word(accepted: u64) -> &'static str {
    if accepted > 0 { "allowed" } else { "forbidden" }
}

/// The test of a line, and what came of it.
fn tried(heap: Global, line: &str) -> Result<(LitmusTest<'_>, Tally), Untried<'_>> {
    let test = LitmusTest::parse(heap, line)?;
    let tally = test.tried(heap)?;
    Ok((test, tally))
}

/// Tries one test, prints what came of it, and answers whether it is as stated.
fn report(rt: &HostRuntime, line: &str) -> Result<bool, Failure> {
    let (test, Tally { tried, gam, sc }) = match tried(rt.alloc(), line) {
        Ok(tried) => tried,
        Err(Untried::Memory(e)) => return Err(Failure::Memory(e)),
        Err(untried) => {
            rt.println(untried)?;
            return Ok(false);
        }
    };
    println!(rt;
        "{}, {}: {} under GAM, {} under SC ({tried} witnesses: {gam} and {sc} accepted)",
        test.name,
        test.outcome,
        word(gam),
        word(sc)
    )?;
    Ok((gam > 0) == test.allowed)
}

fn run(rt: &HostRuntime) -> Result<(), Failure> {
    let args = env::args(rt).map_err(|_| Failure::Usage)?;
    let words: Vec<String> = args.skip(1).collect(rt.alloc())?;
    let [path] = &words[..] else {
        return Err(Failure::Usage);
    };
    let text = fs::read_to_string(rt, path.as_str()).map_err(Failure::Unreadable)?;
    let mut tests = 0u64;
    let mut otherwise = 0u64;
    let lines = text.lines().map(|line| line.trim());
    for line in lines.filter(|line| !line.is_empty() && !line.starts_with('#')) {
        tests = tests.saturating_add(1);
        if !report(rt, line)? {
            otherwise = otherwise.saturating_add(1);
        }
    }
    println!(rt; "{tests} litmus tests, {otherwise} not as stated")?;
    if otherwise > 0 {
        return Err(Failure::Otherwise);
    }
    Ok(())
}

fn main(rt: HostRuntime) -> ExitCode {
    match run(&rt) {
        Ok(()) => ExitCode::SUCCESS,
        Err(failure) => {
            let _ = eprintln!(rt; "litmus: {failure}");
            ExitCode::FAILURE
        }
    }
}
