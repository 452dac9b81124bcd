// Runs the commands in the file `cases`, one to a line, on the strips beside it, and prints each command and what comes
// of it: `strip NAME` as the program strip prints it, `join FIRST I LEG SECOND J` as the program join does.
#![tactic(auto)]

use anyhow::anyhow;
use std::fs;
use std::io::Write;
use strip_report::join::join_text;
use strip_report::text::strip_text;

// What is printed of a command, taken apart into words.
fn outcome(rt: &HostRuntime, words: &[&str]) -> anyhow::Result<Vec<u8>> {
    let heap = rt.alloc();
    match words {
        [_, name] => {
            let strip = fs::read(rt, *name)?;
            Ok(strip_text(heap, strip.as_slice())?)
        }
        [_, first, i, leg, second, j] => {
            let front = fs::read(rt, *first)?;
            let back = fs::read(rt, *second)?;
            Ok(join_text(
                heap,
                front.as_slice(),
                i.parse::<usize>()?,
                leg.parse::<u16>()?,
                back.as_slice(),
                j.parse::<usize>()?,
            )?)
        }
        _ => Err(anyhow!("a command has two words or six")),
    }
}

fn run(rt: &HostRuntime, command: &str) -> anyhow::Result<()> {
    let words: Vec<&str> = command.split(' ').collect(rt.alloc())?;
    let text = outcome(rt, words.as_slice())?;
    println!(rt; "> {command}")?;
    rt.stdout().write_all(text.as_slice())?;
    Ok(())
}

fn main(rt: HostRuntime) -> anyhow::Result<()> {
    let cases = fs::read_to_string(&rt, "cases")?;
    for command in cases.as_str().lines() {
        run(&rt, command)?;
    }
    Ok(())
}
