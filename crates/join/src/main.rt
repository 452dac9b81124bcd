// Joins two half routes that are filed as strips: prints the report of each, and the least cost of the joined route.
#![tactic(auto)]

use anyhow::{Result, anyhow, bail};
use reader::input::read_whole;
use std::fs::File;
use std::io::Write;
use std::{env, io};
use strip_report::join::join_text;

const USAGE: &str = "usage: join FIRST I LEG SECOND J (two strip files, and whole numbers)";

fn read_file(rt: &HostRuntime, path: &str) -> io::Result<Vec<u8>> {
    read_whole(rt.alloc(), &mut File::open(rt, path)?)
}

// The bytes of a strip file; what is wrong is told with the file's name.
fn read_strip(rt: &HostRuntime, path: &str) -> Result<Vec<u8>> {
    read_file(rt, path).map_err(|error| anyhow!("{path}: {error}"))
}

// A leg past 16 bits is too long however long it is.
fn leg_of(word: &str) -> Option<u16> {
    let leg = word.parse::<u64>().ok()?;
    Some(u16::try_from(leg).unwrap_or(u16::MAX))
}

// What is printed of the join that the arguments ask for.
fn joined(rt: &HostRuntime, args: &[String]) -> Result<Vec<u8>> {
    let [_, first, i, leg, second, j] = args else {
        bail!("{USAGE}");
    };
    let (Ok(i), Some(leg), Ok(j)) = (
        i.as_str().parse::<usize>(),
        leg_of(leg.as_str()),
        j.as_str().parse::<usize>(),
    ) else {
        bail!("{USAGE}");
    };
    let front = read_strip(rt, first.as_str())?;
    let back = read_strip(rt, second.as_str())?;
    Ok(join_text(rt.alloc(), front.as_slice(), i, leg, back.as_slice(), j)?)
}

fn main(rt: HostRuntime) -> Result<()> {
    let args: Vec<String> = env::args(&rt)?.collect(rt.alloc())?;
    let text = joined(&rt, args.as_slice())?;
    rt.stdout().write_all(text.as_slice())?;
    Ok(())
}

#[cfg(test)]
mod tests {
    use crate::{USAGE, joined, leg_of};
    use std::alloc::{AllocError, Global};
    use std::test::Fail;

    fn arguments(heap: Global, line: &str) -> Result<Vec<String>, AllocError> {
        let mut words = Vec::new(heap);
        for word in line.split(' ') {
            words.push(String::from_str(heap, word)?)?;
        }
        Ok(words)
    }

    // What stands behind `Error: ` on standard error, or nothing.
    fn complaint(rt: &HostRuntime, line: &str) -> Result<String, AllocError> {
        let args = arguments(rt.alloc(), line)?;
        match joined(rt, args.as_slice()) {
            Ok(_) => Ok(String::new(rt.alloc())),
            Err(error) => format!(in rt.alloc(); "{error}"),
        }
    }

    #[test]
    fn wrong_arguments(rt: HostRuntime) -> Result<(), Fail> {
        for line in [
            "join",
            "join a.strip 1 0 b.strip",
            "join a.strip 1 0 b.strip 1 1",
            "join a.strip one 0 b.strip 1",
            "join a.strip 1 -1 b.strip 1",
            "join a.strip 1 0 b.strip 1.5",
        ] {
            let told = complaint(&rt, line)?;
            assert!(rt; told.as_str() == USAGE);
        }
        Ok(())
    }

    #[test]
    fn legs_past_their_words(rt: HostRuntime) {
        assert_eq!(rt; leg_of("600"), Some(600));
        assert_eq!(rt; leg_of("65535"), Some(65535));
        assert_eq!(rt; leg_of("65536"), Some(65535));
        assert_eq!(rt; leg_of("18446744073709551615"), Some(65535));
        assert_eq!(rt; leg_of("18446744073709551616"), None);
        assert_eq!(rt; leg_of("ten"), None);
    }
}
