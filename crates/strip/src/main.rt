// Prints the reports of the strip on standard input, by money and by promise, and how its calls ended.
#![tactic(auto)]

use reader::input::read_whole;
use std::io;
use std::io::Write;
use strip_report::text::strip_text;

fn main(rt: HostRuntime) -> io::Result<()> {
    let strip = read_whole(rt.alloc(), &mut rt.stdin())?;
    let text = strip_text(rt.alloc(), strip.as_slice())?;
    rt.stdout().write_all(text.as_slice())
}
