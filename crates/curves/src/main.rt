// Prints the curves of the strip on standard input, one to a line, or the fault in its rows.
#![tactic(auto)]

use curve_report::report::curves_text;
use reader::input::read_whole;
use std::io;

fn main(rt: HostRuntime) -> io::Result<()> {
    let strip = read_whole(rt.alloc(), &mut rt.stdin())?;
    let text = curves_text(rt.alloc(), strip.as_slice())?;
    print!(rt; "{text}")
}
