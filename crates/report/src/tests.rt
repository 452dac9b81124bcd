use crate::refusal::ReportRefusal;
use crate::report::write_report;
use crate::routes::report;
use cost::amount::Amount;
use cost::pair::Pair;
use route::stop::Facts;
use route::table::Route;
use source::due::{DueBook, DueRow};
use std::test::Fail;

fn stop(curve: u8, minute: u16) -> Facts {
    Facts {
        curve,
        leg: 0,
        mark: minute,
        minute,
    }
}

#[test]
fn an_empty_route_has_two_lines(rt: HostRuntime) {
    let mut buf = [b'-'; 16];
    assert_eq!(rt; write_report(&[], Amount::new(0), &mut buf), Ok(16));
    assert!(rt; buf == *b"stops 0\nleast 0\n");
}

#[test]
fn bytes_past_the_report_stay(rt: HostRuntime) {
    let mut buf = [b'-'; 44];
    assert_eq!(rt;
        write_report(&[stop(0, 600)], Amount::new(0), &mut buf),
        Ok(42)
    );
    assert!(rt; buf == *b"stops 1\nstop 1 curve 0 minute 600\nleast 0\n--");
}

#[test]
fn a_buffer_one_byte_too_short_stays(rt: HostRuntime) {
    let mut buf = [b'-'; 41];
    let refusal = ReportRefusal::BufferTooShort;
    assert_eq!(rt;
        write_report(&[stop(0, 600)], Amount::new(0), &mut buf),
        Err(refusal)
    );
    assert_eq!(rt; refusal.number(), 6);
    assert!(rt; buf == [b'-'; 41]);
}

#[test]
fn a_pair_is_written_part_by_part(rt: HostRuntime) {
    let least = Pair {
        first: Amount::new(0),
        second: Amount::new(25),
    };
    let mut buf = [b'-'; 71];
    assert_eq!(rt;
        write_report(&[stop(3, 595), stop(1, 605)], least, &mut buf),
        Ok(71)
    );
    assert!(rt;
        buf == *b"stops 2\nstop 1 curve 3 minute 595\nstop 2 curve 1 minute 605\nleast 0 25\n"
    );
}

fn row(due: u16, early: u16, late: u16) -> DueRow {
    DueRow {
        first: 0,
        last: 1440,
        due,
        early,
        late,
    }
}

#[test]
fn a_route_is_reported(rt: HostRuntime) -> Result<(), Fail> {
    let book = DueBook::of_rows(rt.alloc(), &[row(600, 1, 3), row(605, 2, 2)])?;
    let mut route = Route::open(rt.alloc(), book)?;
    route.insert(1, 0, 0, 0)?;
    route.insert(2, 1, 10, 0)?;
    let mut buf = [b'-'; 68];
    assert_eq!(rt; report(&route, &mut buf), Ok(68));
    assert!(rt;
        buf == *b"stops 2\nstop 1 curve 0 minute 595\nstop 2 curve 1 minute 605\nleast 5\n"
    );
    Ok(())
}
