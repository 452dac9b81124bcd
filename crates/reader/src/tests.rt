use crate::calls::run_calls;
use crate::faults::{Cause, Fault, RefusedCall};
use crate::input::{read_strip, read_whole};
use crate::lines::fault_line;
use crate::rows::read_rows;
use crate::strip::Strip;
use route::stop::{Facts, Refusal};
use route::table::Route;
use source::due::{DueBook, DueRow};
use std::io;
use std::io::{ErrorKind, Read};
use std::test::Fail;

fn row(first: u16, last: u16, due: u16, early: u16, late: u16) -> DueRow {
    DueRow {
        first,
        last,
        due,
        early,
        late,
    }
}

// The row count and where the calls begin, or the fault's number, count and byte.
type Told = Result<(usize, usize), (u8, usize, usize)>;

fn told(strip: &[u8], table: &mut [DueRow]) -> Told {
    match read_rows(strip, table) {
        Ok(read) => Ok((read.rows, read.calls)),
        Err(fault) => Err((fault.cause.number(), fault.count, fault.byte)),
    }
}

// The same, with room for two rows.
fn two(strip: &[u8]) -> Told {
    let mut table = [row(0, 0, 0, 0, 0); 2];
    told(strip, &mut table)
}

#[test]
fn rows_stand_in_front(rt: HostRuntime) {
    let old = row(7, 7, 7, 7, 7);
    let mut table = [old; 3];
    let strip = [
        2, 0x1C, 0x02, 0x58, 0, 5, 0, 3, 0x03, 0x02, 0x4E, 0x02, 0x62, 0x18, 3,
    ];
    assert_eq!(rt; told(&strip, &mut table), Ok((2, 13)));
    assert_eq!(rt; table[0], row(0, 1440, 600, 5, 3));
    assert_eq!(rt; table[1], row(590, 610, 0, 0, 0));
    assert_eq!(rt; table[2], old);
}

#[test]
fn rows_before_a_fault_stay(rt: HostRuntime) {
    let old = row(7, 7, 7, 7, 7);
    let mut table = [old; 3];
    let strip = [3, 0x10, 0x03, 0xE8, 0x21, 0, 0];
    assert_eq!(rt; told(&strip, &mut table), Err((9, 1, 4)));
    assert_eq!(rt; table[0], row(0, 1440, 0, 0, 1000));
    assert_eq!(rt; table[1], old);
    assert_eq!(rt; table[2], old);
}

#[test]
fn strips_refused_as_a_whole(rt: HostRuntime) {
    assert_eq!(rt; two(&[]), Err((7, 0, 0)));
    assert_eq!(rt; two(&[0; 4096]), Ok((0, 1)));
    assert_eq!(rt; two(&[0; 4097]), Err((8, 0, 0)));
    assert_eq!(rt; two(&[65]), Err((8, 0, 0)));
    assert_eq!(rt; two(&[64]), Err((6, 0, 0)));
    assert_eq!(rt; two(&[3, 0, 0, 0]), Err((6, 0, 0)));
    assert_eq!(rt; two(&[2, 0, 0]), Ok((2, 3)));
}

#[test]
fn records_cut_off_or_with_a_wrong_map(rt: HostRuntime) {
    assert_eq!(rt; two(&[1]), Err((7, 0, 1)));
    assert_eq!(rt; two(&[2, 0]), Err((7, 1, 2)));
    assert_eq!(rt; two(&[1, 0x20]), Err((9, 0, 1)));
    assert_eq!(rt; two(&[1, 0x9F]), Err((9, 0, 1)));
    assert_eq!(rt; two(&[1, 0x01, 0]), Err((7, 0, 1)));
    assert_eq!(rt; two(&[2, 0x04, 0, 9, 0x11, 0, 5, 1]), Err((7, 1, 4)));
    assert_eq!(rt; two(&[2, 0x04, 0, 9, 0x11, 0, 5, 1, 0]), Ok((2, 9)));
}

#[test]
fn rows_on_each_side_of_their_limits(rt: HostRuntime) {
    assert_eq!(rt; two(&[1, 0x03, 0x02, 0x4E, 0x02, 0x4E]), Ok((1, 6)));
    assert_eq!(rt; two(&[1, 0x03, 0x02, 0x4F, 0x02, 0x4E]), Err((10, 0, 1)));
    assert_eq!(rt; two(&[1, 0x02, 0x05, 0xA0]), Ok((1, 4)));
    assert_eq!(rt; two(&[1, 0x02, 0x05, 0xA1]), Err((10, 0, 1)));
    assert_eq!(rt; two(&[1, 0x04, 0x05, 0xA0]), Ok((1, 4)));
    assert_eq!(rt; two(&[1, 0x04, 0x05, 0xA1]), Err((10, 0, 1)));
    assert_eq!(rt; two(&[1, 0x18, 0x03, 0xE8, 0x03, 0xE8]), Ok((1, 6)));
    assert_eq!(rt; two(&[1, 0x18, 0x03, 0xE9, 0x03, 0xE8]), Err((10, 0, 1)));
    assert_eq!(rt; two(&[1, 0x18, 0x03, 0xE8, 0x03, 0xE9]), Err((10, 0, 1)));
}

#[test]
fn input_fills_the_front(rt: HostRuntime) {
    let mut wide = [9; 5];
    let mut short: &[u8] = &[1, 2, 3];
    assert_eq!(rt; read_strip(&mut short, &mut wide).unwrap_or(0), 3);
    assert!(rt; wide == [1, 2, 3, 9, 9]);
    let mut narrow = [9; 2];
    let mut long: &[u8] = &[1, 2, 3];
    assert_eq!(rt; read_strip(&mut long, &mut narrow).unwrap_or(0), 2);
    assert!(rt; narrow == [1, 2]);
    assert_eq!(rt; read_strip(&mut long, &mut []).unwrap_or(9), 0);
}

#[test]
fn inputs_are_read_whole(rt: HostRuntime) -> Result<(), Fail> {
    let mut short: &[u8] = &[1, 2, 3];
    let strip = read_whole(rt.alloc(), &mut short)?;
    assert!(rt; strip.as_slice() == [1, 2, 3].as_slice());
    let mut long: &[u8] = &[9; 5000];
    let strip = read_whole(rt.alloc(), &mut long)?;
    assert_eq!(rt; strip.len(), 4097);
    assert_eq!(rt; long.len(), 903);
    Ok(())
}

// An input that refuses a read into no room.
#[derive(Drop)]
struct Strict {
    left: usize,
}

impl Read for Strict {
    fn read(&mut self, buf: &mut [u8]) -> io::Result<usize> {
        if buf.is_empty() {
            return Err(ErrorKind::InvalidInput.into());
        }
        let count = buf.len().min(self.left).min(700);
        self.left -= count;
        Ok(count)
    }
}

#[test]
fn no_read_once_full(rt: HostRuntime) -> Result<(), Fail> {
    let mut full = Strict { left: 4097 };
    assert_eq!(rt; read_whole(rt.alloc(), &mut full)?.len(), 4097);
    let mut long = Strict { left: 5000 };
    assert_eq!(rt; read_whole(rt.alloc(), &mut long)?.len(), 4097);
    assert_eq!(rt; long.left, 903);
    Ok(())
}

#[test]
fn strips_are_read_with_their_rows(rt: HostRuntime) -> Result<(), Fail> {
    let bytes = [1, 0x1C, 0x02, 0x58, 0, 5, 0, 3, 9];
    let strip = Strip::read(rt.alloc(), &bytes)?.ok().expect(&rt, "a strip");
    assert!(rt; strip.rows.as_slice() == [row(0, 1440, 600, 5, 3)].as_slice());
    assert_eq!(rt; strip.calls, 8);
    let fault = Fault {
        cause: Cause::RowMap,
        count: 1,
        byte: 2,
    };
    assert_eq!(rt; Strip::read(rt.alloc(), &[2, 0, 0x20])?.err(), Some(fault));
    Ok(())
}

// The one call begins at byte 8, and the strip has 10 bytes.
#[test]
fn calls_that_begin_at_the_end_or_past_it(rt: HostRuntime) -> Result<(), Fail> {
    let strip = [1, 0x1C, 0x02, 0x58, 0, 5, 0, 3, 0x01, 0];
    let book = DueBook::of_rows(rt.alloc(), &[row(0, 1440, 600, 5, 3)])?;
    let mut route = Route::open(rt.alloc(), book)?;
    assert_eq!(rt; run_calls(&mut route, &strip, 8), Ok(1));
    let stop = Facts {
        curve: 0,
        leg: 0,
        mark: 600,
        minute: 600,
    };
    assert_eq!(rt; route.facts(1), Ok(stop));
    assert_eq!(rt; run_calls(&mut route, &strip, 10), Ok(0));
    assert_eq!(rt;
        run_calls(&mut route, &strip, 11),
        Err(Cause::CutOff.fault(0, 11))
    );
    assert_eq!(rt;
        run_calls(&mut route, &strip, 13),
        Err(Cause::CutOff.fault(0, 13))
    );
    assert_eq!(rt; route.stop_count(), 1);
    assert_eq!(rt; route.facts(1), Ok(stop));
    Ok(())
}

#[test]
fn faults_print_the_stop_that_is_named(rt: HostRuntime) -> Result<(), Fail> {
    let refused = RefusedCall {
        refusal: Refusal::NoTimetable { stop: 2 },
        count: 1,
        byte: 10,
    };
    let line = fault_line(rt.alloc(), Fault::from(refused))?;
    assert!(rt; line.as_str() == "fault 5 byte 10 stop 2\n");
    Ok(())
}
