use crate::amount::Amount;
use crate::kind::Cost;
use crate::pair::Pair;
use crate::target::Measure;
use crate::text::Text;
use crate::written::Written;

const TOP: u64 = 1125899906842624;

fn pair(first: u64, second: u64) -> Pair<Amount, Amount> {
    Pair {
        first: Amount::new(first),
        second: Amount::new(second),
    }
}

#[test]
fn amounts_stop_at_the_top(rt: HostRuntime) {
    let top = Amount::new(TOP);
    let one = Amount::new(1);
    assert_eq!(rt; Amount::new(TOP - 1).units(), TOP - 1);
    assert_eq!(rt; Amount::new(TOP + 1).units(), TOP);
    assert_eq!(rt; Amount::new(TOP - 1).plus(one).units(), TOP);
    assert_eq!(rt; top.plus(one).units(), TOP);
    assert_eq!(rt; Amount::new(7).times(100).units(), 700);
    assert_eq!(rt; Amount::new(7).times(0).units(), 0);
    assert_eq!(rt; top.times(2).units(), TOP);
    assert!(rt; !one.less(one));
    assert!(rt; one.less(top));
}

#[test]
fn pairs_compare_first_parts_first(rt: HostRuntime) {
    assert!(rt; pair(0, 25).less(pair(10, 10)));
    assert!(rt; !pair(10, 10).less(pair(0, 25)));
    assert!(rt; pair(3, 4).less(pair(3, 5)));
    assert!(rt; !pair(3, 5).less(pair(3, 5)));
    let sum = pair(TOP, 2).plus(pair(1, 3));
    assert_eq!(rt; sum.first.units(), TOP);
    assert_eq!(rt; sum.second.units(), 5);
}

#[test]
fn texts_are_written_where_they_fit(rt: HostRuntime) {
    let mut buf = [b'-'; 6];
    assert_eq!(rt; pair(0, 255).to_text().write(&mut buf, 1), Some(6));
    assert!(rt; buf == *b"-0 255");
    assert_eq!(rt; pair(10, 255).to_text().write(&mut buf, 1), None);
    assert!(rt; buf == *b"-0 255");
    assert_eq!(rt; Amount::new(7).to_text().write(&mut buf, 6), None);
    assert_eq!(rt; pair(0, 255).to_text().fits(5), Some(0));
    assert_eq!(rt; pair(0, 255).to_text().fits(4), None);
}

#[test]
fn the_largest_number_has_twenty_digits(rt: HostRuntime) {
    let mut buf = [b'-'; 20];
    assert_eq!(rt; u64::MAX.write(&mut buf, 0), Some(20));
    assert!(rt; buf == *b"18446744073709551615");
    assert_eq!(rt; u64::MAX.fits(20), Some(0));
    assert_eq!(rt; u64::MAX.fits(19), None);
    assert_eq!(rt; usize::MAX.fits(20), Some(0));
    assert_eq!(rt; usize::MAX.fits(19), None);
}

#[test]
fn a_text_of_texts_is_written_in_order(rt: HostRuntime) {
    let line = (*b"least ", (7_u64, *b"\n"));
    let mut buf = [b'-'; 9];
    assert_eq!(rt; line.write(&mut buf, 0), Some(8));
    assert!(rt; buf == *b"least 7\n-");
}

#[test]
fn of_a_text_that_does_not_fit_a_front_is_taken(rt: HostRuntime) {
    let mut measure = Measure { at: 0, size: 3 };
    assert_eq!(rt; pair(10, 255).to_text().put(&mut measure), None);
    assert_eq!(rt; measure, Measure { at: 3, size: 3 });
}
