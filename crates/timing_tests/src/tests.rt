use crate::due::Due;
use crate::lines::Table;
use crate::pricing::{Money, Promise};
use timing::line::Line;
use timing::marked::MarkedLine;
use timing::marks::refresh;
use timing::reach::first_blocked;

const A: Due = Due {
    first: 0,
    last: 1440,
    due: 600,
    early: 1,
    late: 3,
    leg: 0,
};

const B: Due = Due {
    first: 0,
    last: 1440,
    due: 605,
    early: 2,
    late: 2,
    leg: 10,
};

// Costs nothing in its window.
const C: Due = Due {
    first: 590,
    last: 610,
    due: 600,
    early: 0,
    late: 0,
    leg: 0,
};

const D: Due = Due {
    first: 0,
    last: 1440,
    due: 600,
    early: 5,
    late: 3,
    leg: 0,
};

fn after(stop: Due, leg: u16) -> Due {
    Due { leg, ..stop }
}

// The marks and the minutes of up to three stops.
fn times<L: Line>(line: &L) -> ([u16; 3], [u16; 3]) {
    let mut marks = [0; 3];
    refresh(line, &mut marks, 0);
    let marked = MarkedLine {
        line,
        marks: &marks,
    };
    let minutes = [marked.minute(0), marked.minute(1), marked.minute(2)];
    (marks, minutes)
}

// What the stops cost at those minutes.
fn least<L: Line>(line: &L, marks: &[u16]) -> L::Kind {
    MarkedLine { line, marks }.least()
}

#[test]
fn no_stops_cost_nothing(rt: HostRuntime) {
    let line = Table {
        stops: &[],
        pricing: Money,
    };
    assert_eq!(rt; first_blocked(&line), None);
    assert_eq!(rt; least(&line, &[]).units(), 0);
}

// B alone would be served at 605, and A at 600: together A leaves early, at 595, for 5.
#[test]
fn two_stops_move_together(rt: HostRuntime) {
    let line = Table {
        stops: &[A, B],
        pricing: Money,
    };
    let (marks, minutes) = times(&line);
    assert_eq!(rt; marks, [600, 605, 0]);
    assert_eq!(rt; minutes, [595, 605, 0]);
    assert_eq!(rt; least(&line, &marks).units(), 5);
}

// C keeps A from leaving before 596, so B comes at 606: 4 for A early, 2 for B late.
#[test]
fn a_window_stops_the_block(rt: HostRuntime) {
    let line = Table {
        stops: &[C, after(A, 6), B],
        pricing: Money,
    };
    let (marks, minutes) = times(&line);
    assert_eq!(rt; marks, [590, 600, 606]);
    assert_eq!(rt; minutes, [590, 596, 606]);
    assert_eq!(rt; least(&line, &marks).units(), 6);
}

// Marks before the place stay, and so does what lies past the last stop.
#[test]
fn marks_are_refreshed_from_a_place_on(rt: HostRuntime) {
    let line = Table {
        stops: &[C, after(A, 6), B],
        pricing: Money,
    };
    let mut marks = [590, 9, 9, 9];
    let first = MarkedLine {
        line: &line,
        marks: &marks[..1],
    };
    assert_eq!(rt; first.next_mark(), 600);
    refresh(&line, &mut marks, 1);
    assert_eq!(rt; marks, [590, 600, 606, 9]);
}

// The first stop costs one less each minute, up to its last one; the second three more, so it is served as soon as it can be.
#[test]
fn windows_bind_on_both_sides(rt: HostRuntime) {
    let falling = Due {
        first: 100,
        last: 110,
        due: 200,
        early: 1,
        late: 0,
        leg: 0,
    };
    let rising = Due {
        first: 0,
        last: 115,
        due: 0,
        early: 0,
        late: 3,
        leg: 10,
    };
    let line = Table {
        stops: &[falling, rising],
        pricing: Money,
    };
    let (marks, minutes) = times(&line);
    assert_eq!(rt; marks, [110, 110, 0]);
    assert_eq!(rt; minutes, [100, 110, 0]);
    assert_eq!(rt; least(&line, &marks).units(), 430);
}

// From 605 to 610 each minute later costs the second stop what it saves the first: 5 in all, and the earliest is best.
#[test]
fn the_earliest_of_equals_is_best(rt: HostRuntime) {
    let line = Table {
        stops: &[
            Due { late: 1, ..A },
            Due {
                early: 1,
                late: 1,
                ..B
            },
        ],
        pricing: Money,
    };
    let (marks, minutes) = times(&line);
    assert_eq!(rt; marks, [600, 605, 0]);
    assert_eq!(rt; minutes, [595, 605, 0]);
    assert_eq!(rt; least(&line, &marks).units(), 5);
}

// Ten minutes late at B cost 10 by money, and cheapest is no minute early at D.
#[test]
fn money_alone_comes_late(rt: HostRuntime) {
    let line = Table {
        stops: &[D, B],
        pricing: Money,
    };
    let (marks, minutes) = times(&line);
    assert_eq!(rt; marks, [600, 610, 0]);
    assert_eq!(rt; minutes, [600, 610, 0]);
    assert_eq!(rt; least(&line, &marks).units(), 10);
}

// Minutes late come first, so none is late, for 25; their sum with the money, 5 and 10 against 0 and 25, would choose as money does.
#[test]
fn pairs_are_not_added_up(rt: HostRuntime) {
    let line = Table {
        stops: &[D, B],
        pricing: Promise,
    };
    let (marks, minutes) = times(&line);
    assert_eq!(rt; marks, [600, 605, 0]);
    assert_eq!(rt; minutes, [595, 605, 0]);
    let cost = least(&line, &marks);
    assert_eq!(rt; (cost.first.units(), cost.second.units()), (0, 25));
}

#[test]
fn the_first_blocked_stop_is_named(rt: HostRuntime) {
    let near = Table {
        stops: &[C, after(C, 20)],
        pricing: Money,
    };
    assert_eq!(rt; first_blocked(&near), None);
    let far = Table {
        stops: &[C, after(C, 21), after(C, 21)],
        pricing: Money,
    };
    assert_eq!(rt; first_blocked(&far), Some(2));
    let closed = Table {
        stops: &[
            Due {
                first: 1,
                last: 0,
                ..A
            },
            A,
        ],
        pricing: Money,
    };
    assert_eq!(rt; first_blocked(&closed), Some(1));
}
