// Runs the worked examples of the route, as they are worked out by hand from its rules.
#![tactic(auto)]

#[cfg(test)]
mod tests {
    use bend_book::bend::{Bend, BendBook, BendHead};
    use cost::amount::Amount;
    use route::join::join;
    use route::run::whole_run;
    use route::stop::{Facts, Refusal, Splice};
    use route::table::Route;
    use source::due::{DueBook, DueRow};
    use source::pairing::Pairing;
    use source::weight::Weight;
    use std::alloc::{AllocError, Global};
    use std::test::Fail;

    const ROWS: [DueRow; 4] = [
        DueRow {
            first: 0,
            last: 1440,
            due: 600,
            early: 1,
            late: 3,
        },
        DueRow {
            first: 0,
            last: 1440,
            due: 605,
            early: 2,
            late: 2,
        },
        DueRow {
            first: 590,
            last: 610,
            due: 600,
            early: 0,
            late: 0,
        },
        DueRow {
            first: 0,
            last: 1440,
            due: 600,
            early: 5,
            late: 3,
        },
    ];

    // Kept: written out, so that the test does not rest on the method that makes such rows.
    const LATE: [DueRow; 4] = [
        DueRow {
            first: 0,
            last: 1440,
            due: 600,
            early: 0,
            late: 1,
        },
        DueRow {
            first: 0,
            last: 1440,
            due: 605,
            early: 0,
            late: 1,
        },
        DueRow {
            first: 590,
            last: 610,
            due: 600,
            early: 0,
            late: 1,
        },
        DueRow {
            first: 0,
            last: 1440,
            due: 600,
            early: 0,
            late: 1,
        },
    ];

    fn facts(curve: u8, leg: u16, mark: u16, minute: u16) -> Facts {
        Facts {
            curve,
            leg,
            mark,
            minute,
        }
    }

    // Whether these are the facts of all stops that are read of a route, and this its least cost.
    fn reads(route: &Route<DueBook>, stops: &[Facts], least: u64) -> bool {
        route.stop_count() == stops.len()
            && stops
                .iter()
                .enumerate()
                .all(|(i, stop)| route.facts(i + 1) == Ok(*stop))
            && route.least_cost().units() == least
    }

    // An empty route, then one stop, two, three, and two again.
    #[test]
    fn splices_one_by_one(rt: HostRuntime) -> Result<(), Fail> {
        let mut route = Route::open(rt.alloc(), DueBook::of_rows(rt.alloc(), &ROWS)?)?;
        assert!(rt; reads(&route, &[], 0));
        route.insert(1, 0, 0, 0)?;
        assert!(rt; reads(&route, &[facts(0, 0, 600, 600)], 0));
        route.insert(2, 1, 10, 0)?;
        assert!(rt; reads(&route, &[facts(0, 0, 600, 595), facts(1, 10, 605, 605)], 5));
        route.insert(1, 2, 0, 6)?;
        let three = [
            facts(2, 0, 590, 590),
            facts(0, 6, 600, 596),
            facts(1, 10, 606, 606),
        ];
        assert!(rt; reads(&route, &three, 6));
        route.remove(2, 20)?;
        assert!(rt; reads(&route, &[facts(2, 0, 590, 590), facts(1, 20, 610, 610)], 10));
        Ok(())
    }

    // A leg of 20 minutes just fits between two windows, one of 21 does not.
    #[test]
    fn leg_too_long(rt: HostRuntime) -> Result<(), Fail> {
        let mut route = Route::open(rt.alloc(), DueBook::of_rows(rt.alloc(), &ROWS)?)?;
        route.insert(1, 2, 0, 0)?;
        assert_eq!(rt;
            route.insert(2, 2, 21, 0),
            Err(Refusal::NoTimetable { stop: 2 })
        );
        assert!(rt; reads(&route, &[facts(2, 0, 590, 590)], 0));
        route.insert(2, 2, 20, 0)?;
        assert!(rt; reads(&route, &[facts(2, 0, 590, 590), facts(2, 20, 610, 610)], 0));
        Ok(())
    }

    // By money the second stop comes late.
    #[test]
    fn by_money(rt: HostRuntime) -> Result<(), Fail> {
        let mut money = Route::open(rt.alloc(), DueBook::of_rows(rt.alloc(), &ROWS)?)?;
        money.insert(1, 3, 0, 0)?;
        money.insert(2, 1, 10, 0)?;
        assert!(rt; reads(&money, &[facts(3, 0, 600, 600), facts(1, 10, 610, 610)], 10));
        Ok(())
    }

    // Minutes late come before money.
    #[test]
    fn money_and_promise(rt: HostRuntime) -> Result<(), Fail> {
        let both = Pairing {
            first: DueBook::of_rows(rt.alloc(), &LATE)?,
            second: DueBook::of_rows(rt.alloc(), &ROWS)?,
        };
        let mut promise = Route::open(rt.alloc(), both)?;
        promise.insert(1, 3, 0, 0)?;
        promise.insert(2, 1, 10, 0)?;
        assert_eq!(rt; promise.facts(1)?, facts(3, 0, 600, 595));
        assert_eq!(rt; promise.facts(2)?, facts(1, 10, 605, 605));
        let least = promise.least_cost();
        assert_eq!(rt; least.first.units(), 0);
        assert_eq!(rt; least.second.units(), 25);
        Ok(())
    }

    // One stop of two, joined to what is left after a removal.
    #[test]
    fn joined(rt: HostRuntime) -> Result<(), Fail> {
        let one = Splice::Insert {
            place: 1,
            curve: 0,
            leg_in: 0,
            leg_out: 0,
        };
        let two = Splice::Insert {
            place: 2,
            curve: 1,
            leg_in: 10,
            leg_out: 0,
        };
        let three = Splice::Insert {
            place: 1,
            curve: 2,
            leg_in: 0,
            leg_out: 6,
        };
        let fewer = Splice::Remove { place: 2, leg: 20 };
        let first = DueBook::of_rows(rt.alloc(), &ROWS)?;
        let second = DueBook::of_rows(rt.alloc(), &ROWS)?;
        let outcome = whole_run(
            rt.alloc(),
            first,
            &[one, two],
            second,
            &[one, two, three, fewer],
            1,
            10,
            2,
        )?;
        assert_eq!(rt; outcome.first.least.units(), 5);
        assert_eq!(rt; outcome.second.least.units(), 10);
        assert_eq!(rt; outcome.second.count, 2);
        assert_eq!(rt; outcome.joined?.units(), 5);
        Ok(())
    }

    // Two stops: curve 0, then curve 1 by a leg of 10 minutes.
    fn two_stops(heap: Global) -> Result<Route<DueBook>, Fail> {
        let mut route = Route::open(heap, DueBook::of_rows(heap, &ROWS)?)?;
        route.insert(1, 0, 0, 0)?;
        route.insert(2, 1, 10, 0)?;
        Ok(route)
    }

    // Of several refusals that fit, the first by the order of the examinations is given, and the route stays.
    #[test]
    fn refused_by_the_first(rt: HostRuntime) -> Result<(), Fail> {
        let mut route = two_stops(rt.alloc())?;
        assert_eq!(rt; route.insert(0, 9, 601, 601), Err(Refusal::Place));
        assert_eq!(rt; route.insert(4, 9, 601, 601), Err(Refusal::Place));
        assert_eq!(rt; route.insert(3, 9, 601, 0), Err(Refusal::Curve));
        assert_eq!(rt; route.insert(1, 2, 601, 0), Err(Refusal::Leg));
        assert_eq!(rt; route.insert(3, 2, 0, 601), Err(Refusal::Leg));
        assert_eq!(rt; route.remove(0, 601), Err(Refusal::Place));
        assert_eq!(rt; route.remove(3, 601), Err(Refusal::Place));
        assert_eq!(rt; route.remove(2, 601), Err(Refusal::Leg));
        assert_eq!(rt; route.change(0, 9), Err(Refusal::Place));
        assert_eq!(rt; route.change(3, 9), Err(Refusal::Place));
        assert_eq!(rt; route.change(2, 9), Err(Refusal::Curve));
        assert_eq!(rt; route.facts(0), Err(Refusal::Place));
        assert_eq!(rt; route.facts(3), Err(Refusal::Place));
        assert!(rt; reads(&route, &[facts(0, 0, 600, 595), facts(1, 10, 605, 605)], 5));
        Ok(())
    }

    // Stop 1 by another curve; then stop 2 by one whose window ends too soon.
    #[test]
    fn changed(rt: HostRuntime) -> Result<(), Fail> {
        let mut route = two_stops(rt.alloc())?;
        route.change(1, 2)?;
        let two = [facts(2, 0, 590, 590), facts(1, 10, 605, 605)];
        assert!(rt; reads(&route, &two, 0));
        route.remove(2, 0)?;
        route.insert(2, 1, 21, 0)?;
        assert_eq!(rt; route.change(2, 2), Err(Refusal::NoTimetable { stop: 2 }));
        let apart = [facts(2, 0, 590, 590), facts(1, 21, 611, 611)];
        assert!(rt; reads(&route, &apart, 12));
        Ok(())
    }

    // A route of 64 stops takes no other one, whatever its curve and its legs.
    #[test]
    fn full(rt: HostRuntime) -> Result<(), Fail> {
        let mut route = Route::open(rt.alloc(), DueBook::of_rows(rt.alloc(), &ROWS)?)?;
        for _ in 0..64 {
            route.insert(1, 0, 0, 0)?;
        }
        assert_eq!(rt; route.insert(65, 9, 601, 601), Err(Refusal::Full));
        assert_eq!(rt; route.insert(66, 9, 601, 601), Err(Refusal::Place));
        assert_eq!(rt; route.stop_count(), 64);
        assert_eq!(rt; route.facts(64)?, facts(0, 0, 600, 600));
        Ok(())
    }

    // What a join answers, and its least cost in units.
    fn joins(
        a: &Route<DueBook>,
        i: usize,
        leg: u16,
        b: &Route<DueBook>,
        j: usize,
    ) -> Result<u64, Refusal> {
        Ok(join(a, i, leg, b, j)?.units())
    }

    #[test]
    fn joins_refused(rt: HostRuntime) -> Result<(), Fail> {
        let a = two_stops(rt.alloc())?;
        let mut b = Route::open(rt.alloc(), DueBook::of_rows(rt.alloc(), &ROWS)?)?;
        b.insert(1, 2, 0, 0)?;
        assert_eq!(rt; joins(&a, 3, 601, &b, 1), Err(Refusal::Place));
        assert_eq!(rt; joins(&a, 2, 601, &b, 0), Err(Refusal::Place));
        assert_eq!(rt; joins(&a, 2, 601, &b, 3), Err(Refusal::Place));
        assert_eq!(rt; joins(&a, 2, 601, &b, 2), Err(Refusal::Leg));
        assert_eq!(rt; joins(&a, 2, 600, &b, 2), Ok(5));
        assert_eq!(rt;
            joins(&b, 1, 21, &b, 1),
            Err(Refusal::NoTimetable { stop: 2 })
        );
        assert_eq!(rt; joins(&b, 1, 20, &b, 1), Ok(0));
        Ok(())
    }

    // Open from 100 to 110, at 20 at first, 0 from 104 to 106, and 12 at last.
    fn bends(heap: Global) -> Result<BendBook, AllocError> {
        let head = BendHead {
            first: 100,
            last: 110,
            start: 20,
            from: 0,
            count: 3,
        };
        let steps = [(100, -5), (104, 0), (106, 3)].map(|(minute, step)| Bend { minute, step });
        Ok(BendBook::new([head].to_vec(heap)?, steps.to_vec(heap)?))
    }

    // Twice the pair of a due row, due at 107, and a curve by bends, over the minutes 102 to 108 that both have. Of the
    // minutes 103 and 107 the first parts are 4 and 0 and the second ones 5 and 3.
    #[test]
    fn over_a_pile(rt: HostRuntime) -> Result<(), Fail> {
        let due = DueRow {
            first: 102,
            last: 108,
            due: 107,
            early: 1,
            late: 2,
        };
        let both = Pairing {
            first: DueBook::of_rows(rt.alloc(), &[due])?,
            second: bends(rt.alloc())?,
        };
        let mut route = Route::open(rt.alloc(), Weight::new(both, [2; 64]))?;
        route.insert(1, 0, 0, 0)?;
        route.insert(2, 0, 4, 0)?;
        assert_eq!(rt; route.facts(1)?, facts(0, 0, 107, 103));
        assert_eq!(rt; route.facts(2)?, facts(0, 4, 107, 107));
        let least = route.least_cost();
        assert_eq!(rt; least.first.units(), 8);
        assert_eq!(rt; least.second.units(), 16);
        Ok(())
    }

    // A refusal is printed as its number, with the stop that it names.
    #[test]
    fn refusals_printed(rt: HostRuntime) -> Result<(), Fail> {
        let blocked = Refusal::NoTimetable { stop: 2 };
        assert_eq!(rt; blocked.stop(), Some(2));
        assert_eq!(rt; blocked.to_string(rt.alloc())?.as_str(), "5 stop 2");
        assert_eq!(rt; Refusal::Leg.stop(), None);
        assert_eq!(rt; Refusal::Leg.to_string(rt.alloc())?.as_str(), "4");
        Ok(())
    }
}
