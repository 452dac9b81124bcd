// Tests of the penalty sources: each side of every limit, and piles of layers.
#![tactic(auto)]

#[cfg(test)]
mod tests {
    use bend_book::bend::{Bend, BendBook, BendHead};
    use cost::amount::Amount;
    use source::cheapest::cheapest;
    use source::due::{DueBook, DueRow};
    use source::pairing::Pairing;
    use source::source::Source;
    use source::weight::Weight;
    use std::test::Fail;

    fn row(first: u16, last: u16, due: u16, early: u16, late: u16) -> DueRow {
        DueRow {
            first,
            last,
            due,
            early,
            late,
        }
    }

    fn head(first: u16, last: u16, start: u32, from: u32, count: u8) -> BendHead {
        BendHead {
            first,
            last,
            start,
            from,
            count,
        }
    }

    fn bend(minute: u16, step: i16) -> Bend {
        Bend { minute, step }
    }

    fn units(cost: Option<Amount>) -> Option<u64> {
        cost.map(Amount::units)
    }

    #[test]
    fn limits_of_rows(rt: HostRuntime) {
        assert!(rt; row(5, 5, 0, 0, 0).lawful());
        assert!(rt; !row(6, 5, 0, 0, 0).lawful());
        assert!(rt; row(0, 1440, 0, 0, 0).lawful());
        assert!(rt; !row(0, 1441, 0, 0, 0).lawful());
        assert!(rt; row(0, 0, 1440, 0, 0).lawful());
        assert!(rt; !row(0, 0, 1441, 0, 0).lawful());
        assert!(rt; row(0, 0, 0, 1000, 1000).lawful());
        assert!(rt; !row(0, 0, 0, 1001, 0).lawful());
        assert!(rt; !row(0, 0, 0, 0, 1001).lawful());
    }

    #[test]
    fn limits_of_heads(rt: HostRuntime) {
        assert!(rt; head(7, 7, 0, 0, 0).lawful(&[]));
        assert!(rt; !head(8, 7, 0, 0, 0).lawful(&[]));
        assert!(rt; head(0, 1440, 0, 0, 0).lawful(&[]));
        assert!(rt; !head(0, 1441, 0, 0, 0).lawful(&[]));
        assert!(rt; head(0, 9, 500000, 0, 0).lawful(&[]));
        assert!(rt; !head(0, 9, 500001, 0, 0).lawful(&[]));
    }

    #[test]
    fn limits_of_bends(rt: HostRuntime) {
        assert!(rt; head(0, 9, 0, 0, 2).lawful(&[bend(0, 0), bend(9, 0)]));
        assert!(rt; !head(0, 8, 0, 0, 2).lawful(&[bend(0, 0), bend(9, 0)]));
        assert!(rt; !head(1, 9, 0, 0, 2).lawful(&[bend(0, 0), bend(9, 0)]));
        assert!(rt; !head(0, 9, 0, 0, 2).lawful(&[bend(0, 0), bend(0, 0)]));
        assert!(rt; !head(0, 9, 0, 0, 2).lawful(&[bend(0, 1), bend(9, 0)]));
    }

    #[test]
    fn limits_of_steps(rt: HostRuntime) {
        assert!(rt; head(0, 1, 5000, 0, 1).lawful(&[bend(0, 1000)]));
        assert!(rt; !head(0, 1, 5000, 0, 1).lawful(&[bend(0, 1001)]));
        assert!(rt; head(0, 1, 5000, 0, 1).lawful(&[bend(0, -1000)]));
        assert!(rt; !head(0, 1, 5000, 0, 1).lawful(&[bend(0, -1001)]));
        assert!(rt; head(0, 2, 10, 0, 1).lawful(&[bend(0, -5)]));
        assert!(rt; !head(0, 2, 9, 0, 1).lawful(&[bend(0, -5)]));
    }

    #[test]
    fn limits_of_counts(rt: HostRuntime) {
        let bends = [
            bend(0, 0),
            bend(1, 0),
            bend(2, 0),
            bend(3, 0),
            bend(4, 0),
            bend(5, 0),
            bend(6, 0),
            bend(7, 0),
            bend(8, 0),
            bend(9, 0),
            bend(10, 0),
            bend(11, 0),
            bend(12, 0),
            bend(13, 0),
            bend(14, 0),
            bend(15, 0),
            bend(16, 0),
        ];
        assert!(rt; head(0, 20, 0, 0, 16).lawful(&bends));
        assert!(rt; !head(0, 20, 0, 0, 17).lawful(&bends));
        assert!(rt; head(2, 20, 0, 2, 15).lawful(&bends));
        assert!(rt; !head(2, 20, 0, 2, 16).lawful(&bends));
    }

    #[test]
    fn costs_by_bends(rt: HostRuntime) -> Result<(), Fail> {
        let heads = vec![in rt.alloc(); head(100, 110, 20, 0, 3), head(100, 110, 20, 1, 3)]?;
        let bends = vec![in rt.alloc(); bend(100, -5), bend(104, 0), bend(106, 3)]?;
        let book = BendBook::new(heads, bends);
        assert_eq!(rt; book.window(0), Some((100, 110)));
        assert_eq!(rt; units(book.cost(0, 103)), Some(5));
        assert_eq!(rt; units(book.cost(0, 104)), Some(0));
        assert_eq!(rt; units(book.cost(0, 110)), Some(12));
        assert_eq!(rt; units(book.cost(0, 111)), None);
        assert_eq!(rt; book.window(1), None);
        Ok(())
    }

    #[test]
    fn cheapest_minutes(rt: HostRuntime) -> Result<(), Fail> {
        let rows = [row(590, 610, 600, 0, 0), row(0, 10, 600, 1, 1)];
        let book = DueBook::of_rows(rt.alloc(), &rows)?;
        let flat = cheapest(&book, 0).expect(&rt, "open");
        assert_eq!(rt; flat.0, 590);
        assert_eq!(rt; flat.1.units(), 0);
        let falling = cheapest(&book, 1).expect(&rt, "open");
        assert_eq!(rt; falling.0, 10);
        assert_eq!(rt; falling.1.units(), 590);
        assert!(rt; cheapest(&book, 2).is_none());
        Ok(())
    }

    #[test]
    fn rows_past_the_last_curve(rt: HostRuntime) -> Result<(), Fail> {
        let book = DueBook::of_rows(rt.alloc(), &[row(0, 10, 5, 1, 1); 65])?;
        assert_eq!(rt; book.window(63), Some((0, 10)));
        assert_eq!(rt; book.window(64), None);
        assert_eq!(rt; units(book.cost(63, 8)), Some(3));
        assert_eq!(rt; units(book.cost(63, 11)), None);
        Ok(())
    }

    #[test]
    fn piles_of_weights(rt: HostRuntime) -> Result<(), Fail> {
        let book = DueBook::of_rows(rt.alloc(), &[row(0, 10, 5, 1, 1)])?;
        let twice = Weight::new(Weight::new(book, [101; 64]), [2; 64]);
        assert_eq!(rt; twice.window(0), Some((0, 10)));
        assert_eq!(rt; units(twice.cost(0, 8)), Some(600));
        assert_eq!(rt; twice.peak(), 20971520000);
        let thrice = Weight::new(twice, [1; 64]);
        assert_eq!(rt; thrice.window(0), None);
        assert_eq!(rt; units(thrice.cost(0, 8)), None);
        assert_eq!(rt; thrice.peak(), 0);
        Ok(())
    }

    #[test]
    fn common_minutes(rt: HostRuntime) -> Result<(), Fail> {
        let late = [row(0, 10, 5, 0, 1), row(0, 10, 5, 0, 1)];
        let money = [row(10, 20, 20, 2, 3), row(11, 20, 20, 2, 3)];
        let both = Pairing {
            first: DueBook::of_rows(rt.alloc(), &late)?,
            second: DueBook::of_rows(rt.alloc(), &money)?,
        };
        assert_eq!(rt; both.window(0), Some((10, 10)));
        assert_eq!(rt; both.window(1), None);
        let cost = both.cost(0, 10).expect(&rt, "open");
        assert_eq!(rt; cost.first.units(), 5);
        assert_eq!(rt; cost.second.units(), 20);
        Ok(())
    }
}
