// Runs the worked cards and prints each: its stops with curve, leg, mark and minute, its least cost, the join, and the
// costs of a curve by bends.
#![tactic(auto)]

mod show;

use bend_book::bend::BendBook;
use card_table::lines::least_pair_line;
use card_table::table::{card_bends, card_heads, card_rows, late_rows};
use cost::amount::Amount;
use route::card::Outcome;
use route::run::whole_run;
use route::stop::Splice;
use show::{show_card, show_costs, show_join, show_money};
use source::due::DueBook;
use source::pairing::Pairing;
use std::alloc::{AllocError, Global};

fn insert(place: usize, curve: u8, leg_in: u16, leg_out: u16) -> Splice {
    Splice::Insert {
        place,
        curve,
        leg_in,
        leg_out,
    }
}

// Two routes over the rows by money, each with its splices, and the join of the first i stops of one, by a leg, with the
// stops of the other from place j on.
// Kept: the numbers one by one, in the order of `whole_run`, to which they are handed on.
fn by_money(
    heap: Global,
    first: &[Splice],
    second: &[Splice],
    i: usize,
    leg: u16,
    j: usize,
) -> Result<Outcome<Amount>, AllocError> {
    let rows = card_rows();
    let front = DueBook::of_rows(heap, &rows)?;
    let back = DueBook::of_rows(heap, &rows)?;
    whole_run(heap, front, first, back, second, i, leg, j)
}

// The rows by promise: minutes late, then money.
// Kept: beside the like function of `strip_report`, since to share it `cards` would need that crate, and the reader and
// the report under it, for four lines.
fn promise_books(heap: Global) -> Result<Pairing<DueBook, DueBook>, AllocError> {
    Ok(Pairing {
        first: DueBook::of_rows(heap, &late_rows())?,
        second: DueBook::of_rows(heap, &card_rows())?,
    })
}

// Cards 1 to 5 and 7: four splices, one after another, and the join of the third card with the fifth.
fn splices_and_join(rt: &HostRuntime) -> anyhow::Result<()> {
    let heap = rt.alloc();
    let splices = [
        insert(1, 0, 0, 0),
        insert(2, 1, 10, 0),
        insert(1, 2, 0, 6),
        Splice::Remove { place: 2, leg: 20 },
    ];
    let start = by_money(heap, &splices[..0], &splices[..1], 0, 0, 1)?;
    show_money(rt, "1", &start.first)?;
    show_money(rt, "2", &start.second)?;
    let middle = by_money(heap, &splices[..2], &splices[..3], 0, 0, 1)?;
    show_money(rt, "3", &middle.first)?;
    show_money(rt, "4", &middle.second)?;
    let end = by_money(heap, &splices[..2], &splices, 1, 10, 2)?;
    show_money(rt, "5", &end.second)?;
    show_join(rt, "7", end.joined)
}

// Card 6: a leg that the windows just bear, and one that they do not.
fn legs(rt: &HostRuntime) -> anyhow::Result<()> {
    let bears = [insert(1, 2, 0, 0), insert(2, 2, 20, 0)];
    let breaks = [insert(1, 2, 0, 0), insert(2, 2, 21, 0)];
    let both = by_money(rt.alloc(), &bears, &breaks, 0, 0, 1)?;
    show_money(rt, "6 leg 20", &both.first)?;
    show_money(rt, "6 leg 21", &both.second)
}

// Card 8: the same splices by money and by promise.
fn money_and_promise(rt: &HostRuntime) -> anyhow::Result<()> {
    let heap = rt.alloc();
    let splices = [insert(1, 3, 0, 0), insert(2, 1, 10, 0)];
    let money = by_money(heap, &splices, &splices[..0], 2, 0, 1)?;
    show_money(rt, "8 money", &money.first)?;
    let front = promise_books(heap)?;
    let back = promise_books(heap)?;
    let promise = whole_run(heap, front, &splices, back, &splices[..0], 2, 0, 1)?.first;
    let least = promise.least;
    let last = least_pair_line(heap, least.first.units(), least.second.units())?;
    show_card(
        rt,
        "8 promise",
        promise.answers.as_slice(),
        promise.facts.as_slice(),
        last.as_str(),
    )
}

// Card 9: a curve by its bends, on its way down, where it is flat, and at its end.
fn bends(rt: &HostRuntime) -> anyhow::Result<()> {
    let heap = rt.alloc();
    let heads = Vec::from_slice(heap, &card_heads())?;
    let bends = Vec::from_slice(heap, &card_bends())?;
    show_costs(rt, "9", &BendBook::new(heads, bends), &[103, 104, 110])
}

fn main(rt: HostRuntime) -> anyhow::Result<()> {
    splices_and_join(&rt)?;
    legs(&rt)?;
    money_and_promise(&rt)?;
    bends(&rt)
}
