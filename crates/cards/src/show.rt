use anyhow::Context;
use bend_book::bend::BendBook;
use card_table::lines::{card_text, cost_line, joined_line};
use cost::amount::Amount;
use route::card::Card;
use route::stop::{Facts, Refusal};
use source::source::Source;
use std::alloc::{AllocError, Global};

// The word before a refusal.
const REFUSED: &str = "refused";

// Prints a card: its name, each refusal, a line for each stop, and its last lines.
pub fn show_card(
    rt: &HostRuntime,
    name: &str,
    answers: &[Result<(), Refusal>],
    facts: &[Facts],
    last: &str,
) -> anyhow::Result<()> {
    let text = card_text(rt.alloc(), REFUSED, name, answers, facts, last)?;
    print!(rt; "{text}")?;
    Ok(())
}

// The last line of a card by money, which is the least cost or why there is none.
fn money_line(heap: Global, least: Result<Amount, Refusal>) -> Result<String, AllocError> {
    joined_line(heap, REFUSED, least.map(Amount::units))
}

// A card by money.
pub fn show_money(rt: &HostRuntime, name: &str, card: &Card<Amount>) -> anyhow::Result<()> {
    let last = money_line(rt.alloc(), Ok(card.least))?;
    show_card(
        rt,
        name,
        card.answers.as_slice(),
        card.facts.as_slice(),
        last.as_str(),
    )
}

// A join, of which the cost alone is read.
pub fn show_join(
    rt: &HostRuntime,
    name: &str,
    least: Result<Amount, Refusal>,
) -> anyhow::Result<()> {
    let last = money_line(rt.alloc(), least)?;
    show_card(rt, name, &[], &[], last.as_str())
}

// What the book's first curve costs at these minutes.
// Kept: a loop that pushes, as for the lines of a card's stops.
pub fn show_costs(
    rt: &HostRuntime,
    name: &str,
    book: &BendBook,
    minutes: &[u16],
) -> anyhow::Result<()> {
    let heap = rt.alloc();
    let mut lines = String::new(heap);
    for minute in minutes {
        let cost = book.cost(0, *minute).context("the curve is closed")?;
        let line = cost_line(heap, *minute, cost.units())?;
        lines.push_str(line.as_str())?;
    }
    show_card(rt, name, &[], &[], lines.as_str())
}
