ghost use Rattle.std.specs.Prelude.{◌≡◌, map};
ghost use Rattle.card_table.specs.Cards.{rows, late_row, heads, bends, CardsHold};

use bend_book::bend::{Bend, BendHead};
use source::due::DueRow;

// The theorem that every card of the table holds.
#[tactic(auto, using(crate::proofs::Proved::cards_hold))]
pub fn cards_hold()
    ensures { CardsHold }
{}

// The due rows of all cards; with them comes the theorem on the cards.
pub fn card_rows() -> [DueRow; 4]
    ensures value { result ≡ rows }
    ensures cards { CardsHold }
{
    cards_hold();
    [
        DueRow {
            first: 0,
            last: 1440,
            due: 600,
            early: 1,
            late: 3,
        },
        DueRow {
            first: 0,
            last: 1440,
            due: 605,
            early: 2,
            late: 2,
        },
        DueRow {
            first: 590,
            last: 610,
            due: 600,
            early: 0,
            late: 0,
        },
        DueRow {
            first: 0,
            last: 1440,
            due: 600,
            early: 5,
            late: 3,
        },
    ]
}

// The same rows by minutes late: nothing before the due minute, and 1 for each minute after it.
pub fn late_rows() -> [DueRow; 4]
    ensures { result ≡ map late_row rows }
{
    card_rows().map(|row| row.lateness())
}

// The head of the card that is a curve by bends; with it comes the theorem on the cards.
pub fn card_heads() -> [BendHead; 1]
    ensures value { result ≡ heads }
    ensures cards { CardsHold }
{
    cards_hold();
    [BendHead {
        first: 100,
        last: 110,
        start: 20,
        from: 0,
        count: 3,
    }]
}

// Its bends: 5 less each minute, then the same, then 3 more.
pub fn card_bends() -> [Bend; 3]
    ensures { result ≡ bends }
{
    [
        Bend {
            minute: 100,
            step: -5,
        },
        Bend {
            minute: 104,
            step: 0,
        },
        Bend {
            minute: 106,
            step: 3,
        },
    ]
}
