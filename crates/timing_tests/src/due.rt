// A stop of a test line: its window, when it is due, what a minute early or late costs, and the leg before it.
// Kept: fields of its own and no `DueRow`, since the timing is tested without sources.
#[derive(Clone, Copy)]
pub struct Due {
    pub first: u16,
    pub last: u16,
    pub due: u16,
    pub early: u16,
    pub late: u16,
    pub leg: u16,
}
