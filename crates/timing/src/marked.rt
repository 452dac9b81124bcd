// A line of stops, and the marks of its first stops.
// Kept: no model, so that clauses bind the visits and the marks by `let`, since a visit holds its price as a function
// and a model's value must be data.
#[derive(Drop)]
pub struct MarkedLine<'a, L> {
    pub line: &'a L,
    pub marks: &'a [u16],
}
