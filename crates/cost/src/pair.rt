// Two costs side by side, or the texts of two.
#[derive(Clone, Copy, PartialEq, Eq, Debug)]
pub struct Pair<K, L> {
    pub first: K,
    pub second: L,
}
