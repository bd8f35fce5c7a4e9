// Moves and misses: of a slot, or of a run.
#[derive(Clone, Copy)]
pub struct Counts<T> {
    pub moves: T,
    pub misses: T,
}
