//! The four boards that a run is lent.

// The lent boards: the nodes' cells, room for a close, and what was sent, as cells and as marks. Any length will do; a call that a board is too short for is refused.
#[derive(Drop)]
pub struct Boards<'a, R> {
    pub values: &'a mut [Option<R>],
    pub scratch: &'a mut [Option<R>],
    pub sent: &'a mut [Option<R>],
    pub marks: &'a mut [u8],
}
