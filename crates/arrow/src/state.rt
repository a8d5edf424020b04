// What a panel is about.
// Assumes nothing.

// Idle: it has not asked. Waiting: it has asked and has no book yet. Holding: it has the book in use. Resting: it has the book, unused.
#[derive(Clone, Copy, PartialEq, Eq, Debug, Default)]
pub enum State {
    #[default]
    Idle,
    Waiting,
    Holding,
    Resting,
}
