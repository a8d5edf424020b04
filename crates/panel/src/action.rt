// What a message makes a panel do.
// Assumes nothing.

// What is left to do for the group after a panel met a message. A value and no closure: the contract of the panel's step names it.
#[derive(Clone, Copy)]
pub enum Action {
    // Send the asker's find word on along the arrow as it was.
    Pass { asker: usize, to: usize },
    // Nothing: the asker is the panel's follower.
    Keep { asker: usize },
    // Send the book to the asker.
    HandOver { asker: usize },
    // Nothing: the panel holds.
    Hold,
    // Send the book on to the panel that it is for.
    MoveOn { addressee: usize },
}
