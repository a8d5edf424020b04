// The calls of a run, as values.
// Assumes nothing.

// A call on a group, with its arguments. A value and no closure: the law over runs speaks of lists of calls.
#[derive(Clone, Copy)]
pub enum Call<'a> {
    // Open over a list of parents.
    Open(&'a [usize]),
    // Request of a panel.
    Request(usize),
    // Deliver on a lane.
    Deliver(usize),
    // Write an entry at a panel.
    Write(usize, u32),
    // Release of a panel.
    Release(usize),
}
