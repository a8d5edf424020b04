// What a group counts.
// Assumes nothing.

// Requests accepted, find words sent, book words sent, grants, releases accepted.
#[derive(Clone, Copy, PartialEq, Eq, Debug, Default)]
pub struct Counts {
    pub requests: u32,
    pub finds: u32,
    pub books: u32,
    pub grants: u32,
    pub releases: u32,
}
