// Where a byte stands among others, for callers that cut there: the crates here cut by the library's `split`.
// Assumes nothing.
ghost use Rattle.std.specs.Prelude.{◌≡◌, ℕ, ◌<◌, ◌≤◌, length, ◌≢◌, slice_index};

// The place where a byte first stands, or the length where it does not.
pub fn first_place(byte: u8, bytes: &[u8]) -> usize
    ensures within { result ≤ length bytes.now }
    ensures before { (k : ℕ) → k < result → slice_index bytes.now k ≢ byte }
    ensures found { result < length bytes.now → slice_index bytes.now result ≡ byte }
{
    bytes
        .iter()
        .position(|here| *here == byte)
        .unwrap_or(bytes.len())
}
