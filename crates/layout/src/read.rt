// Reading a riser layout from a line.
// Assumes nothing.
ghost use Rattle.layout.specs.Layouts.{Reads, layout_of, numbers_of};
ghost use Rattle.text.specs.Pieces.{pieces};

use crate::fault::Fault;
use std::alloc::Global;
use text::number::number;
use words::refusal::Refusal;

// How many bytes a line may have, its end not counted.
pub const LONGEST_LINE: usize = 200;

// The parents that a line gives.
pub fn parents(heap: Global, line: &[u8]) -> Result<Vec<usize>, Fault>
    ensures { Reads (layout_of line.now) result }
{
    if line.len() > LONGEST_LINE {
        return Err(Refusal::BadLine.into());
    }
    numbers(heap, line)
}

// The numbers between the spaces of a line.
fn numbers(heap: Global, line: &[u8]) -> Result<Vec<usize>, Fault>
    ensures { Reads (numbers_of (pieces line.now)) result }
{
    let mut read = Vec::new(heap);
    for piece in line.split(|byte| *byte == b' ') {
        read.push(number(piece)?)?;
    }
    Ok(read)
}
