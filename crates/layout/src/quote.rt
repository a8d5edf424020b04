// What is printed for riser layouts, one to a line.
// Assumes nothing.
ghost use Rattle.std.specs.Prelude.{◌≡◌, ◌++◌, IfOk, string_bytes, OnOk};
ghost use Rattle.layout.specs.Tables.{quoted, quoted_text, Quotes};

use crate::fault::Fault;
use crate::read::parents;
use crate::table::Table;
use std::alloc::{AllocError, Global};
use std::fmt::Write;
use tree::Tree;

// What is printed for a line: the table of its layout, or a refusal.
pub fn quote(heap: Global, line: &[u8]) -> Result<String, AllocError>
    ensures { IfOk result (λ text. string_bytes text ≡ quoted line.now) }
{
    let mut out = String::new(heap);
    write_quote(heap, &mut out, line)?;
    Ok(out)
}

// What is printed for a whole text, line by line.
pub fn quote_all(heap: Global, text: &[u8]) -> Result<String, AllocError>
    ensures { IfOk result (λ out. string_bytes out ≡ quoted_text text.now) }
{
    let mut out = String::new(heap);
    for line in text.split_inclusive(|byte| *byte == b'\n') {
        let content = line.strip_suffix(b"\n").unwrap_or(line);
        write_quote(heap, &mut out, content)?;
    }
    Ok(out)
}

// The table of the layout in a line, or a refusal by its number.
fn write_quote(heap: Global, out: &mut String, line: &[u8]) -> Result<(), AllocError>
    ensures { OnOk result (string_bytes out.new ≡ string_bytes out.old ++ quoted line.now) }
{
    match read_tree(heap, line) {
        Ok(tree) => write!(out, "{}", Table(&tree)),
        Err(Fault::Refused(refusal)) => writeln!(out, "refused {refusal}"),
        Err(Fault::NoMemory(error)) => Err(error),
    }
}

// The tree of the layout in a line.
fn read_tree(heap: Global, line: &[u8]) -> Result<Tree, Fault>
    ensures { Quotes (quoted line.now) result }
{
    let list = parents(heap, line)?;
    Ok(Tree::new(&list)?)
}
