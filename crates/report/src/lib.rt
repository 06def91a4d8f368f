// The readable text of an order file.
#![tactic(auto)]

ghost use Rattle.std.specs.Prelude.{◌≡◌, map, IfOk, IfSome, string_bytes};
ghost use Rattle.orderfile.specs.Bodies.{told};
ghost use Rattle.report.specs.Lines.{accepted_text, refused_line, file_text};

use crate::lines::{HeadLine, Lines};
use crate::words::Wrong;
use orderfile::faults::FileFault;
use orderfile::file::OrderFile;
use std::alloc::{AllocError, Global};
use std::fmt::Display;

mod lines;
#[cfg(test)]
mod tests;
pub mod text;
pub mod words;

pub use crate::text::Dollars;

// A line for the head, and one for each message.
fn accepted(heap: Global, file: &OrderFile<'_>) -> Result<String, AllocError>
    ensures { IfOk result (λ s. string_bytes s ≡ accepted_text file.now.head (map told file.now.messages.items)) }
{
    format!(in heap;
        "{}{}",
        HeadLine(file.head),
        Lines(file.messages.as_slice())
    )
}

// One line that says why.
pub fn refused<W: Display + Drop>(heap: Global, why: W) -> Result<String, AllocError>
    ensures { IfOk result (λ s. IfSome (W.output why) (λ words. string_bytes s ≡ refused_line words)) }
{
    format!(in heap; "refused {why}\n")
}

// The text of the file with these bytes: a line for the head and one for each message, or one that says why the file is
// refused.
pub fn describe(heap: Global, file: &[u8]) -> Result<String, AllocError>
    ensures { IfOk result (λ s. string_bytes s ≡ file_text file.now) }
{
    match OrderFile::read(heap, file) {
        Ok(file) => accepted(heap, &file),
        Err(FileFault::Memory) => Err(AllocError),
        Err(fault) => refused(heap, Wrong(fault)),
    }
}
