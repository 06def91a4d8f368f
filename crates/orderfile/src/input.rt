// The bytes of an order file, as a program reads them.
ghost use Rattle.std.specs.Prelude.{◌≡◌, take, IfOk, IfSome};

use crate::file::LONGEST_FILE;
use std::alloc::Global;
use std::io;
use std::io::Read;

// One byte more than the longest file, so that a longer one is seen to be too long.
const MOST: u64 = LONGEST_FILE as u64 + 1;

// All of `input`, or where it is longer than any file its first 65,537 bytes.
pub fn read_bytes<R: Read + Drop>(heap: Global, input: R) -> io::Result<Vec<u8>>
    ensures { IfOk result (λ file. IfSome (R.remaining input) (λ bytes. file.items ≡ take 65537 bytes)) }
{
    let mut file = Vec::new(heap);
    input.take(MOST).read_to_end(&mut file)?;
    Ok(file)
}
