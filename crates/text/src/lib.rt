// What the programs read, and what they print.
#![tactic(auto)]

mod print;

ghost use Rattle.std.specs.Prelude.{◌<◌, length, take, IfOk};
ghost use Rattle.std.specs.Io.{ReadsAtMost};
ghost use Rattle.std.specs.Io.KnownBytes.{Consumes, IsAtEnd};

use plan::Plan;
pub use print::{Out, SIZE};
use std::io;
use std::io::Read;

// How much a program reads: one byte more than a plan file may have, so that a longer input is refused and not cut.
pub const INPUT: usize = Plan::MAX_BYTES + 1;

// Reads until the buffer is full or the input ends, and hands back how many bytes stand at the front of the buffer then.
//
// `Read`'s own methods don't serve: `read_exact` doesn't say how much there was, and `read_to_end` wants a heap. The loop goes by what each read gives.
pub fn read_full<R: Read>(input: &mut R, buffer: &mut [u8]) -> io::Result<usize>
    ensures count { ReadsAtMost result buffer.new }

    // Where it is known what the input has left: they are its first bytes, and fewer than there is room for only at its end.
    ensures bytes { IfOk result (λ n. Consumes (R.remaining input.old) (R.remaining input.new) (take n buffer.new)) }
    ensures end { IfOk result (λ n. n < length buffer.new → IsAtEnd (R.remaining input.new)) }
{
    let mut done = 0;
    while done < buffer.len() {
        let count = input.read(&mut buffer[done..])?;
        if count == 0 {
            break;
        }
        done += count;
    }
    Ok(done)
}
