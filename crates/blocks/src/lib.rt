// A block of an input: what the programs of this repository read at a time.

#![tactic(auto)]

ghost use Rattle.std.specs.Prelude.{◌<◌, length, take, IfOk};
ghost use Rattle.std.specs.Io.{ReadsAtMost};
ghost use Rattle.std.specs.Io.KnownBytes.{Consumes, IsAtEnd};

use std::io;
use std::io::Read;

// Reads until the block is full or the input ends, and answers how many bytes stand at the block's start. They are those that the input gave.
pub fn read_full<R: Read>(input: &mut R, block: &mut [u8]) -> io::Result<usize>
    ensures bound { ReadsAtMost result block.new }
    ensures bytes { IfOk result (λ n. Consumes (R.remaining input.old) (R.remaining input.new) (take n block.new)) }
    ensures end { IfOk result (λ n. n < length block.new → IsAtEnd (R.remaining input.new)) }
{
    // A `while` and no `for`: each turn goes on by what a read gave.
    let mut done = 0;
    while done < block.len() {
        let count = input.read(&mut block[done..])?;
        if count == 0 {
            return Ok(done);
        }
        done += count;
    }
    Ok(done)
}
