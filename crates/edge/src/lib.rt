// What the programs that read their standard input share.
#![tactic(auto)]

ghost use Rattle.std.specs.Prelude.{◌≤◌, length, IfOk};

use std::io::{Read, Result};

// Reads until the buffer is full or the input ends; answers how many bytes it put at the buffer's start. The only error is
// that of a read, and the buffer may then have some of the input.
pub fn read_full(input: &mut impl Read, buf: &mut [u8]) -> Result<usize>
    ensures { IfOk result (λ n. n ≤ length buf.new) }
{
    let mut done = 0;
    // No `for`: how far a step goes is what the read gave.
    while done < buf.len() {
        let n = input.read(&mut buf[done..])?;
        if n == 0 {
            break;
        }
        done += n;
    }
    Ok(done)
}
