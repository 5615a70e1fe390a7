// Reading into a buffer of the caller's, for the programs.
#![tactic(auto)]

ghost use Rattle.std.specs.Prelude.{IfOk, OnErr, take};
ghost use Rattle.std.specs.Io.{ReadsAtMost};
ghost use Rattle.std.specs.Io.KnownBytes.{Consumes, Keeps};

use std::io::{self, Read};

// Reads until the buffer is full, the input ends or a read fails, and answers how many bytes stand at the buffer's start.
// A read that fails after some bytes ends the input; only a first one that fails is told. The loop goes by what each read gave, which no
// iterator over the buffer knows; the answer is a count, as that of `Read::read` is.
pub fn read_full<R: Read>(input: &mut R, buffer: &mut [u8]) -> io::Result<usize>
    ensures bound { ReadsAtMost result buffer.new }
    ensures bytes { IfOk result (λ n. Consumes (R.remaining input.old) (R.remaining input.new) (take n buffer.new)) }
    ensures none_lost { OnErr result (Keeps (R.remaining input.old) (R.remaining input.new)) }
{
    let mut done = 0;
    while done < buffer.len() {
        match input.read(&mut buffer[done..]) {
            Ok(0) => break,
            Ok(n) => done += n,
            Err(e) if done == 0 => return Err(e),
            Err(_) => break,
        }
    }
    Ok(done)
}
