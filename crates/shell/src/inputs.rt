// A whole input into a buffer, or into a Vec.
ghost use Rattle.std.specs.Prelude.{◌<◌, ◌≤◌, length, vec_len, take, IfOk};
ghost use Rattle.std.specs.Io.KnownBytes.{Consumes, IsAtEnd};

use std::alloc::Global;
use std::io;
use std::io::Read;

// Reads until the buffer is full or the input ends; answers how many bytes were read: std's `read_exact` takes a short input for an error.
pub fn read_full<R: Read>(input: &mut R, buffer: &mut [u8]) -> io::Result<usize>
    ensures within { IfOk result (λ n. n ≤ length buffer.new) }
    ensures bytes { IfOk result (λ n. Consumes (R.remaining input.old) (R.remaining input.new) (take n buffer.new)) }
    ensures end { IfOk result (λ n. n < length buffer.new → IsAtEnd (R.remaining input.new)) }
{
    let mut done: usize = 0;
    while done < buffer.len() {
        let n = input.read(&mut buffer[done..])?;
        if n == 0 {
            return Ok(done);
        }
        done += n;
    }
    Ok(done)
}

// Reads so many bytes, or to the input's end where that comes first: `read_full` into a Vec.
pub fn read_up_to<R: Read>(alloc: Global, input: &mut R, most: usize) -> io::Result<Vec<u8>>
    ensures within { IfOk result (λ bytes. vec_len bytes ≤ most) }
    ensures bytes { IfOk result (λ bytes. Consumes (R.remaining input.old) (R.remaining input.new) bytes.items) }
    ensures end { IfOk result (λ bytes. vec_len bytes < most → IsAtEnd (R.remaining input.new)) }
{
    let mut bytes = vec![in alloc; 0u8; most]?;
    let count = read_full(input, &mut bytes)?;
    bytes.truncate(count);
    Ok(bytes)
}
