// What the programs share: standard input read whole, and lines put together in fixed memory.
#![tactic(auto)]

mod line;

ghost use Rattle.std.specs.Prelude.{◌≤◌, length};

pub use line::Line;
use std::io::Read;

// Reads until `buffer` is full, the input ends or a read fails, and answers how many bytes it put at the front.
// By hand: read_exact does not tell how far it came, and read_to_end wants a heap. Its clause is of the count, by which callers slice.
pub fn read_full<R: Read>(input: &mut R, buffer: &mut [u8]) -> usize
    ensures { result ≤ length buffer.new }
{
    let mut done = 0usize;
    while done < buffer.len() {
        match input.read(&mut buffer[done..]) {
            Ok(n) if 0 < n => done += n,
            _ => break,
        }
    }
    done
}
