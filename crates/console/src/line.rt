// Text put together in fixed memory.
ghost use Rattle.std.specs.Prelude.{◌≡◌, [], length, decimal};
ghost use Rattle.console.specs.Texts.{appended};

use arrayvec::ArrayVec;
use itoa::Buffer;

// Text of at most N bytes. What does not fit whole is left out.
#[derive(Drop)]
pub struct Line<const N: usize> {
    pub bytes: ArrayVec<u8, N>,
}

impl<const N: usize> Line<N> {
    // No text yet.
    pub fn new() -> Line<N>
        ensures { result.bytes.items ≡ [] }
    {
        Line {
            bytes: ArrayVec::new(),
        }
    }

    // Adds a text.
    pub fn push(&mut self, text: &str)
        ensures { self.new.bytes.items ≡ appended N self.old.bytes.items text.now }
    {
        let _ = self.bytes.try_extend_from_slice(text.as_bytes());
    }

    // Adds the decimal digits of n: most often it is one.
    pub fn push_number(&mut self, n: u64)
        ensures { self.new.bytes.items ≡ appended N self.old.bytes.items (decimal n) }
    {
        if n < 10 {
            let _ = self.bytes.try_push(b'0' + n as u8);
            return;
        }
        let mut digits = Buffer::new();
        self.push(digits.format(n));
    }
}
