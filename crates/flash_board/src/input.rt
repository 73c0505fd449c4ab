//! The bytes of a source in memory.
ghost use Rattle.std.specs.Prelude.{◌≡◌, ◌≤◌, ◌++◌, min, length, take, drop};

#[derive(Drop)]
pub(crate) struct Input {
    pub(crate) bytes: Vec<u8>,
    pub(crate) next: usize,
    ghost within: { next ≤ length bytes.items },
}

impl Input {
    ghost use Rattle.flash_board.specs.Streams.{given_of, rest_of};

    /// Gives as many bytes as fit into the buffer.
    pub(crate) fn read(&mut self, into: &mut [u8]) -> usize
        ensures count { result ≡ min (length into.old) (length (rest_of self.old)) }
        ensures given { given_of self.new ≡ given_of self.old ++ take result into.new }
        ensures rest { rest_of self.old ≡ take result into.new ++ rest_of self.new }
    {
        let rest = &self.bytes[self.next..];
        let count = rest.len().min(into.len());
        into[..count].copy_from_slice(&rest[..count]);
        self.next += count;
        count
    }
}
