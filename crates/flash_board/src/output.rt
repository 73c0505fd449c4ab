//! The bytes of a sink in memory.
ghost use Rattle.std.specs.Prelude.{◌≡◌, ◌≤◌, ◌<◌, ◌+◌, ◌++◌, true, false, length, vec_capacity};

#[derive(Drop)]
pub(crate) struct Output {
    pub(crate) kept: Vec<u8>,
    pub(crate) room: usize,
    pub(crate) told: bool,
    ghost space: { room ≤ vec_capacity kept },
    ghost size: { length kept.items ≤ room },
}

impl Output {
    /// Keeps a piece, if there is room and there was room for each piece so far.
    pub(crate) fn write(&mut self, from: &[u8])
        ensures told { self.new.told ≡ true → self.old.told ≡ true }
        ensures kept { self.new.told ≡ true → self.new.kept.items
            ≡ self.old.kept.items ++ from.now }
        ensures goes_on { self.old.told ≡ true →
            length self.old.kept.items + length from.now ≤ self.old.room → self.new.told ≡ true }
        ensures stops { self.new.told ≡ false → self.new.kept.items ≡ self.old.kept.items }
        ensures ends { self.old.room < length self.old.kept.items + length from.now →
            self.new.told ≡ false }
        ensures room { self.new.room ≡ self.old.room }
    {
        if self.told && from.len() <= self.room - self.kept.len() {
            let _ = self.kept.extend_from_slice(from);
        } else {
            self.told = false;
        }
    }
}
