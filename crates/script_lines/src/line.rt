//! A line of a script, as it is read.
use arrayvec::ArrayVec;
use flash_traits::DATAGRAM_BYTES;

/// A loss of power at a later program or erase call, of a line `l K M`.
#[derive(Clone, Copy, Debug, Default, PartialEq, Eq)]
pub struct Waiting {
    /// K: which program or erase call it is, from 1 to 1,000,000, counted from the last loss, or
    /// from the line where no earlier loss waits.
    pub call: u32,
    /// M: what it leaves. 0 is a loss before the call, 1 one after it. 2 is as 0 for a program, and
    /// for an erase it leaves the odd offsets erased and the even ones as they were.
    pub how: u8,
}

/// A line of a script.
#[derive(Debug, Drop, PartialEq, Eq)]
pub enum ScriptLine {
    /// `d S HEX`: a datagram of these bytes from station S, 0 to 7.
    Datagram {
        station: u8,
        bytes: ArrayVec<u8, DATAGRAM_BYTES>,
    },
    /// `i`: an idle turn.
    Idle,
    /// `x`: power is lost now.
    LossNow,
    /// `l K M`: power is lost at a later call.
    LossLater(Waiting),
    /// `e`: the end, and the last line.
    End,
}
