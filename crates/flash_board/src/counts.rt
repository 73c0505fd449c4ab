//! The counts that boards, sources and sinks in memory keep.
ghost use Rattle.std.specs.Prelude.{◌≡◌};
ghost use Rattle.flash_traits.specs.Counts.{raised};
ghost use Rattle.flash_board.specs.Numbers.{is_among};

/// The calls so far.
#[derive(Clone, Copy)]
pub(crate) struct Counts {
    pub(crate) programs: u64,
    pub(crate) erases: u64,
    pub(crate) receptions: u64,
    pub(crate) sendings: u64,
}

/// The failed calls of each kind so far.
#[derive(Clone, Copy)]
pub(crate) struct Faults {
    pub(crate) attach: u64,
    pub(crate) read: u64,
    pub(crate) flash: u64,
    pub(crate) recv: u64,
    pub(crate) send: u64,
}

/// Counts a call, and says whether the one with this number fails.
pub(crate) fn fails_now(fails: &[u32], number: &mut u64) -> bool
    ensures fails { result ≡ is_among fails.now number.old }
    ensures number { number.new ≡ raised number.old }
{
    let called = *number;
    *number = called.saturating_add(1);
    fails.iter().any(|k| u64::from(*k) == called)
}
