//! The losses of power that wait for their call.
ghost use Rattle.std.specs.Prelude.{◌≡◌, ◌≢◌, ◌<◌, ◌++◌, [], ◌∷◌, true, false, length, drop};
ghost use Rattle.std.specs.Prelude.{IfSome, IfNone};
ghost use Rattle.script_board.specs.Waiting.{falls_now, calls_counted, first_leaves};
ghost use Rattle.script_board.specs.Hearing.{since_when};

use arrayvec::ArrayVec;
use script_lines::Waiting;

/// The most losses that wait at once.
pub const WAITING_LOSSES: usize = 16;

/// The limit has this number.
pub fn limits()
    ensures { WAITING_LOSSES ≡ 16 }
{}

/// Counts a program or erase call. Where the first waiting loss falls in it, that loss waits no
/// more, and the result is what it leaves.
pub(crate) fn next_call(
    waiting: &mut ArrayVec<Waiting, WAITING_LOSSES>,
    since: &mut u32,
) -> Option<u8>
    ensures falls { IfSome result (λ how. falls_now waiting.old.items since.old ≡ true) }
    ensures leaves { IfSome result (λ how. how ≡ first_leaves waiting.old.items) }
    ensures fallen { IfSome result (λ how. waiting.new.items ≡ drop 1 waiting.old.items) }
    ensures anew { IfSome result (λ how. since.new ≡ 0) }
    ensures none { IfNone result (falls_now waiting.old.items since.old ≡ false) }
    ensures waits { IfNone result (waiting.new.items ≡ waiting.old.items) }
    ensures counted { IfNone result (since.new ≡ calls_counted waiting.old.items since.old) }
{
    let Some(first) = waiting.as_slice().first().copied() else {
        return None;
    };
    if u64::from(*since) + 1 != u64::from(first.call) {
        *since = since.saturating_add(1);
        return None;
    }
    waiting.remove(0);
    *since = 0;
    Some(first.how)
}

/// A loss begins to wait. Where none waited before, calls are counted from here.
pub(crate) fn wait(waiting: &mut ArrayVec<Waiting, WAITING_LOSSES>, since: &mut u32, loss: Waiting)
    requires { length waiting.old.items < WAITING_LOSSES }
    ensures waits { waiting.new.items ≡ waiting.old.items ++ loss ∷ [] }
    ensures since { since.new ≡ since_when waiting.old.items since.old }
{
    if waiting.is_empty() {
        *since = 0;
    }
    waiting.push(loss);
}
