//! The budget of lines while the vehicle is armed, since nothing is erased then.
ghost use Rattle.std.specs.Prelude.{◌≡◌};
ghost use Rattle.param_service.specs.Budget.{exceeds};

use storage_lines::Batch;

/// Whether there are more lines than may be issued: any may be where there is no limit.
pub fn exceeds(allowed: Option<u32>, batch: &Batch) -> bool
    ensures { result ≡ exceeds allowed batch.now.items }
{
    match allowed {
        None => false,
        Some(limit) => batch.len() > limit as usize,
    }
}
