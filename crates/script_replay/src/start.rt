//! What stood before the calls of a node, as ghost values.
ghost use Rattle.std.specs.Prelude.{[], List, ℕ, Bool, false};
ghost use Rattle.std.specs.Borrow.{GName};

use std::marker::Brand;

/// What stood when a call of a node began.
pub trait Start {
    /// Whose source and sink the board holds.
    ghost input: { GName };

    ghost out: { GName };

    ghost sector_bytes: { ℕ };

    /// The call may receive an event.
    ghost room: { Bool };

    /// The bytes that were read and not taken, and those that were left to read, where the source
    /// told them.
    ghost unread: { List ℕ };

    ghost rest: { List ℕ };

    ghost tells_rest: { Type 0 };

    /// The bytes that were printed, where the sink told them.
    ghost written: { List ℕ };

    ghost tells_written: { Type 0 };

    /// How many lines were taken, and how many losses waited.
    ghost line: { ℕ };

    ghost waiting: { ℕ };

    /// How often the source and the sink had failed.
    ghost input_faults: { ℕ };

    ghost output_faults: { ℕ };
}

impl Start for Brand {
    ghost input = { 0 };

    ghost out = { 0 };

    ghost sector_bytes = { 0 };

    ghost room = { false };

    ghost unread = { [] };

    ghost rest = { [] };

    ghost tells_rest = { ⊥ };

    ghost written = { [] };

    ghost tells_written = { ⊥ };

    ghost line = { 0 };

    ghost waiting = { 0 };

    ghost input_faults = { 0 };

    ghost output_faults = { 0 };
}

/// What stood when a replay began.
pub trait Beginning {
    /// Whose source and sink the board holds.
    ghost input: { GName };

    ghost out: { GName };

    ghost sector_bytes: { ℕ };

    /// The bytes that were left to read, where the source told them.
    ghost rest: { List ℕ };

    ghost tells_rest: { Type 0 };

    /// The bytes that were printed, where the sink told them.
    ghost written: { List ℕ };

    ghost tells_written: { Type 0 };

    /// How often the source and the sink had failed.
    ghost input_faults: { ℕ };

    ghost output_faults: { ℕ };
}

impl Beginning for Brand {
    ghost input = { 0 };

    ghost out = { 0 };

    ghost sector_bytes = { 0 };

    ghost rest = { [] };

    ghost tells_rest = { ⊥ };

    ghost written = { [] };

    ghost tells_written = { ⊥ };

    ghost input_faults = { 0 };

    ghost output_faults = { 0 };
}
