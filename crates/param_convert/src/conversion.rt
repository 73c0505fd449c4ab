//! One rule tried: where it applies, the old value is appended as a record of the new key.
ghost use Rattle.std.specs.Prelude.{◌≡◌, ◌≢◌, ◌<◌, ◌≤◌, ◌+◌, ◌↔◌, ℕ, List, [], length, take, slice_get, IsTrue, IfSome, MatchOption, Some, None};
ghost use Rattle.std.specs.List.{find};
ghost use Rattle.arrayvec.specs.ArrayVec.{array_vec_len};
ghost use Rattle.storage_lines.specs.declared.areas.Area.TheVariants.{Param};
ghost use Rattle.storage_lines.specs.Areas.{logical_of};
ghost use Rattle.storage_lines.specs.Bytes.{HaveBytes, AreInside};
ghost use Rattle.storage_lines.specs.Lines.{after};
ghost use Rattle.param_records.specs.Records.{size_of, end_of, value_in};
ghost use Rattle.param_records.specs.Steps.{HasMagic, records_in_storage};
ghost use Rattle.param_convert.specs.Rules.{is_new_part, HasRows};
ghost use Rattle.param_convert.specs.Conversion.{default_value, Converts, convert_writes};
ghost use Rattle.param_convert.specs.Steps.{IsConversion};

use crate::rules::Rule;
use param_records::{
    APPEND_LINES, Lookup, PARAM_BYTES, append, fresh_value, look_up, place, size_of,
};
use param_tree::{Table, Var};
use storage_lines::{Area, Batch, STORAGE_BYTES, read};

/// Whether a row is that of the first part of the record that a rule makes.
fn is_first_part(rule: &Rule, row: &Var) -> bool
    ensures { result ≡ is_new_part rule.now 0 row.now }
{
    row.key == rule.new_key
        && row.element == rule.new_element
        && row.kind == rule.kind
        && row.part == 0
}

/// The row of the first part of the record that a rule makes.
fn first_row<const N: usize>(table: &Table<N>, rule: &Rule) -> Var
    requires { HasRows table.now rule.now }
    ensures { find (is_new_part rule.now 0) table.now ≡ Some result }
{
    table.rules();
    for i in 0..N as u16 {
        let row = table.row(i);
        if is_first_part(rule, &row) {
            return row;
        }
    }
    unreachable!()
}

/// The value of the record that a rule makes with each part at its default: its first `size_of`
/// bytes.
fn default_value<const N: usize>(table: &Table<N>, rule: &Rule) -> [u8; 12]
    requires { HasRows table.now rule.now }
    ensures { take (size_of rule.now.kind) result ≡ default_value table.now rule.now }
{
    let row = first_row(table, rule);
    fresh_value(table, &row, row.default)
}

/// The value of the old record, if there is one: its first `size_of` bytes.
fn old_value(current: &[u8], rule: &Rule) -> Option<[u8; 12]>
    requires { length current.now ≡ STORAGE_BYTES }
    ensures { let value = value_in rule.now.key rule.now.element rule.now.kind
        (records_in_storage current.now) in
        MatchOption result (value ≡ None)
        (λ bytes. value ≡ Some (take (size_of rule.now.kind) bytes)) }
{
    let at = place(current, rule.key, rule.element, rule.kind)?;
    let mut value = [0; 12];
    read(Area::Param, at, current, &mut value[..size_of(rule.kind)]);
    Some(value)
}

/// Where the new record goes, with the sentinel after it; None where it is there already, or
/// doesn't fit.
fn new_place(current: &[u8], rule: &Rule) -> Option<usize>
    requires { length current.now ≡ STORAGE_BYTES }
    ensures { let end = end_of (logical_of Param current.now) in
        let absent = value_in rule.now.new_key rule.now.new_element rule.now.kind
        (records_in_storage current.now) ≡ None in
        MatchOption result (absent → PARAM_BYTES < end + 8 + size_of rule.now.kind)
        (λ at. (at ≡ end) × absent × (end + 8 + size_of rule.now.kind ≤ PARAM_BYTES)) }
{
    match look_up(current, rule.new_key, rule.new_element, rule.kind) {
        Lookup::At(_) => None,
        Lookup::End(end) => {
            let end = end as usize;
            if end + 8 + size_of(rule.kind) > PARAM_BYTES {
                return None;
            }
            Some(end)
        }
    }
}

/// Tries a rule: appends the record that it makes, if it makes one, and says so.
fn try_rule<const N: usize>(
    current: &[u8],
    table: &Table<N>,
    rule: &Rule,
    batch: &mut Batch,
) -> bool
    requires size { length current.now ≡ STORAGE_BYTES }
    requires rows { HasRows table.now rule.now }
    requires batch { batch.old.items ≡ [] }
    ensures writes { batch.new.items ≡ convert_writes table.now rule.now current.now }
    ensures converts { IsTrue result ↔ ((value : List ℕ)
        × Converts table.now (records_in_storage current.now) rule.now value) }
    ensures few { array_vec_len batch.new ≤ APPEND_LINES }
    ensures inside { AreInside batch.new.items }
    ensures bytes { HaveBytes batch.new.items }
{
    table.rules();
    let Some(value) = old_value(current, rule) else {
        return false;
    };
    let Some(end) = new_place(current, rule) else {
        return false;
    };
    let size = size_of(rule.kind);
    if value[..size] == default_value(table, rule)[..size] {
        return false;
    }
    append(
        current,
        end,
        rule.new_key,
        rule.new_element,
        rule.kind,
        &value[..size],
        batch,
    );
    true
}

/// Appends the lines of one rule, and says whether there are any.
///
/// The rule applies where its old record is stored, its new one isn't, the old value differs from
/// the new record's default, and the new record fits. The value's bytes are copied as they are, and
/// the old record stays.
pub fn convert<const N: usize, const K: usize>(
    current: &[u8],
    table: &Table<N>,
    rules: &[Rule; K],
    step: usize,
    batch: &mut Batch,
) -> bool
    requires size { length current.now ≡ STORAGE_BYTES }
    requires step { step < K }
    requires rows { IfSome (slice_get rules.now step) (HasRows table.now) }
    requires batch { batch.old.items ≡ [] }
    ensures writes { IfSome (slice_get rules.now step) (λ rule.
        batch.new.items ≡ convert_writes table.now rule current.now) }
    ensures any { IsTrue result ↔ (batch.new.items ≢ []) }
    ensures converts { IfSome (slice_get rules.now step) (λ rule. IsTrue result
        ↔ ((value : List ℕ) × Converts table.now (records_in_storage current.now) rule value)) }
    ensures steps { IfSome (slice_get rules.now step) (λ rule.
        IsConversion table.now rule current.now batch.new.items) }
    ensures magic { HasMagic current.now
        → (j : ℕ) → HasMagic (after current.now (take j batch.new.items)) }
    ensures few { array_vec_len batch.new ≤ APPEND_LINES }
    ensures inside { AreInside batch.new.items }
    ensures bytes { HaveBytes batch.new.items }
{
    table.rules();
    let rule = rules[step];
    try_rule(current, table, &rule, batch)
}
