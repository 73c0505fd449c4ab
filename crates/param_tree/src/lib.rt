//! The table of the vehicle's parameters: 240 rows in a fixed order, each with its name, its place
//! in parameter storage and its default.
#![tactic(auto)]

ghost use Rattle.std.specs.Prelude.{◌≡◌, ℕ, ◌<◌, ◌↔◌, All, IfSome, IfNone, IsNone, IsTrue, length, position, slice_get, ◌==◌, Some};
ghost use Rattle.std.specs.List.{before_first};
ghost use Rattle.param_tree.specs.MavTypes.{mav_type_of};
ghost use Rattle.param_tree.specs.Rules.{IsTable, IsName, has_name, name16, row_fits};
ghost use Rattle.param_tree.specs.Rows.{vehicle_rows};

mod rows;

pub use rows::{PARAMETERS, sizes};
use std::marker::Model;

/// The type of a stored value.
#[derive(Clone, Copy, PartialEq, Eq, Debug)]
pub enum Kind {
    /// One byte in two's complement.
    I8,
    /// Two bytes in two's complement.
    I16,
    /// Four bytes in two's complement.
    I32,
    /// The pattern of a binary32.
    F32,
    /// The patterns of three binary32, stored as one value; a row stands for one of them.
    Vec3,
}

/// MAV_PARAM_TYPE of MAVLink's common message set: INT8, INT16, INT32, REAL32.
pub fn mav_type_of(kind: Kind) -> u8
    ensures { result ≡ mav_type_of kind }
{
    match kind {
        Kind::I8 => 2,
        Kind::I16 => 4,
        Kind::I32 => 6,
        Kind::F32 | Kind::Vec3 => 9,
    }
}

/// One row of a table.
#[derive(Clone, Copy, PartialEq, Eq, Debug)]
pub struct Var {
    /// ASCII, filled with zeros; a name of 16 bytes has none.
    pub name: [u8; 16],
    /// The key of the value's group, below 512.
    pub key: u16,
    /// The value's path inside its group, below 2^18: `i1 + 64 * i2 + 4096 * i3`, where an index 0
    /// below the first level is written as 63, and a level that the path doesn't have as 0.
    pub element: u32,
    pub kind: Kind,
    /// Which of three floats, 0 to 2; 0 for every other kind.
    pub part: u8,
    /// The value where none is stored: a whole number in 32 bits of two's complement, or a pattern.
    pub default: u32,
}

/// A table of `N` rows. Names differ, and so do the places of rows in storage; each row's numbers
/// are in their ranges; and where one part of three floats has a row, all three have.
#[derive(Drop)]
pub struct Table<const N: usize> {
    rows: [Var; N],
}

impl<const N: usize> Model for Table<N> {
    ghost use Rattle.std.specs.Prelude.{List};
    ghost use Rattle.param_tree.specs.declared.Var.{Var};
    ghost use Rattle.param_tree.specs.Rules.{IsTable};

    ghost Value = { List Var };

    ghost view = { λ t. t.rows };

    ghost invariant = { λ t. IsTable t.rows };
}

/// The vehicle's table. The names are ArduPilot's; keys, paths, kinds and defaults are this
/// project's own.
pub fn vehicle_table() -> Table<PARAMETERS>
    ensures rows { result ≡ vehicle_rows }
{
    Table {
        rows: rows::vehicle_rows(),
    }
}

/// A name in its sixteen bytes, without the zeros after it.
pub fn name_in(bytes: &[u8; 16]) -> &[u8]
    ensures { result.now ≡ before_first (λ b. b == 0) bytes.now }
{
    for (i, b) in bytes.iter().enumerate() {
        if *b == 0 {
            return &bytes[..i];
        }
    }
    bytes
}

impl Var {
    ghost use Rattle.param_tree.specs.Rules.{name_of};

    /// The row's name, without the zeros after it.
    pub fn name(&self) -> &[u8]
        ensures { result.now ≡ name_of self.now }
    {
        name_in(&self.name)
    }
}

/// A name filled with zeros to sixteen bytes, or None where no row can have it: it is longer, or
/// has a zero.
fn sixteen_bytes(name: &[u8]) -> Option<[u8; 16]>
    ensures some { IfSome result (λ bytes. (bytes ≡ name16 name.now) × IsName name.now) }
    ensures none { IfNone result (¬ IsName name.now) }
{
    if name.len() > 16 || name.contains(&0) {
        return None;
    }
    let mut bytes = [0; 16];
    bytes[..name.len()].copy_from_slice(name);
    Some(bytes)
}

impl<const N: usize> Table<N> {
    ghost use Rattle.param_tree.specs.declared.Var.{Var};

    /// The index of the one row of that name, which is given without zeros after it.
    pub fn find(&self, name: &[u8]) -> Option<u16>
        ensures found { result ≡ position (has_name name.now) self.now }
        ensures none { IsNone result ↔ All (λ v. ¬ IsTrue (has_name name.now v)) self.now }
        ensures only { IfSome result (λ i. (j : ℕ) (v : Var) → slice_get self.now j ≡ Some v
            → IsTrue (has_name name.now v) → j ≡ i) }
    {
        let rows = &self.rows;
        let wanted = sixteen_bytes(name)?;
        for (i, row) in rows.iter().enumerate() {
            if row.name == wanted {
                return Some(i as u16);
            }
        }
        None
    }

    /// The row with this index.
    pub fn row(&self, index: u16) -> Var
        requires { index < N }
        ensures row { slice_get self.now index ≡ Some result }
        ensures fits { IsTrue (row_fits result) }
    {
        self.rows[index as usize]
    }

    /// A law: what holds of every table.
    pub fn rules(&self)
        ensures rules { IsTable self.now }
        ensures len { length self.now ≡ N }
    {
        let _rows = &self.rows;
    }
}

#[cfg(test)]
mod tests {
    use super::*;
    use std::alloc::Global;
    use std::process::Abort;
    use std::test::Fail;

    /// Tests that the names of a family have the indices from `first` on, and gives the index after
    /// them.
    fn family(
        rt: &impl Abort,
        alloc: Global,
        first: u16,
        head: &str,
        tails: &str,
    ) -> Result<u16, Fail> {
        let table = vehicle_table();
        let mut index = first;
        for tail in tails.split(' ') {
            let name = format!(in alloc; "{head}{tail}")?;
            assert_eq!(rt; table.find(name.as_bytes()), Some(index), "of {name}");
            index = index.saturating_add(1);
        }
        Ok(index)
    }

    #[test]
    fn all_240_names_have_their_indices(rt: HostRuntime) -> Result<(), Fail> {
        let mut index = 0;
        for (head, tails) in [
            (
                "",
                "FORMAT_VERSION RTL_ALT LOG_BITMASK FS_THR_ENABLE DISARM_DELAY",
            ),
            ("MIS_", "TOTAL RESTART OPTIONS"),
            ("FENCE_", "ENABLE TYPE ACTION ALT_MAX RADIUS MARGIN"),
            ("RALLY_", "TOTAL LIMIT_KM"),
            ("WPNAV_", "SPEED RADIUS SPEED_UP SPEED_DN ACCEL"),
            (
                "COMPASS_",
                "OFS_X OFS_Y OFS_Z OFS2_X OFS2_Y OFS2_Z DIA_X DIA_Y DIA_Z USE USE2 DEC",
            ),
            (
                "INS_",
                "ACCOFFS_X ACCOFFS_Y ACCOFFS_Z ACCSCAL_X ACCSCAL_Y ACCSCAL_Z",
            ),
            (
                "INS_",
                "GYROFFS_X GYROFFS_Y GYROFFS_Z GYRO_FILTER ACCEL_FILTER",
            ),
            ("BATT_", "MONITOR CAPACITY LOW_VOLT CRT_VOLT LOW_MAH"),
            (
                "ATC_RAT_",
                "RLL_P RLL_I RLL_D PIT_P PIT_I PIT_D YAW_P YAW_I YAW_D",
            ),
            ("FLTMODE", "1 2 3 4 5 6"),
        ] {
            index = family(&rt, rt.alloc(), index, head, tails)?;
        }
        for n in 1..=16u8 {
            let head = format!(in rt.alloc(); "SERVO{n}_")?;
            index = family(
                &rt,
                rt.alloc(),
                index,
                &head,
                "MIN MAX TRIM REVERSED FUNCTION",
            )?;
        }
        for n in 1..=16u8 {
            let head = format!(in rt.alloc(); "RC{n}_")?;
            index = family(
                &rt,
                rt.alloc(),
                index,
                &head,
                "MIN TRIM MAX REVERSED DZ OPTION",
            )?;
        }
        assert_eq!(rt; index, 240);
        Ok(())
    }

    #[test]
    fn rows_stand_at_their_places(rt: HostRuntime) {
        let table = vehicle_table();
        table.rules();
        for (index, key, element, kind, part, default) in [
            (2, 300, 0, Kind::I32, 0, 176_126),
            (22, 24, 1, Kind::Vec3, 1, 0),
            (29, 24, 3, Kind::Vec3, 2, 0x3F80_0000),
            (49, 27, 258_113, Kind::F32, 0, 0x3E00_0000),
            (143, 30, 336, Kind::I16, 0, 0),
            (144, 31, 4033, Kind::I16, 0, 1100),
        ] {
            let row = table.row(index);
            assert_eq!(rt;
                (row.key, row.element, row.default),
                (key, element, default),
                "at {index}"
            );
            assert!(rt; row.kind == kind && row.part == part, "at {index}");
        }
    }

    #[test]
    fn names_are_found_whole(rt: HostRuntime) {
        let table = vehicle_table();
        for (name, index) in [
            ("", None),
            ("COMPASS_US", None),
            ("COMPASS_USE", Some(30)),
            ("COMPASS_USE2", Some(31)),
            ("INS_ACCEL_FILTER", Some(43)),
            ("INS_ACCEL_FILTER2", None),
            ("RTL_ALT\0", None),
            ("rtl_alt", None),
            ("RC17_MIN", None),
        ] {
            assert_eq!(rt; table.find(name.as_bytes()), index, "of {name}");
        }
    }
}
