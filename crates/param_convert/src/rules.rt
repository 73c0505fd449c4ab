//! The rules of conversion, each from an old record to the row that stands for its value today.
ghost use Rattle.std.specs.Prelude.{◌≡◌, [], ◌∷◌, All, codes, flat_map};
ghost use Rattle.param_tree.specs.Rows.{vehicle_rows};
ghost use Rattle.param_convert.specs.Rules.{HasRows, new_names, vehicle_rules};

use param_tree::Kind;

/// Where an old record is, and which record takes over its value.
#[derive(Clone, Copy, Debug, PartialEq, Eq, Drop)]
pub struct Rule {
    /// The key of the old record.
    pub key: u16,
    /// The element of the old record: its path inside its key's group, as of a row of the table.
    pub element: u32,
    /// The kind of both records.
    pub kind: Kind,
    /// The key of the new record, which rows of the table have.
    pub new_key: u16,
    /// The element of the new record.
    pub new_element: u32,
}

/// A rule for a record that had a key of its own.
fn from_key(key: u16, kind: Kind, new_key: u16, new_element: u32) -> Rule
    ensures { result ≡ record {
      key = key;
      element = 0;
      kind = kind;
      new_key = new_key;
      new_element = new_element;
    } }
{
    Rule {
        key,
        element: 0,
        kind,
        new_key,
        new_element,
    }
}

/// The vehicle's rules, in the order in which boot tries them. The keys 100 to 103 are old ones: no
/// row of the vehicle's table has them.
pub fn vehicle_rules() -> [Rule; 4]
    ensures rules { result ≡ vehicle_rules }
    ensures rows { All (HasRows vehicle_rows) result }
    ensures named { flat_map (new_names vehicle_rows) result
        ≡ codes "SERVO1_TRIM" ∷ codes "FENCE_RADIUS" ∷ codes "RTL_ALT"
        ∷ codes "COMPASS_OFS_X" ∷ codes "COMPASS_OFS_Y" ∷ codes "COMPASS_OFS_Z" ∷ [] }
{
    [
        from_key(100, Kind::I16, 30, 193),
        from_key(101, Kind::F32, 21, 5),
        from_key(102, Kind::I32, 1, 0),
        from_key(103, Kind::Vec3, 24, 1),
    ]
}
