//! The table of the 22 commands as data: which parameters are tested and stored, and where.

ghost use Rattle.std.specs.Prelude.{◌≡◌, ◌==◌, find};
ghost use Rattle.mission_commands.specs.Table.{rows, row_of};
ghost use Rattle.mission_commands.specs.Rows.{IsRow};

/// What a command does with one of its parameters, in order of storage.
#[derive(Clone, Copy, Drop)]
pub enum Use {
    /// It is neither tested nor stored.
    Unused,
    /// A whole number, at least the first and at most the second, in so many bytes.
    Whole(i32, i32, usize),
    /// A whole number whose magnitude is at most the first, in so many bytes; its sign stands in
    /// the flags.
    Signed(i32, usize),
    /// A finite pattern, as it is.
    Pattern,
}

/// What is stored beside the parameters, and where these stand.
#[derive(Clone, Copy, Drop)]
pub enum Shape {
    /// A location; the parameters stand before it.
    Located,
    /// Nothing; the parameters stand in the content.
    Plain,
    /// A command that is not listed, of which the bytes before the content are shown.
    Unlisted,
}

/// One command, by its number in MAVLink's MAV_CMD.
#[derive(Clone, Copy, Drop)]
pub struct Row {
    pub id: u16,
    pub shape: Shape,
    pub param1: Use,
    pub param2: Use,
    pub param3: Use,
    pub param4: Use,
}

const U8: Use = Use::Whole(0, 255, 1);

const U16: Use = Use::Whole(0, 65535, 2);

macro_rules! row {
    ($id:literal, $shape:ident, $param1:expr, $param2:expr, $param3:expr, $param4:expr) => {
        Row {
            id: $id,
            shape: Shape::$shape,
            param1: $param1,
            param2: $param2,
            param3: $param3,
            param4: $param4,
        }
    };
}

const UNUSED: Use = Use::Unused;

const BITS: Use = Use::Pattern;

fn rows() -> [Row; 22]
    ensures { result ≡ rows }
{
    [
        row!(16, Located, U16, UNUSED, UNUSED, UNUSED),
        row!(17, Located, UNUSED, UNUSED, Use::Signed(65535, 2), UNUSED),
        row!(18, Located, U8, UNUSED, Use::Signed(255, 1), UNUSED),
        row!(19, Located, U16, UNUSED, UNUSED, UNUSED),
        row!(20, Plain, UNUSED, UNUSED, UNUSED, UNUSED),
        row!(21, Located, U16, UNUSED, UNUSED, UNUSED),
        row!(22, Located, U16, UNUSED, UNUSED, UNUSED),
        row!(82, Located, U16, UNUSED, UNUSED, UNUSED),
        row!(
            93,
            Plain,
            BITS,
            Use::Whole(-1, 23, 1),
            Use::Whole(-1, 59, 1),
            Use::Whole(-1, 59, 1)
        ),
        row!(112, Plain, BITS, UNUSED, UNUSED, UNUSED),
        row!(114, Plain, BITS, UNUSED, UNUSED, UNUSED),
        row!(
            115,
            Plain,
            BITS,
            BITS,
            Use::Whole(-1, 1, 1),
            Use::Whole(0, 1, 1)
        ),
        row!(177, Plain, U16, Use::Whole(-1, 32767, 2), UNUSED, UNUSED),
        row!(178, Plain, U8, BITS, BITS, UNUSED),
        row!(179, Located, Use::Whole(0, 1, 2), UNUSED, UNUSED, UNUSED),
        row!(181, Plain, U8, U8, UNUSED, UNUSED),
        row!(183, Plain, U8, U16, UNUSED, UNUSED),
        row!(189, Located, UNUSED, UNUSED, UNUSED, UNUSED),
        row!(201, Located, U16, UNUSED, UNUSED, UNUSED),
        row!(206, Plain, BITS, UNUSED, U8, UNUSED),
        row!(211, Plain, U8, U8, UNUSED, UNUSED),
        row!(42600, Plain, U8, U8, BITS, BITS),
    ]
}

/// The first row with this id.
fn find_row(rows: &[Row], id: u16) -> Option<Row>
    ensures { result ≡ find (λ r. r.id == id) rows.now }
{
    rows.iter().copied().find(|row| row.id == id)
}

/// The command's row.
pub fn row_of(id: u16) -> Row
    ensures value { result ≡ row_of id }
    ensures sound { IsRow result }
{
    let rows = rows();
    match find_row(&rows, id) {
        Some(row) => row,
        None => row!(0, Unlisted, U16, UNUSED, UNUSED, UNUSED),
    }
}
