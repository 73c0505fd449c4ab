//! The rows of the vehicle's table, in the order of their indices.

ghost use Rattle.std.specs.Prelude.{◌≡◌, ◌+◌, ◌≤◌, ◌++◌, length, take};
ghost use Rattle.param_tree.specs.Rows.{vehicle_rows, basic_rows, sensor_rows, flight_rows, servo_rows, rc_rows, each_from};

use crate::{Kind, Var};

/// A row: its name in 16 bytes, key, group element, kind and default. A row of three floats names
/// its part: `Vec3[1]`.
macro_rules! row {
    (
        $name:literal, $key:literal, $element:literal, $kind:ident[$part:literal],
        $default:literal
    ) => {
        Var {
            name: *$name,
            key: $key,
            element: $element,
            kind: Kind::$kind,
            part: $part,
            default: $default,
        }
    };
    ($name:literal, $key:literal, $element:literal, $kind:ident, $default:literal) => {
        row!($name, $key, $element, $kind[0], $default)
    };
}

/// The rows 0 to 20: single parameters, mission, fence, rally points and navigation.
fn basic_rows() -> [Var; 21]
    ensures { result ≡ basic_rows }
{
    [
        row!(b"FORMAT_VERSION\0\0", 0, 0, I16, 120),
        row!(b"RTL_ALT\0\0\0\0\0\0\0\0\0", 1, 0, I32, 1500),
        row!(b"LOG_BITMASK\0\0\0\0\0", 300, 0, I32, 176_126),
        row!(b"FS_THR_ENABLE\0\0\0", 3, 0, I8, 1),
        row!(b"DISARM_DELAY\0\0\0\0", 4, 0, I8, 10),
        row!(b"MIS_TOTAL\0\0\0\0\0\0\0", 20, 1, I16, 0),
        row!(b"MIS_RESTART\0\0\0\0\0", 20, 2, I8, 0),
        row!(b"MIS_OPTIONS\0\0\0\0\0", 20, 3, I16, 0),
        row!(b"FENCE_ENABLE\0\0\0\0", 21, 1, I8, 0),
        row!(b"FENCE_TYPE\0\0\0\0\0\0", 21, 2, I8, 7),
        row!(b"FENCE_ACTION\0\0\0\0", 21, 3, I8, 1),
        row!(b"FENCE_ALT_MAX\0\0\0", 21, 4, F32, 0x42C8_0000),
        row!(b"FENCE_RADIUS\0\0\0\0", 21, 5, F32, 0x4396_0000),
        row!(b"FENCE_MARGIN\0\0\0\0", 21, 6, F32, 0x4000_0000),
        row!(b"RALLY_TOTAL\0\0\0\0\0", 22, 1, I8, 0),
        row!(b"RALLY_LIMIT_KM\0\0", 22, 2, F32, 0x3E80_0000),
        row!(b"WPNAV_SPEED\0\0\0\0\0", 23, 1, F32, 0x43FA_0000),
        row!(b"WPNAV_RADIUS\0\0\0\0", 23, 2, F32, 0x4348_0000),
        row!(b"WPNAV_SPEED_UP\0\0", 23, 3, F32, 0x437A_0000),
        row!(b"WPNAV_SPEED_DN\0\0", 23, 4, F32, 0x4316_0000),
        row!(b"WPNAV_ACCEL\0\0\0\0\0", 23, 5, F32, 0x42C8_0000),
    ]
}

/// The rows 21 to 43: compass and inertial sensors.
fn sensor_rows() -> [Var; 23]
    ensures { result ≡ sensor_rows }
{
    [
        row!(b"COMPASS_OFS_X\0\0\0", 24, 1, Vec3[0], 0),
        row!(b"COMPASS_OFS_Y\0\0\0", 24, 1, Vec3[1], 0),
        row!(b"COMPASS_OFS_Z\0\0\0", 24, 1, Vec3[2], 0),
        row!(b"COMPASS_OFS2_X\0\0", 24, 2, Vec3[0], 0),
        row!(b"COMPASS_OFS2_Y\0\0", 24, 2, Vec3[1], 0),
        row!(b"COMPASS_OFS2_Z\0\0", 24, 2, Vec3[2], 0),
        row!(b"COMPASS_DIA_X\0\0\0", 24, 3, Vec3[0], 0x3F80_0000),
        row!(b"COMPASS_DIA_Y\0\0\0", 24, 3, Vec3[1], 0x3F80_0000),
        row!(b"COMPASS_DIA_Z\0\0\0", 24, 3, Vec3[2], 0x3F80_0000),
        row!(b"COMPASS_USE\0\0\0\0\0", 24, 4, I8, 1),
        row!(b"COMPASS_USE2\0\0\0\0", 24, 5, I8, 1),
        row!(b"COMPASS_DEC\0\0\0\0\0", 24, 6, F32, 0),
        row!(b"INS_ACCOFFS_X\0\0\0", 25, 1, Vec3[0], 0),
        row!(b"INS_ACCOFFS_Y\0\0\0", 25, 1, Vec3[1], 0),
        row!(b"INS_ACCOFFS_Z\0\0\0", 25, 1, Vec3[2], 0),
        row!(b"INS_ACCSCAL_X\0\0\0", 25, 2, Vec3[0], 0x3F80_0000),
        row!(b"INS_ACCSCAL_Y\0\0\0", 25, 2, Vec3[1], 0x3F80_0000),
        row!(b"INS_ACCSCAL_Z\0\0\0", 25, 2, Vec3[2], 0x3F80_0000),
        row!(b"INS_GYROFFS_X\0\0\0", 25, 3, Vec3[0], 0),
        row!(b"INS_GYROFFS_Y\0\0\0", 25, 3, Vec3[1], 0),
        row!(b"INS_GYROFFS_Z\0\0\0", 25, 3, Vec3[2], 0),
        row!(b"INS_GYRO_FILTER\0", 25, 4, I16, 20),
        row!(b"INS_ACCEL_FILTER", 25, 5, I16, 20),
    ]
}

/// The rows 44 to 63: battery, attitude controller and flight modes.
fn flight_rows() -> [Var; 20]
    ensures { result ≡ flight_rows }
{
    [
        row!(b"BATT_MONITOR\0\0\0\0", 26, 1, I8, 0),
        row!(b"BATT_CAPACITY\0\0\0", 26, 2, I32, 3300),
        row!(b"BATT_LOW_VOLT\0\0\0", 26, 3, F32, 0x4128_0000),
        row!(b"BATT_CRT_VOLT\0\0\0", 26, 4, F32, 0),
        row!(b"BATT_LOW_MAH\0\0\0\0", 26, 5, F32, 0),
        row!(b"ATC_RAT_RLL_P\0\0\0", 27, 258_113, F32, 0x3E00_0000),
        row!(b"ATC_RAT_RLL_I\0\0\0", 27, 4161, F32, 0x3E00_0000),
        row!(b"ATC_RAT_RLL_D\0\0\0", 27, 8257, F32, 0),
        row!(b"ATC_RAT_PIT_P\0\0\0", 27, 258_177, F32, 0x3E00_0000),
        row!(b"ATC_RAT_PIT_I\0\0\0", 27, 4225, F32, 0x3E00_0000),
        row!(b"ATC_RAT_PIT_D\0\0\0", 27, 8321, F32, 0),
        row!(b"ATC_RAT_YAW_P\0\0\0", 27, 258_241, F32, 0x3E00_0000),
        row!(b"ATC_RAT_YAW_I\0\0\0", 27, 4289, F32, 0x3E00_0000),
        row!(b"ATC_RAT_YAW_D\0\0\0", 27, 8385, F32, 0),
        row!(b"FLTMODE1\0\0\0\0\0\0\0\0", 40, 0, I8, 0),
        row!(b"FLTMODE2\0\0\0\0\0\0\0\0", 41, 0, I8, 0),
        row!(b"FLTMODE3\0\0\0\0\0\0\0\0", 42, 0, I8, 0),
        row!(b"FLTMODE4\0\0\0\0\0\0\0\0", 43, 0, I8, 0),
        row!(b"FLTMODE5\0\0\0\0\0\0\0\0", 44, 0, I8, 0),
        row!(b"FLTMODE6\0\0\0\0\0\0\0\0", 45, 0, I8, 0),
    ]
}

/// The rows of SERVO1 to SERVO4.
fn servo_rows_1_to_4() -> [Var; 20]
    ensures { result ≡ each_from servo_rows 1 4 }
{
    [
        row!(b"SERVO1_MIN\0\0\0\0\0\0", 30, 65, I16, 1100),
        row!(b"SERVO1_MAX\0\0\0\0\0\0", 30, 129, I16, 1900),
        row!(b"SERVO1_TRIM\0\0\0\0\0", 30, 193, I16, 1500),
        row!(b"SERVO1_REVERSED\0", 30, 257, I8, 0),
        row!(b"SERVO1_FUNCTION\0", 30, 321, I16, 0),
        row!(b"SERVO2_MIN\0\0\0\0\0\0", 30, 66, I16, 1100),
        row!(b"SERVO2_MAX\0\0\0\0\0\0", 30, 130, I16, 1900),
        row!(b"SERVO2_TRIM\0\0\0\0\0", 30, 194, I16, 1500),
        row!(b"SERVO2_REVERSED\0", 30, 258, I8, 0),
        row!(b"SERVO2_FUNCTION\0", 30, 322, I16, 0),
        row!(b"SERVO3_MIN\0\0\0\0\0\0", 30, 67, I16, 1100),
        row!(b"SERVO3_MAX\0\0\0\0\0\0", 30, 131, I16, 1900),
        row!(b"SERVO3_TRIM\0\0\0\0\0", 30, 195, I16, 1500),
        row!(b"SERVO3_REVERSED\0", 30, 259, I8, 0),
        row!(b"SERVO3_FUNCTION\0", 30, 323, I16, 0),
        row!(b"SERVO4_MIN\0\0\0\0\0\0", 30, 68, I16, 1100),
        row!(b"SERVO4_MAX\0\0\0\0\0\0", 30, 132, I16, 1900),
        row!(b"SERVO4_TRIM\0\0\0\0\0", 30, 196, I16, 1500),
        row!(b"SERVO4_REVERSED\0", 30, 260, I8, 0),
        row!(b"SERVO4_FUNCTION\0", 30, 324, I16, 0),
    ]
}

/// The rows of SERVO5 to SERVO8.
fn servo_rows_5_to_8() -> [Var; 20]
    ensures { result ≡ each_from servo_rows 5 4 }
{
    [
        row!(b"SERVO5_MIN\0\0\0\0\0\0", 30, 69, I16, 1100),
        row!(b"SERVO5_MAX\0\0\0\0\0\0", 30, 133, I16, 1900),
        row!(b"SERVO5_TRIM\0\0\0\0\0", 30, 197, I16, 1500),
        row!(b"SERVO5_REVERSED\0", 30, 261, I8, 0),
        row!(b"SERVO5_FUNCTION\0", 30, 325, I16, 0),
        row!(b"SERVO6_MIN\0\0\0\0\0\0", 30, 70, I16, 1100),
        row!(b"SERVO6_MAX\0\0\0\0\0\0", 30, 134, I16, 1900),
        row!(b"SERVO6_TRIM\0\0\0\0\0", 30, 198, I16, 1500),
        row!(b"SERVO6_REVERSED\0", 30, 262, I8, 0),
        row!(b"SERVO6_FUNCTION\0", 30, 326, I16, 0),
        row!(b"SERVO7_MIN\0\0\0\0\0\0", 30, 71, I16, 1100),
        row!(b"SERVO7_MAX\0\0\0\0\0\0", 30, 135, I16, 1900),
        row!(b"SERVO7_TRIM\0\0\0\0\0", 30, 199, I16, 1500),
        row!(b"SERVO7_REVERSED\0", 30, 263, I8, 0),
        row!(b"SERVO7_FUNCTION\0", 30, 327, I16, 0),
        row!(b"SERVO8_MIN\0\0\0\0\0\0", 30, 72, I16, 1100),
        row!(b"SERVO8_MAX\0\0\0\0\0\0", 30, 136, I16, 1900),
        row!(b"SERVO8_TRIM\0\0\0\0\0", 30, 200, I16, 1500),
        row!(b"SERVO8_REVERSED\0", 30, 264, I8, 0),
        row!(b"SERVO8_FUNCTION\0", 30, 328, I16, 0),
    ]
}

/// The rows of SERVO9 to SERVO12.
fn servo_rows_9_to_12() -> [Var; 20]
    ensures { result ≡ each_from servo_rows 9 4 }
{
    [
        row!(b"SERVO9_MIN\0\0\0\0\0\0", 30, 73, I16, 1100),
        row!(b"SERVO9_MAX\0\0\0\0\0\0", 30, 137, I16, 1900),
        row!(b"SERVO9_TRIM\0\0\0\0\0", 30, 201, I16, 1500),
        row!(b"SERVO9_REVERSED\0", 30, 265, I8, 0),
        row!(b"SERVO9_FUNCTION\0", 30, 329, I16, 0),
        row!(b"SERVO10_MIN\0\0\0\0\0", 30, 74, I16, 1100),
        row!(b"SERVO10_MAX\0\0\0\0\0", 30, 138, I16, 1900),
        row!(b"SERVO10_TRIM\0\0\0\0", 30, 202, I16, 1500),
        row!(b"SERVO10_REVERSED", 30, 266, I8, 0),
        row!(b"SERVO10_FUNCTION", 30, 330, I16, 0),
        row!(b"SERVO11_MIN\0\0\0\0\0", 30, 75, I16, 1100),
        row!(b"SERVO11_MAX\0\0\0\0\0", 30, 139, I16, 1900),
        row!(b"SERVO11_TRIM\0\0\0\0", 30, 203, I16, 1500),
        row!(b"SERVO11_REVERSED", 30, 267, I8, 0),
        row!(b"SERVO11_FUNCTION", 30, 331, I16, 0),
        row!(b"SERVO12_MIN\0\0\0\0\0", 30, 76, I16, 1100),
        row!(b"SERVO12_MAX\0\0\0\0\0", 30, 140, I16, 1900),
        row!(b"SERVO12_TRIM\0\0\0\0", 30, 204, I16, 1500),
        row!(b"SERVO12_REVERSED", 30, 268, I8, 0),
        row!(b"SERVO12_FUNCTION", 30, 332, I16, 0),
    ]
}

/// The rows of SERVO13 to SERVO16.
fn servo_rows_13_to_16() -> [Var; 20]
    ensures { result ≡ each_from servo_rows 13 4 }
{
    [
        row!(b"SERVO13_MIN\0\0\0\0\0", 30, 77, I16, 1100),
        row!(b"SERVO13_MAX\0\0\0\0\0", 30, 141, I16, 1900),
        row!(b"SERVO13_TRIM\0\0\0\0", 30, 205, I16, 1500),
        row!(b"SERVO13_REVERSED", 30, 269, I8, 0),
        row!(b"SERVO13_FUNCTION", 30, 333, I16, 0),
        row!(b"SERVO14_MIN\0\0\0\0\0", 30, 78, I16, 1100),
        row!(b"SERVO14_MAX\0\0\0\0\0", 30, 142, I16, 1900),
        row!(b"SERVO14_TRIM\0\0\0\0", 30, 206, I16, 1500),
        row!(b"SERVO14_REVERSED", 30, 270, I8, 0),
        row!(b"SERVO14_FUNCTION", 30, 334, I16, 0),
        row!(b"SERVO15_MIN\0\0\0\0\0", 30, 79, I16, 1100),
        row!(b"SERVO15_MAX\0\0\0\0\0", 30, 143, I16, 1900),
        row!(b"SERVO15_TRIM\0\0\0\0", 30, 207, I16, 1500),
        row!(b"SERVO15_REVERSED", 30, 271, I8, 0),
        row!(b"SERVO15_FUNCTION", 30, 335, I16, 0),
        row!(b"SERVO16_MIN\0\0\0\0\0", 30, 80, I16, 1100),
        row!(b"SERVO16_MAX\0\0\0\0\0", 30, 144, I16, 1900),
        row!(b"SERVO16_TRIM\0\0\0\0", 30, 208, I16, 1500),
        row!(b"SERVO16_REVERSED", 30, 272, I8, 0),
        row!(b"SERVO16_FUNCTION", 30, 336, I16, 0),
    ]
}

/// The rows of RC1 to RC4.
fn rc_rows_1_to_4() -> [Var; 24]
    ensures { result ≡ each_from rc_rows 1 4 }
{
    [
        row!(b"RC1_MIN\0\0\0\0\0\0\0\0\0", 31, 4033, I16, 1100),
        row!(b"RC1_TRIM\0\0\0\0\0\0\0\0", 31, 65, I16, 1500),
        row!(b"RC1_MAX\0\0\0\0\0\0\0\0\0", 31, 129, I16, 1900),
        row!(b"RC1_REVERSED\0\0\0\0", 31, 193, I8, 0),
        row!(b"RC1_DZ\0\0\0\0\0\0\0\0\0\0", 31, 257, I16, 0),
        row!(b"RC1_OPTION\0\0\0\0\0\0", 31, 321, I16, 0),
        row!(b"RC2_MIN\0\0\0\0\0\0\0\0\0", 31, 4034, I16, 1100),
        row!(b"RC2_TRIM\0\0\0\0\0\0\0\0", 31, 66, I16, 1500),
        row!(b"RC2_MAX\0\0\0\0\0\0\0\0\0", 31, 130, I16, 1900),
        row!(b"RC2_REVERSED\0\0\0\0", 31, 194, I8, 0),
        row!(b"RC2_DZ\0\0\0\0\0\0\0\0\0\0", 31, 258, I16, 0),
        row!(b"RC2_OPTION\0\0\0\0\0\0", 31, 322, I16, 0),
        row!(b"RC3_MIN\0\0\0\0\0\0\0\0\0", 31, 4035, I16, 1100),
        row!(b"RC3_TRIM\0\0\0\0\0\0\0\0", 31, 67, I16, 1500),
        row!(b"RC3_MAX\0\0\0\0\0\0\0\0\0", 31, 131, I16, 1900),
        row!(b"RC3_REVERSED\0\0\0\0", 31, 195, I8, 0),
        row!(b"RC3_DZ\0\0\0\0\0\0\0\0\0\0", 31, 259, I16, 0),
        row!(b"RC3_OPTION\0\0\0\0\0\0", 31, 323, I16, 0),
        row!(b"RC4_MIN\0\0\0\0\0\0\0\0\0", 31, 4036, I16, 1100),
        row!(b"RC4_TRIM\0\0\0\0\0\0\0\0", 31, 68, I16, 1500),
        row!(b"RC4_MAX\0\0\0\0\0\0\0\0\0", 31, 132, I16, 1900),
        row!(b"RC4_REVERSED\0\0\0\0", 31, 196, I8, 0),
        row!(b"RC4_DZ\0\0\0\0\0\0\0\0\0\0", 31, 260, I16, 0),
        row!(b"RC4_OPTION\0\0\0\0\0\0", 31, 324, I16, 0),
    ]
}

/// The rows of RC5 to RC8.
fn rc_rows_5_to_8() -> [Var; 24]
    ensures { result ≡ each_from rc_rows 5 4 }
{
    [
        row!(b"RC5_MIN\0\0\0\0\0\0\0\0\0", 31, 4037, I16, 1100),
        row!(b"RC5_TRIM\0\0\0\0\0\0\0\0", 31, 69, I16, 1500),
        row!(b"RC5_MAX\0\0\0\0\0\0\0\0\0", 31, 133, I16, 1900),
        row!(b"RC5_REVERSED\0\0\0\0", 31, 197, I8, 0),
        row!(b"RC5_DZ\0\0\0\0\0\0\0\0\0\0", 31, 261, I16, 0),
        row!(b"RC5_OPTION\0\0\0\0\0\0", 31, 325, I16, 0),
        row!(b"RC6_MIN\0\0\0\0\0\0\0\0\0", 31, 4038, I16, 1100),
        row!(b"RC6_TRIM\0\0\0\0\0\0\0\0", 31, 70, I16, 1500),
        row!(b"RC6_MAX\0\0\0\0\0\0\0\0\0", 31, 134, I16, 1900),
        row!(b"RC6_REVERSED\0\0\0\0", 31, 198, I8, 0),
        row!(b"RC6_DZ\0\0\0\0\0\0\0\0\0\0", 31, 262, I16, 0),
        row!(b"RC6_OPTION\0\0\0\0\0\0", 31, 326, I16, 0),
        row!(b"RC7_MIN\0\0\0\0\0\0\0\0\0", 31, 4039, I16, 1100),
        row!(b"RC7_TRIM\0\0\0\0\0\0\0\0", 31, 71, I16, 1500),
        row!(b"RC7_MAX\0\0\0\0\0\0\0\0\0", 31, 135, I16, 1900),
        row!(b"RC7_REVERSED\0\0\0\0", 31, 199, I8, 0),
        row!(b"RC7_DZ\0\0\0\0\0\0\0\0\0\0", 31, 263, I16, 0),
        row!(b"RC7_OPTION\0\0\0\0\0\0", 31, 327, I16, 0),
        row!(b"RC8_MIN\0\0\0\0\0\0\0\0\0", 31, 4040, I16, 1100),
        row!(b"RC8_TRIM\0\0\0\0\0\0\0\0", 31, 72, I16, 1500),
        row!(b"RC8_MAX\0\0\0\0\0\0\0\0\0", 31, 136, I16, 1900),
        row!(b"RC8_REVERSED\0\0\0\0", 31, 200, I8, 0),
        row!(b"RC8_DZ\0\0\0\0\0\0\0\0\0\0", 31, 264, I16, 0),
        row!(b"RC8_OPTION\0\0\0\0\0\0", 31, 328, I16, 0),
    ]
}

/// The rows of RC9 to RC12.
fn rc_rows_9_to_12() -> [Var; 24]
    ensures { result ≡ each_from rc_rows 9 4 }
{
    [
        row!(b"RC9_MIN\0\0\0\0\0\0\0\0\0", 31, 4041, I16, 1100),
        row!(b"RC9_TRIM\0\0\0\0\0\0\0\0", 31, 73, I16, 1500),
        row!(b"RC9_MAX\0\0\0\0\0\0\0\0\0", 31, 137, I16, 1900),
        row!(b"RC9_REVERSED\0\0\0\0", 31, 201, I8, 0),
        row!(b"RC9_DZ\0\0\0\0\0\0\0\0\0\0", 31, 265, I16, 0),
        row!(b"RC9_OPTION\0\0\0\0\0\0", 31, 329, I16, 0),
        row!(b"RC10_MIN\0\0\0\0\0\0\0\0", 31, 4042, I16, 1100),
        row!(b"RC10_TRIM\0\0\0\0\0\0\0", 31, 74, I16, 1500),
        row!(b"RC10_MAX\0\0\0\0\0\0\0\0", 31, 138, I16, 1900),
        row!(b"RC10_REVERSED\0\0\0", 31, 202, I8, 0),
        row!(b"RC10_DZ\0\0\0\0\0\0\0\0\0", 31, 266, I16, 0),
        row!(b"RC10_OPTION\0\0\0\0\0", 31, 330, I16, 0),
        row!(b"RC11_MIN\0\0\0\0\0\0\0\0", 31, 4043, I16, 1100),
        row!(b"RC11_TRIM\0\0\0\0\0\0\0", 31, 75, I16, 1500),
        row!(b"RC11_MAX\0\0\0\0\0\0\0\0", 31, 139, I16, 1900),
        row!(b"RC11_REVERSED\0\0\0", 31, 203, I8, 0),
        row!(b"RC11_DZ\0\0\0\0\0\0\0\0\0", 31, 267, I16, 0),
        row!(b"RC11_OPTION\0\0\0\0\0", 31, 331, I16, 0),
        row!(b"RC12_MIN\0\0\0\0\0\0\0\0", 31, 4044, I16, 1100),
        row!(b"RC12_TRIM\0\0\0\0\0\0\0", 31, 76, I16, 1500),
        row!(b"RC12_MAX\0\0\0\0\0\0\0\0", 31, 140, I16, 1900),
        row!(b"RC12_REVERSED\0\0\0", 31, 204, I8, 0),
        row!(b"RC12_DZ\0\0\0\0\0\0\0\0\0", 31, 268, I16, 0),
        row!(b"RC12_OPTION\0\0\0\0\0", 31, 332, I16, 0),
    ]
}

/// The rows of RC13 to RC16.
fn rc_rows_13_to_16() -> [Var; 24]
    ensures { result ≡ each_from rc_rows 13 4 }
{
    [
        row!(b"RC13_MIN\0\0\0\0\0\0\0\0", 31, 4045, I16, 1100),
        row!(b"RC13_TRIM\0\0\0\0\0\0\0", 31, 77, I16, 1500),
        row!(b"RC13_MAX\0\0\0\0\0\0\0\0", 31, 141, I16, 1900),
        row!(b"RC13_REVERSED\0\0\0", 31, 205, I8, 0),
        row!(b"RC13_DZ\0\0\0\0\0\0\0\0\0", 31, 269, I16, 0),
        row!(b"RC13_OPTION\0\0\0\0\0", 31, 333, I16, 0),
        row!(b"RC14_MIN\0\0\0\0\0\0\0\0", 31, 4046, I16, 1100),
        row!(b"RC14_TRIM\0\0\0\0\0\0\0", 31, 78, I16, 1500),
        row!(b"RC14_MAX\0\0\0\0\0\0\0\0", 31, 142, I16, 1900),
        row!(b"RC14_REVERSED\0\0\0", 31, 206, I8, 0),
        row!(b"RC14_DZ\0\0\0\0\0\0\0\0\0", 31, 270, I16, 0),
        row!(b"RC14_OPTION\0\0\0\0\0", 31, 334, I16, 0),
        row!(b"RC15_MIN\0\0\0\0\0\0\0\0", 31, 4047, I16, 1100),
        row!(b"RC15_TRIM\0\0\0\0\0\0\0", 31, 79, I16, 1500),
        row!(b"RC15_MAX\0\0\0\0\0\0\0\0", 31, 143, I16, 1900),
        row!(b"RC15_REVERSED\0\0\0", 31, 207, I8, 0),
        row!(b"RC15_DZ\0\0\0\0\0\0\0\0\0", 31, 271, I16, 0),
        row!(b"RC15_OPTION\0\0\0\0\0", 31, 335, I16, 0),
        row!(b"RC16_MIN\0\0\0\0\0\0\0\0", 31, 4048, I16, 1100),
        row!(b"RC16_TRIM\0\0\0\0\0\0\0", 31, 80, I16, 1500),
        row!(b"RC16_MAX\0\0\0\0\0\0\0\0", 31, 144, I16, 1900),
        row!(b"RC16_REVERSED\0\0\0", 31, 208, I8, 0),
        row!(b"RC16_DZ\0\0\0\0\0\0\0\0\0", 31, 272, I16, 0),
        row!(b"RC16_OPTION\0\0\0\0\0", 31, 336, I16, 0),
    ]
}

/// Puts `part` into `rows` from `at` on.
fn put(rows: &mut [Var], at: usize, part: &[Var])
    requires { at + length part.now ≤ length rows.old }
    ensures { take (at + length part.now) rows.new ≡ take at rows.old ++ part.now }
{
    rows[at..at + part.len()].copy_from_slice(part);
}

/// How many parameters the vehicle has.
pub const PARAMETERS: usize = 240;

/// The vehicle has so many parameters.
pub fn sizes()
    ensures { PARAMETERS ≡ 240 }
{}

/// All rows.
pub(crate) fn vehicle_rows() -> [Var; PARAMETERS]
    ensures { result ≡ vehicle_rows }
{
    let blank = row!(b"\0\0\0\0\0\0\0\0\0\0\0\0\0\0\0\0", 0, 0, I8, 0);
    let mut rows = [blank; PARAMETERS];
    put(&mut rows, 0, &basic_rows());
    put(&mut rows, 21, &sensor_rows());
    put(&mut rows, 44, &flight_rows());
    put(&mut rows, 64, &servo_rows_1_to_4());
    put(&mut rows, 84, &servo_rows_5_to_8());
    put(&mut rows, 104, &servo_rows_9_to_12());
    put(&mut rows, 124, &servo_rows_13_to_16());
    put(&mut rows, 144, &rc_rows_1_to_4());
    put(&mut rows, 168, &rc_rows_5_to_8());
    put(&mut rows, 192, &rc_rows_9_to_12());
    put(&mut rows, 216, &rc_rows_13_to_16());
    rows
}
