// The data of a line.
use fd_system::Items;

/// The entries of a square matrix, row by row.
pub type Entries = Items<i128>;

/// The series impedance of a line per unit of length, in whole 10^-9 ohm: the positive and the zero sequence (OpenDSS manual,
/// properties R1, X1, R0, X0), or the whole matrices (properties RMatrix, XMatrix).
#[derive(Drop, Debug)]
pub enum LineForm {
    Sequence {
        r1: i128,
        x1: i128,
        r0: i128,
        x0: i128,
    },
    Matrix {
        r: Entries,
        x: Entries,
    },
}

/// The shunt capacitance of a line per unit of length, in whole 10^-9 nanofarad: the positive and the zero sequence (OpenDSS
/// manual, properties C1, C0), or the whole matrix (property CMatrix). Without charging it is 0.
#[derive(Drop, Debug)]
pub enum ChargeForm {
    Sequence { c1: i128, c0: i128 },
    Matrix { c: Entries },
}

/// A line (OpenDSS manual, Line and LineCode): the number of its phases, its impedance and its capacitance per unit of the
/// code's length, its length in whole 10^-9 units of its own, both units of length in whole 0.1 mm and equal where the length
/// counts as it stands, and the frequency in hertz.
#[derive(Drop, Debug)]
pub struct LineData {
    pub phases: u32,
    pub form: LineForm,
    pub charge: ChargeForm,
    pub length: i128,
    pub line_unit: u32,
    pub code_unit: u32,
    pub hertz: u32,
}
