// Numbers of a script, and lists of them, which contracts see as lists.
use fd_arith::Items;

/// The units of a script number in one.
pub const ONE: i128 = 1_000_000_000;

/// Numbers of a script in order, in whole 10^-9.
pub type Numbers = Items<i128>;

/// Node numbers of a bus in order, each from 0 to 9, 0 being ground.
pub type Nodes = Items<u8>;
