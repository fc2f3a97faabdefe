// What the tests assert.
ghost use Rattle.std.specs.Prelude.{IsTrue};

use std::fmt::Debug;
use std::process::Abort;

/// Asserts that what was found is what is due.
pub(crate) fn same<T: PartialEq + Debug + Drop>(rt: &impl Abort, found: T, due: T) {
    assert_eq!(rt; found, due);
}

/// Asserts what is to hold.
pub fn holds(rt: &impl Abort, is_so: bool)
    ensures { IsTrue is_so }
{
    assert!(rt; is_so);
}
