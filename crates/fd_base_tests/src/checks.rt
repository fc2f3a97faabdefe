// What the tests assert.
ghost use Rattle.std.specs.Prelude.{IsTrue};

use std::fmt::Debug;
use std::process::Abort;

/// Asserts that what was found is what is due.
pub(crate) fn same<T: PartialEq + Debug + Drop>(rt: &impl Abort, found: T, due: T) {
    assert_eq!(rt; found, due);
}

/// Asserts that what was found at a text is what is due.
pub(crate) fn same_at<T: PartialEq + Debug + Drop>(rt: &impl Abort, text: &str, found: T, due: T) {
    assert_eq!(rt; found, due, "at {text}");
}

/// Asserts what is to hold.
pub fn holds(rt: &impl Abort, is_so: bool)
    ensures { IsTrue is_so }
{
    assert!(rt; is_so);
}
