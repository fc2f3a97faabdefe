// A round of a settle.
ghost use Rattle.std.specs.Prelude.{◌≡◌, IfOk};
ghost use Rattle.fd_settle.specs.Numbers.{AreActNumbers};

use fd_cert::Certified;
use std::alloc::{AllocError, Global};
use std::rc::Rc;

/// An act of a control: a step of a tap changer or a bank.
#[derive(Clone, Copy, PartialEq, Eq, Debug)]
pub struct Act {
    /// When it acts, in milliseconds.
    pub time: u64,
    /// The control's number among the circuit's controls, in script order from 0.
    pub control: u32,
    /// By how many steps, with their sign: up is positive. A bank closes by 1 and opens by -1.
    pub steps: i32,
    /// The winding's tap behind it, in units of 10^-5; of a bank 1 where it is then closed and 0 where it is open.
    pub after: u32,
    ghost numbers: { AreActNumbers time control steps },
}

/// A solve of a settle: the certified state, which a solver may keep too, and the acts behind it in order.
#[derive(Drop)]
pub struct Round {
    pub certified: Rc<Certified>,
    pub acts: Vec<Act>,
}

/// A certified state that several can hold.
///
/// # Errors
/// `AllocError` where the memory for it is refused.
pub fn shared(alloc: Global, certified: Certified) -> Result<Rc<Certified>, AllocError>
    ensures { IfOk result (λ m. m.value ≡ certified) }
{
    match Rc::new(alloc, certified) {
        Ok(certified) => Ok(certified),
        Err(_) => Err(AllocError),
    }
}
