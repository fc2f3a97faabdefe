// What it says of a certificate that it is accepted.
ghost use Rattle.fd_checking.specs.Checks.{CheckedLaw};

use fd_check::accepted_law;

/// A law: where `check` accepts a certificate, its blocks are those of the rounds of the script's Solves; what each
/// claims is sound in the network of its round, and its acts are those of the queue machine. Does nothing.
pub fn checked_law()
    ensures { CheckedLaw }
{
    accepted_law();
}
