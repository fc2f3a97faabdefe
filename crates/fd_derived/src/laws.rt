// What an accepted claim says.
ghost use Rattle.fd_derived.specs.Accepted.{AcceptedLaw};

/// A law: where a claim is accepted for equations that a state's rows follow, every state of any denominator in the box
/// that meets the mismatches is within the bounds of a centre that meets them. Does nothing.
pub fn accepted_law()
    ensures { AcceptedLaw }
{
    fd_factors::enclosure_law();
}
