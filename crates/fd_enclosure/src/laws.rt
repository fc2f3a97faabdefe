// The laws of certificates.
ghost use Rattle.fd_enclosure.specs.Encloses.{CertificateLaw, ChangeLaw, EnclosureLaw, LinearLaw};

/// A law: between a centre and a state in a box of a part of its weights each row changes as the Jacobian at the centre says, up to the
/// radii of the slopes in this box. Does nothing.
pub fn change_law()
    ensures { ChangeLaw }
{
    fd_slope::change_law();
}

/// A law: the centre of a sound claim meets the mismatches, and every state in the box that meets them is within the radii. Does nothing.
pub fn enclosure_law()
    ensures { EnclosureLaw }
{
    change_law();
    fd_factors::enclosure_law();
}

/// A law: the certificate of a point is sound. Does nothing.
pub fn certificate_law()
    ensures { CertificateLaw }
{}

/// A law: where each part load is of constant impedance every state that meets the mismatches of a sound claim, in its box or not, is
/// within the radii. Does nothing.
pub fn linear_law()
    ensures { LinearLaw }
{
    fd_factors::enclosure_law();
}
