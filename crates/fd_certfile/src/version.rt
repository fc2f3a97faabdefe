// The versions of certificates.
ghost use Rattle.std.specs.Prelude.{◌≡◌, ◌∷◌, []};
ghost use Rattle.fd_certfile.specs.Certificates.{version_in};
ghost use Rattle.fd_certfile.specs.Views.{view};

use crate::line::Line;

/// The form in which a certificate has the rows of its inverses. In all else its versions are alike.
#[derive(Clone, Copy, Debug, Drop)]
pub enum Version {
    /// Version 1: each entry of a row.
    Whole,
    /// Version 2: how many entries of a row aren't 0, and each of these behind its place.
    Sparse,
}

/// The version that a first line names.
pub(crate) fn version_named(line: &Line<'_>) -> Option<Version>
    ensures { result ≡ version_in (view line.now ∷ []) }
{
    match line {
        Line::Header(1) => Some(Version::Whole),
        Line::Header(2) => Some(Version::Sparse),
        _ => None,
    }
}
