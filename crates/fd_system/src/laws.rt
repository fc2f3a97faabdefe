// The laws of systems.
ghost use Rattle.fd_system.specs.Laws.{LoadLaw, ResidualLaw, ComplexLaw};

/// The contributions of a complex number add up to its product with the unknown of its column.
pub fn complex_law()
    ensures { ComplexLaw }
{}

/// Part loads have the same rows as contributions and parts of the system as in their equations.
pub fn load_law()
    ensures { LoadLaw }
{}

/// The interval residual of a row holds its residual.
pub fn residual_law()
    ensures { ResidualLaw }
{}
