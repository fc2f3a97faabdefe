// The laws of samples, and of the controls of a circuit.
ghost use Rattle.fd_sample.specs.Circuits.{ProbesLaw};
ghost use Rattle.fd_sample.specs.Decided.{SampleLaw};

/// A law: what a sample over a ball decides, its control wants at every state of the ball. Does nothing.
pub fn sample_law()
    ensures { SampleLaw }
{}

/// A law: the controls of a circuit that passed the tests of Solve are at places among its unknowns and have its
/// devices, their delays and their taps are in range, and no two move one winding or switch one bank. Does nothing.
pub fn probes_law()
    ensures { ProbesLaw }
{}
