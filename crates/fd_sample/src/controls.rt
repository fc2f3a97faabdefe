// The sample of a control over a ball.
ghost use Rattle.std.specs.Prelude.{◌≡◌, ◌<◌, false, get_or, length, All};
ghost use Rattle.fd_network.specs.fd_xfmr.Leakage.{AreTaps};
ghost use Rattle.fd_regctl.specs.fd_queue.Controls.{pair_at};
ghost use Rattle.fd_sample.specs.Balls.{IsBall};
ghost use Rattle.fd_sample.specs.Decided.{sample_of, sample_over};
ghost use Rattle.fd_sample.specs.Probes.{HasDevice, IsOfEachState, IsProbe, IsSampleOf, TellsChange, interval_over, positions_in};

use crate::bank_sample::bank_verdict;
use crate::probe::Probe;
use crate::sample::regulator_verdict;
use fd_network::Positions;
use fd_regctl::{TapPair, Verdict};

/// The verdict of a control over the ball of these centres and radii, one of each for every unknown, in whole
/// microvolts and microamperes and at most 2^40, where taps and banks stand at these positions. It is undecided exactly
/// where the least and the greatest value of the sample's interval want different things, or the interval is ALL; a
/// decided one is what the control wants at every state of the ball. Takes no memory.
pub fn verdict(probe: &Probe, at: &Positions, centre: &[i128], radii: &[u128]) -> Verdict
    requires probe { IsProbe (length centre.now) probe.now }
    requires device { HasDevice (positions_in at.now) probe.now }
    requires taps { All AreTaps at.now.taps }
    requires ball { IsBall centre.now radii.now }
    ensures sample { IsSampleOf probe.now (positions_in at.now) (interval_over probe.now (positions_in at.now) centre.now radii.now) result }
    ensures edge { TellsChange probe.now (positions_in at.now) (interval_over probe.now (positions_in at.now) centre.now radii.now) result }
    ensures verdict { sample_of result ≡ sample_over probe.now (positions_in at.now) centre.now radii.now }
    ensures every_state { IsOfEachState probe.now (positions_in at.now) centre.now radii.now result }
{
    match probe {
        Probe::Regulator(control) => {
            let taps = taps_of(at, control.transformer);
            regulator_verdict(control, taps, centre, radii)
        }
        Probe::Bank(control) => {
            let closed = is_closed(at, control.bank);
            bank_verdict(control, closed, centre, radii)
        }
    }
}

// The taps of a transformer.
fn taps_of(at: &Positions, transformer: u32) -> TapPair
    requires inside { transformer < length at.now.taps }
    requires taps { All AreTaps at.now.taps }
    ensures taps { result ≡ pair_at (positions_in at.now) transformer }
    ensures within { AreTaps result }
{
    at.taps.as_slice()[transformer as usize]
}

// Whether a bank is closed.
fn is_closed(at: &Positions, bank: u32) -> bool
    requires inside { bank < length at.now.closed }
    ensures { result ≡ get_or at.now.closed bank false }
{
    at.closed.as_slice()[bank as usize]
}
