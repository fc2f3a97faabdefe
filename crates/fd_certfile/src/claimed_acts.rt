// The acts that a block claims, beside those that were made.
ghost use Rattle.std.specs.Prelude.{◌≡◌, ◌∷◌, [], IfNone, IfSome, map};
ghost use Rattle.std.specs.Cmp.Lexicographic.{pointwise};
ghost use Rattle.fd_certfile.specs.Blocks.{acts_at};
ghost use Rattle.fd_certfile.specs.Lines.{lines_of};
ghost use Rattle.fd_certfile.specs.Rounds.{act_of};
ghost use Rattle.fd_certfile.specs.Rules.{same_act};
ghost use Rattle.fd_certfile.specs.Views.{act};

use crate::block::{ClaimedAct, act_of};
use crate::line::read_line;
use fd_lines::cut;
use fd_settle::Act;

// The act of the next line, and the bytes behind it.
fn next_act(bytes: &[u8]) -> Option<(ClaimedAct, &[u8])>
    ensures none { IfNone result ((acts_at (lines_of bytes.now)).0 ≡ []) }
    ensures some { IfSome result (λ p. (acts_at (lines_of bytes.now)).0 ≡ act p.0 ∷ (acts_at (lines_of p.1.now)).0) }
{
    match cut(bytes, b'\n') {
        Some((text, more)) => match act_of(&read_line(text)) {
            Some(act) => Some((act, more)),
            None => None,
        },
        None => None,
    }
}

fn is_act(made: &Act, claimed: &ClaimedAct) -> bool
    ensures { result ≡ same_act (act_of made.now) (act claimed.now) }
{
    i128::from(made.time) == claimed.time
        && i128::from(made.control) == claimed.control
        && i128::from(made.steps) == claimed.steps
}

/// Whether the acts up to the first line that isn't one have the times, controls and steps of these, in order.
pub(crate) fn acts_are(bytes: &[u8], acts: &[Act]) -> bool
    ensures { result ≡ pointwise same_act (map act_of acts.now) (acts_at (lines_of bytes.now)).0 }
{
    let mut rest = bytes;
    for made in acts {
        match next_act(rest) {
            Some((claimed, more)) => {
                if !is_act(made, &claimed) {
                    return false;
                }
                rest = more;
            }
            None => return false,
        }
    }
    match next_act(rest) {
        Some(_) => false,
        None => true,
    }
}
