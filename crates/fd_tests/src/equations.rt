// Rows that are made of given contributions.
ghost use Rattle.std.specs.Prelude.{◌≡◌, [], IfOk};

use crate::checks::same;
use dss_script::Term;
use fd_inject::Rows;
use std::alloc::{AllocError, Global};
use std::test::Fail;

// Two contributions stand at one place, and none is a whole number of 2^-40.
fn sample(alloc: Global) -> Result<Rows, AllocError>
    ensures size { IfOk result (λ c. c.size ≡ 2) }
    ensures loads { IfOk result (λ c. c.loads ≡ []) }
{
    let (num, den) = (-2, 7);
    let terms = vec![in alloc;
        Term {
            row: 0,
            col: 0,
            num: 1,
            den: 3
        },
        Term {
            row: 0,
            col: 0,
            num: 1,
            den: 3
        },
        Term {
            row: 0,
            col: 1,
            num,
            den
        },
    ]?;
    Rows::of(alloc, 2, terms, Vec::new(alloc))
}

// Twice a third is 733,007,751,850 units of 2^-40, each third rounded by itself.
#[test]
fn rows_of_contributions(rt: HostRuntime) -> Result<(), Fail> {
    let all = sample(rt.alloc())?;
    same(&rt, (all.size(), all.terms().len()), (2, 3));
    same(&rt, all.entry(0, 0), 733_007_751_850);
    same(&rt, (all.row(0).len(), all.row(1).len()), (2, 0));
    Ok(())
}
