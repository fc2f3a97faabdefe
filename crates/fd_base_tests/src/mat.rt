// Square matrices.
use crate::checks::same;
use fd_inverse::{Dense, Held, SparseRows};
use std::test::Fail;

#[test]
fn keeps_what_is_set(rt: HostRuntime) -> Result<(), Fail> {
    let mut a = Dense::zero(rt.alloc(), 3)?;
    same(&rt, a.size(), 3);
    a.set(1, 2, -7);
    same(&rt, (a.get(1, 2), a.get(2, 1)), (-7, 0));
    same(&rt, a.row(1), &[0, 0, -7]);
    let columns = (a.first_column_past(6), a.first_column_past(7));
    same(&rt, columns, (Some(2), None));
    Ok(())
}

#[test]
fn takes_rows_one_after_another(rt: HostRuntime) -> Result<(), Fail> {
    let a = Dense::from_cells(2, vec![in rt.alloc(); 1, 2, 3, 4]?);
    same(&rt, a.row(0), &[1, 2]);
    same(&rt, a.row(1), &[3, 4]);
    Ok(())
}

#[test]
fn holds_what_is_not_zero(rt: HostRuntime) -> Result<(), Fail> {
    let mut a = SparseRows::zero(rt.alloc(), 3);
    a.set(1, 2, -7)?;
    a.set(0, 1, 4)?;
    same(&rt, (a.get(1, 2), a.get(2, 1)), (-7, 0));
    let first = Held { place: 1, value: 4 };
    let second = Held {
        place: 5,
        value: -7,
    };
    same(&rt, a.held(), &[first, second]);
    let columns = (a.first_column_past(6), a.first_column_past(3));
    same(&rt, columns, (Some(2), Some(1)));
    a.set(0, 1, 0)?;
    same(&rt, a.held(), &[second]);
    Ok(())
}

#[test]
fn tells_matrices_apart(rt: HostRuntime) -> Result<(), Fail> {
    let mut a = SparseRows::zero(rt.alloc(), 2);
    let mut b = SparseRows::zero(rt.alloc(), 2);
    a.set(1, 0, 5)?;
    same(&rt, a.same(&b), false);
    b.set(1, 0, 5)?;
    b.set(1, 1, 0)?;
    same(&rt, a.same(&b), true);
    same(&rt, a.same(&SparseRows::zero(rt.alloc(), 3)), false);
    Ok(())
}
