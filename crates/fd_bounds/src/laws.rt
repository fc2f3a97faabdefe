// What factors of equations are.
ghost use Rattle.fd_bounds.specs.Factors.{InOrderLaw};

/// A law: factors of equations are rows in order, with pivots that aren't 0, so that `bound_rows` takes what `factors`
/// answers. Does nothing.
pub fn in_order_law()
    ensures { InOrderLaw }
{}
