// How far two states may be apart, as derived rows say it: the laws of a certificate without an inverse. All of it is
// definitions in whole numbers and laws; it has no code of its own, and its calls do nothing.
//
// A derived row is made of multiples of the rows of a Jacobian, less multiples of other derived rows; beside the rows
// stand a height for each and a bound for each unknown. Where the heights stand above their rows, and each unknown has
// a row that bounds it, whatever meets the equations is within the bounds (`factor_law`), in any order of the rows, with
// no triangles, no inverse, no norm and no division. That is the law of comparison twice (`comparison_law`): what
// stands above rows of naturals is above each list of sizes that these rows hold down. For equations whose rows change
// as the Jacobian says, up to radii, every state of any denominator in a box that meets the mismatches is within the
// bounds of the centre (`enclosure_law`).
//
// Multiples, coefficients, their radii and what a row leaves are in units of 1 / s, with s = 2^40 in `enclosure_law`;
// bounds are in units of 1 / v of a whole microvolt or microampere, with any v, and heights in units of 1 / (s v).
// Equations and unknowns are as many, n, and are numbered alike; derived rows are any number m. In `specs/`:
// `Comparison`, `Factors` (derived rows, heights and bounds) and `Enclosure` (states). The lemmas in
// `proofs/CallerLemmas.antt` are for a checker of such rows. No word of the command line uses these laws yet.
#![tactic(auto)]

ghost use Rattle.fd_factors.specs.Comparison.{ComparisonLaw};
ghost use Rattle.fd_factors.specs.Enclosure.{EnclosureLaw};
ghost use Rattle.fd_factors.specs.Factors.{FactorLaw};

/// A law: numbers that stand above rows of naturals are above each list of sizes, over any denominator, that these rows
/// hold down. Does nothing.
pub fn comparison_law()
    ensures { ComparisonLaw }
{}

/// A law: where heights stand above derived rows and each unknown has a row that bounds it, whatever meets the equations
/// is within the bounds. Does nothing.
pub fn factor_law()
    ensures { FactorLaw }
{}

/// A law: such rows enclose, around a centre that meets the mismatches, every state of any denominator in the box that
/// meets them. Does nothing.
pub fn enclosure_law()
    ensures { EnclosureLaw }
{}
