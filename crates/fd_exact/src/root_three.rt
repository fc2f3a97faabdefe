// Root three, beside 1.

/// 1, in whole 10^-15.
pub const FEMTO_PER_ONE: i128 = 1_000_000_000_000_000;

/// Root three in whole 10^-15, to the nearest: every root three of this program is these decimals.
pub const ROOT_THREE: u128 = 1_732_050_807_568_877;
