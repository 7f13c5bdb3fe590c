//! Why a derivation fails, as `Reject` has it.

/// A reference to nothing, or a column that the model does not have.
pub const BAD_REF: u8 = 1;

/// A multiplier below 0, a divisor of the sum below 1, or another sum than is claimed.
pub const BAD_SUM: u8 = 2;

/// A number reaches 2^127.
pub const WIDE: u8 = 3;

/// A column that is not integer.
pub const NOT_INTEGER: u8 = 4;

/// No divisor of each coefficient.
pub const BAD_DIVISOR: u8 = 5;

/// A branch that does not end in the claim of its split.
pub const BRANCH_END: u8 = 6;

/// No knapsack within the limits.
pub const KNAPSACK_FORM: u8 = 7;

/// A knapsack of a greater value.
pub const KNAPSACK_VALUE: u8 = 8;

/// More than 64 splits inside each other.
pub const TOO_DEEP: u8 = 9;

/// Another claim.
pub const OTHER_CLAIM: u8 = 10;
