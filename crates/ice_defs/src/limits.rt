//! Limits that code tests. The definitions and the clauses say the numbers, so that who reads them
//! sees them; `docs/json.md` and `docs/formats.md` have all limits.

/// The most goods of an exchange.
pub const MOST_GOODS: u8 = 32;

/// The most bidders of an exchange.
pub const MOST_BIDDERS: u8 = 40;

/// The most nodes of a bidder's tree.
pub const MOST_NODES: u16 = 200;

/// The most nodes of all trees of an exchange together.
pub const MOST_NODES_OF_ALL: u16 = 2000;

/// The greatest size of a bound of a node's value.
pub const GREATEST_VALUE: i64 = 1_000_000_000;

/// The greatest denominator of prices.
pub const GREATEST_DENOMINATOR: i64 = 4_294_967_296;

/// The greatest numerator of prices: 2^62.
pub const GREATEST_NUMERATOR: i128 = 4_611_686_018_427_387_904;
