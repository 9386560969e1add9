//! The journals that are changed.
/// The lines of a journal of kind assign: a seller of a unit at 10, and a buyer of it at 20 to 30.
pub const ASSIGN: [&str; 11] = [
    "ice 1 assign",
    "settings 50 0 100 1 5 200",
    "good A",
    "bidder s 1",
    "node sell 0 1 -10 -10",
    "bidder b 0",
    "node buy 0 1 20 30",
    "assign",
    "set 1",
    "set 1",
    "end assign",
];

/// The regret of the same exchange.
pub const REGRET: [&str; 17] = [
    "ice 1 regret",
    "settings 50 0 100 1 5 200",
    "good A",
    "bidder s 1",
    "node sell 0 1 -10 -10",
    "bidder b 0",
    "node buy 0 1 20 30",
    "final 10",
    "set 1",
    "set 1",
    "leaf 640",
    "rival 10",
    "set 1",
    "set 1",
    "leaf 640",
    "regret 0",
    "end regret",
];

/// The same in version 2.
pub const NEAR: [&str; 17] = [
    "ice 2 regret",
    "settings 50 0 100 1 5 200",
    "good A",
    "bidder s 1",
    "node sell 0 1 -10 -10",
    "bidder b 0",
    "node buy 0 1 20 30",
    "final 10",
    "set 1",
    "set 1",
    "near 1 0 640",
    "rival 10",
    "set 1",
    "set 1",
    "near 1 0 640",
    "regret 0",
    "end regret",
];

/// A market in which the final sets are the best at lower values and have a regret.
pub const RIVALS: [&str; 21] = [
    "ice 1 regret",
    "settings 50 0 100 1 5 200",
    "exact A",
    "bidder s 1",
    "node sell 0 1 -10 -10",
    "bidder a 0",
    "node buy 0 1 20 30",
    "bidder b 0",
    "node buy 0 1 19 40",
    "final 10",
    "set 1",
    "set 1",
    "set 0",
    "leaf 1280",
    "rival 30",
    "set 1",
    "set 0",
    "set 1",
    "leaf 1280",
    "regret 20",
    "end regret",
];
