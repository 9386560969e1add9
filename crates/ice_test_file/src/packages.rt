//! Flat bids: what trades are worth in their trees, by all sets of the trees' nodes.
use ice_tree::{Bounds, NodeSet, Tree, Units};
use ice_xor::{read_flat, translate};
use std::alloc::Global;
use std::test::Fail;

/// One package of an A at 10, and one of an A and a B at 15.
const PACKAGES: &str =
    r#"{"lo":10,"hi":10,"units":{"A":1}},{"lo":15,"hi":15,"units":{"A":1,"B":1}}"#;

/// The member of the packages, the units of A and B that the bidder gets, and what they are worth.
const WORTHS: [(&str, [i64; 2], Option<i64>); 8] = [
    ("xor", [1, 1], Some(15)),
    ("xor", [2, 1], Some(15)),
    ("xor", [1, 0], Some(10)),
    ("xor", [0, 1], Some(0)),
    ("or", [1, 1], Some(15)),
    ("or", [2, 1], Some(25)),
    ("or", [1, 0], Some(10)),
    ("or", [-1, 5], None),
];

/// A file of one bidder that has these packages.
fn file(alloc: Global, word: &str, packages: &str) -> Result<String, Fail> {
    Ok(format!(in alloc;
        "{{\"settings\":{{\"branches\":200,\"cap\":100,\"close_regret\":0,\"improve\":1,\"rounds\":5,\"weight\":50}},\"goods\":[\"A\",\"B\"],\"bidders\":[{{\"name\":\"b\",\"own\":{{}},\"{word}\":[{packages}]}}]}}"
    )?)
}

/// Whether nothing is taken that the trade does not give, where some may be left.
fn fits(units: &Units, trade: [i64; 2]) -> bool {
    units.get(0) <= trade[0] && units.get(1) <= trade[1]
}

/// The value of the set of those of six nodes whose bits are set, where the set is satisfied and
/// fits the trade.
fn value_of(tree: &Tree, bounds: &Bounds, bits: u64, trade: [i64; 2]) -> Option<i64> {
    let mut set = NodeSet::empty(6);
    for node in 0..6 {
        if node < set.len() {
            set.put(node, bits >> node & 1 != 0);
        }
    }
    if set.len() != tree.nodes() || set.len() != bounds.len() {
        return None;
    }
    let is_taken = tree.is_satisfied(&set).is_ok() && fits(&tree.units(&set), trade);
    is_taken.then_some(bounds.lower_value(&set))
}

#[test]
fn worths(rt: HostRuntime) -> Result<(), Fail> {
    for (word, trade, expected) in WORTHS {
        let text = file(rt.alloc(), word, PACKAGES)?;
        let flat = read_flat(rt.alloc(), text.as_bytes())?;
        let exchange = translate(rt.alloc(), &flat)?;
        assert!(rt; exchange.trees().len() == 1 && exchange.bounds().len() == 1);
        let (tree, bounds) = (&exchange.trees()[0], &exchange.bounds()[0]);
        let mut best = None;
        for bits in 0..64 {
            best = best.max(value_of(tree, bounds, bits, trade));
        }
        assert_eq!(rt; best, expected, "{word}");
    }
    Ok(())
}
