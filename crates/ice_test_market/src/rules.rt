//! The verdict on bids, where what is asked for it may not fit together.
ghost use Rattle.std.specs.Prelude.{◌≡◌, ◌≤◌, length};
ghost use Rattle.std.specs.List.{list_all};
ghost use Rattle.ice_defs.specs.Making.{is_value};

use ice_rules::{Scratch, Standing, Verdict, judge};
use ice_terms::Prices;
use ice_tree::{Bounds, NodeSet, Tree};

fn is_value(value: i64) -> bool
    ensures { result ≡ is_value value }
{
    -1_000_000_000 <= value && value <= 1_000_000_000
}

fn are_values(values: &[i64]) -> bool
    ensures { result ≡ list_all is_value values.now }
{
    values.iter().all(|value| is_value(*value))
}

/// The set with the nodes whose bits are 1.
pub(crate) fn set_of(nodes: u16, bits: u16) -> NodeSet
    requires { nodes ≤ 200 }
    ensures { length result ≡ nodes }
{
    let mut set = NodeSet::empty(nodes);
    for node in 0..nodes {
        if node < 16 && (bits >> node) & 1 == 1 {
            set.put(node, true);
        }
    }
    set
}

/// The verdict, and None where the arguments are not those of one tree.
pub(crate) fn verdict(
    tree: &Tree,
    old: &Bounds,
    lo: &[i64],
    hi: &[i64],
    set: &NodeSet,
    prices: &Prices,
    improve: i64,
) -> Option<Verdict> {
    let nodes = tree.nodes();
    if old.len() != nodes || lo.len() != usize::from(nodes) || hi.len() != usize::from(nodes) {
        return None;
    }
    if !are_values(lo) || !are_values(hi) || set.len() != nodes {
        return None;
    }
    if tree.is_satisfied(set).is_err() {
        return None;
    }
    let at = Standing {
        tree,
        bounds: old,
        set,
        prices,
    };
    let judged = judge(&at, lo, hi, improve, &mut Scratch::new());
    Some(match judged {
        Ok(_) => Verdict::Accepted,
        Err(refusal) => refusal.verdict(),
    })
}
