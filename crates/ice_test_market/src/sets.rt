//! Tests of packed sets.
use ice_set::NodeSet;

#[test]
fn keeps_nodes(rt: HostRuntime) {
    let mut set = NodeSet::empty(200);
    assert!(rt; set.is_empty());
    for (node, on) in [(199, true), (63, true), (64, true), (63, false)] {
        assert!(rt; node < set.len());
        set.put(node, on);
    }
    for (node, want) in [(199, true), (63, false), (64, true), (0, false)] {
        assert!(rt; node < set.len());
        assert_eq!(rt; set.has(node), want, "at {node}");
    }
    assert_eq!(rt; set.len(), 200);
    assert!(rt; !set.is_empty());
    assert!(rt; set != NodeSet::empty(200));
}
