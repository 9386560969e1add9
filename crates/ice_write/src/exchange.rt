//! The section of a journal that describes its exchange.
ghost use Rattle.std.specs.Prelude.{◌≡◌, ◌<◌, ◌≤◌, length, map};
ghost use Rattle.std.specs.List.{AllByRecursion, flat_map};
ghost use Rattle.ice_edge.specs.Puts.{IsPut};
ghost use Rattle.ice_defs.specs.Tree.{kind_of, children_of};
ghost use Rattle.ice_defs.specs.Set.{weight_of};
ghost use Rattle.ice_journal.specs.Ranges.{HasLength, IsName, IsRecord};
ghost use Rattle.ice_journal.specs.Journal.{bytes_of};
ghost use Rattle.ice_journal.specs.Lines.{record_of};
ghost use Rattle.ice_journal.specs.Nodes.{node_record};
ghost use Rattle.ice_section.specs.Section.{good_record};
ghost use Rattle.ice_section.specs.Described.{node_records, bidder_records, section_records};
ghost use Rattle.ice_write.specs.Bidders.{with_tree, bidder_of};

use crate::record::put_record;
use arrayvec::ArrayVec;
use ice_edge::{Sink, SinkFault};
use ice_journal::Line;
use ice_terms::Name;
use ice_trade::Exchange;
use ice_tree::{Bounds, Tree};

/// The line of a good.
fn good_line(name: Name, exact: bool) -> Line<'static>
    requires { IsName name }
    ensures line { record_of result ≡ good_record (record { name = name; exact = exact }) }
    ensures record { IsRecord (record_of result) }
{
    if exact {
        Line::Exact(name)
    } else {
        Line::Good(name)
    }
}

/// Puts the goods.
fn put_goods<K: Sink>(exchange: &Exchange, out: &mut K) -> Result<(), SinkFault>
    ensures { IsPut (bytes_of (map good_record exchange.now.goods)) result
        (K.taken out.old) (K.taken out.new) }
{
    for good in 0..exchange.goods() {
        let name = exchange.good_name(good).copy();
        put_record(&good_line(name, exchange.is_exact(good)), out)?;
    }
    Ok(())
}

/// What a bidder owns, one amount per good.
fn own_of(exchange: &Exchange, bidder: u8) -> ArrayVec<u32, 32>
    requires { bidder < length exchange.now.bidders }
    ensures own { result.items ≡ (bidder_of exchange.now bidder).own }
    ensures fits { AllByRecursion (λ amount. amount ≤ 1000000) result.items }
    ensures count { HasLength 1 32 result.items }
{
    let mut own = ArrayVec::new();
    for good in 0..exchange.goods() {
        own.push(exchange.owns(bidder, good));
    }
    own
}

/// The line of a node.
fn node_line(tree: &Tree, bounds: &Bounds, node: u16) -> Line<'static>
    requires nodes { length bounds.now.lo ≡ length tree.now }
    requires node { node < length tree.now }
    ensures line { record_of result ≡ node_record (kind_of tree.now node)
        (length (children_of tree.now node)) (weight_of bounds.now.lo node) (weight_of bounds.now.hi node) }
    ensures record { IsRecord (record_of result) }
{
    // How many nodes a tree has at most, and in which range values are.
    let _nodes = tree.nodes();
    let _values = bounds.len();
    Line::Node {
        kind: tree.kind(node),
        children: tree.children(node).len() as u16,
        lo: bounds.lo(node),
        hi: bounds.hi(node),
    }
}

/// Puts the nodes of a tree with their bounds.
fn put_nodes<K: Sink>(tree: &Tree, bounds: &Bounds, out: &mut K) -> Result<(), SinkFault>
    requires { length bounds.now.lo ≡ length tree.now }
    ensures { IsPut (bytes_of (node_records (with_tree tree.now bounds.now))) result
        (K.taken out.old) (K.taken out.new) }
{
    for node in 0..tree.nodes() {
        put_record(&node_line(tree, bounds, node), out)?;
    }
    Ok(())
}

/// Puts a bidder: its name, what it owns, and its nodes.
fn put_bidder<K: Sink>(exchange: &Exchange, bidder: u8, out: &mut K) -> Result<(), SinkFault>
    requires { bidder < length exchange.now.bidders }
    ensures { IsPut (bytes_of (bidder_records (bidder_of exchange.now bidder))) result
        (K.taken out.old) (K.taken out.new) }
{
    let tree = &exchange.trees()[bidder as usize];
    let bounds = &exchange.bounds()[bidder as usize];
    let line = Line::Bidder {
        name: exchange.bidder_name(bidder).copy(),
        own: own_of(exchange, bidder),
    };
    put_record(&line, out)?;
    put_nodes(tree, bounds, out)
}

/// Puts the bidders.
fn put_bidders<K: Sink>(exchange: &Exchange, out: &mut K) -> Result<(), SinkFault>
    ensures { IsPut (bytes_of (flat_map bidder_records exchange.now.bidders)) result
        (K.taken out.old) (K.taken out.new) }
{
    for bidder in 0..exchange.bidders() {
        put_bidder(exchange, bidder, out)?;
    }
    Ok(())
}

/// Puts the records that describe an exchange: its settings, its goods, and its bidders with their
/// nodes in preorder. It takes no memory.
pub fn put_section<K: Sink>(exchange: &Exchange, out: &mut K) -> Result<(), SinkFault>
    ensures { IsPut (bytes_of (section_records exchange.now)) result
        (K.taken out.old) (K.taken out.new) }
{
    put_record(&Line::Settings(exchange.settings()), out)?;
    put_goods(exchange, out)?;
    put_bidders(exchange, out)
}
