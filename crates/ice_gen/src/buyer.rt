//! Buyers.
ghost use Rattle.std.specs.Prelude.{◌≡◌, ◌<◌, ◌≤◌, ◌+◌, ◌*◌, ◌++◌, [], ◌∷◌, ℕ, length, sum, replicate, pos};
ghost use Rattle.ice_defs.specs.Tree.{parent_of};
ghost use Rattle.ice_defs.specs.Lawful.{IsLimitedTree, AreBounds};
ghost use Rattle.ice_gen.specs.Generated.{draws, package_draws, package_tree, package_values, buyer, buyer_draws, bounds_of_values, truth_of_values};
ghost use Rattle.ice_gen.specs.Drawing.{drawn, state_after};
ghost use Rattle.ice_gen.specs.Growing.{IsModest};

use crate::growing::{Valuation, ValuedTreeMaker};
use crate::random::Generator;
use crate::valued::{NO_VALUE, Valued, with_distances};
use ice_tree::NodeKind;

/// The value of a package: 10 to 39 units of money for each of its goods.
fn package_value(goods: u8, generator: &mut Generator) -> Valued
    requires { goods ≤ 4 }
    ensures truth { result.truth
        ≡ pos (10 * goods + sum (draws (replicate goods 30) generator.old)) }
    ensures below { result.below ≡ drawn (state_after goods generator.old) 10 }
    ensures above { result.above ≡ drawn (state_after (goods + 1) generator.old) 10 }
    ensures modest { IsModest result }
    ensures state { generator.new ≡ state_after (goods + 2) generator.old }
{
    let mut truth: u8 = 0;
    for _good in 0..goods {
        truth += 10 + generator.draw(30);
    }
    with_distances(i64::from(truth), generator)
}

/// Adds a package of so many goods below the open root: all of them or none.
fn add_package(maker: &mut ValuedTreeMaker, goods: u8, generator: &mut Generator)
    requires some { 2 ≤ goods }
    requires few { goods ≤ 4 }
    requires root { maker.old.opened ≡ 0 ∷ [] }
    requires begun { 0 < length maker.old.tree }
    requires room { length maker.old.tree + goods < 13 }
    requires parents { (c : ℕ) → 0 < c → c < length maker.old.tree
        → parent_of maker.old.tree c < c }
    ensures tree { let drawn = draws (package_draws goods) generator.old in
        maker.new.tree ≡ maker.old.tree ++ package_tree (length maker.old.tree) goods drawn }
    ensures values { let drawn = draws (package_draws goods) generator.old in
        maker.new.values ≡ maker.old.values ++ package_values goods drawn }
    ensures opened { maker.new.opened ≡ maker.old.opened }
    ensures state { generator.new ≡ state_after (goods + 3) generator.old }
{
    let first = generator.draw(12);
    let value = package_value(goods, generator);
    maker.choose(u16::from(goods), u16::from(goods), value);
    for place in 0..goods {
        let good = (first + 5 * place) % 12;
        maker.leaf(NodeKind::Buy { good, units: 1 }, NO_VALUE);
    }
    maker.close();
}

/// A buyer: at most one of three packages, of two, three and four goods.
pub(crate) fn buyer(generator: &mut Generator) -> Valuation
    ensures tree { result.tree ≡ (buyer 0 (draws buyer_draws generator.old)).tree }
    ensures bounds { result.bounds
        ≡ bounds_of_values (buyer 0 (draws buyer_draws generator.old)).values }
    ensures truth { result.truth
        ≡ truth_of_values (buyer 0 (draws buyer_draws generator.old)).values }
    ensures limited { IsLimitedTree 12 result.tree }
    ensures ordered { AreBounds (length result.tree) result.bounds }
    ensures state { generator.new ≡ state_after 18 generator.old }
{
    let mut maker = ValuedTreeMaker::new();
    maker.choose(0, 1, NO_VALUE);
    for goods in 2..5 {
        add_package(&mut maker, goods, generator);
    }
    maker.close();
    maker.finish()
}
