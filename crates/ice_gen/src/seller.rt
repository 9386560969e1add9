//! Sellers.
ghost use Rattle.std.specs.Prelude.{◌≡◌, ◌<◌, [], ◌∷◌, length};
ghost use Rattle.ice_defs.specs.Lawful.{IsLimitedTree, AreBounds};
ghost use Rattle.ice_gen.specs.Generated.{draws, seller_draws, sale_value, seller, owned_one, bounds_of_values, truth_of_values};
ghost use Rattle.ice_gen.specs.Drawing.{state_after};
ghost use Rattle.ice_gen.specs.Growing.{IsModest};

use crate::growing::{Valuation, ValuedTreeMaker};
use crate::random::Generator;
use crate::valued::{NO_VALUE, Valued, with_distances};
use ice_tree::NodeKind;

/// The value of a sale: minus 5 to 24 units of money.
fn sale_value(generator: &mut Generator) -> Valued
    ensures value { result ≡ sale_value (draws (20 ∷ 10 ∷ 10 ∷ []) generator.old) 0 }
    ensures modest { IsModest result }
    ensures state { generator.new ≡ state_after 3 generator.old }
{
    let cost = 5 + i64::from(generator.draw(20));
    with_distances(-cost, generator)
}

/// What the seller of this number owns of each good: one unit of each of three goods.
pub(crate) fn owned_by(seller: u8) -> [u32; 12]
    requires { seller < 4 }
    ensures { result ≡ owned_one seller }
{
    let first = 3 * seller as usize;
    let mut owned = [0; 12];
    owned[first] = 1;
    owned[first + 1] = 1;
    owned[first + 2] = 1;
    owned
}

/// The seller of this number: it sells any of three goods, one unit each.
pub(crate) fn seller(number: u8, generator: &mut Generator) -> Valuation
    requires { number < 4 }
    ensures tree { result.tree ≡ (seller number (draws seller_draws generator.old)).tree }
    ensures bounds { let drawn = draws seller_draws generator.old in
        result.bounds ≡ bounds_of_values (seller number drawn).values }
    ensures truth { let drawn = draws seller_draws generator.old in
        result.truth ≡ truth_of_values (seller number drawn).values }
    ensures limited { IsLimitedTree 12 result.tree }
    ensures ordered { AreBounds (length result.tree) result.bounds }
    ensures state { generator.new ≡ state_after 9 generator.old }
{
    let mut maker = ValuedTreeMaker::new();
    maker.choose(0, 3, NO_VALUE);
    for sale in 0..3 {
        let value = sale_value(generator);
        let good = 3 * number + sale;
        maker.leaf(NodeKind::Sell { good, units: 1 }, value);
    }
    maker.close();
    maker.finish()
}
