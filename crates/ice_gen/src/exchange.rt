//! The generated exchange of a number.
ghost use Rattle.std.specs.Prelude.{◌≡◌, ◌<◌, ◌++◌, [], ◌∷◌, None, length, decimal, string_bytes, IfOk, OnOk};
ghost use Rattle.ice_defs.specs.Lawful.{IsBidder};
ghost use Rattle.ice_defs.specs.Making.{bidder_refusal};
ghost use Rattle.ice_trade.specs.Parts.{with_bidder};
ghost use Rattle.ice_gen.specs.Generated.{generated_exchange, truths};
ghost use Rattle.ice_gen.specs.Parts.{exchange_with, bidder_from};

use crate::buyer::buyer;
use crate::growing::Valuation;
use crate::random::Generator;
use crate::seller::{owned_by, seller};
use ice_terms::Settings;
use ice_trade::{Exchange, ExchangeMaker};
use ice_tree::Bounds;
use std::alloc::{AllocError, Global};

/// A generated exchange, and for each of its bidders the true values, as bounds whose lower and
/// upper values are equal.
#[derive(Drop)]
pub struct Generated {
    /// The exchange, with its opening bounds.
    pub exchange: Exchange,
    /// The true values of each bidder, in the order of the exchange.
    pub truth: Vec<Bounds>,
}

/// A letter with a number behind it.
fn numbered(alloc: Global, letter: &str, number: u8) -> Result<String, AllocError>
    ensures { IfOk result (λ name. string_bytes name ≡ letter.now ++ decimal number) }
{
    format!(in alloc; "{letter}{number}")
}

/// The maker of a generated exchange, with its twelve goods and no bidder yet.
fn goods_maker(alloc: Global) -> Result<ExchangeMaker, AllocError>
    ensures { IfOk result (λ maker. maker ≡ exchange_with []) }
{
    let settings = Settings::new(50, 0, 1000, 1, 6, 50_000).unwrap();
    let Ok(mut maker) = ExchangeMaker::new(alloc, settings) else {
        return Err(AllocError);
    };
    for good in 0..12 {
        let name = numbered(alloc, "G", good)?;
        maker.good(&name).unwrap();
    }
    Ok(maker)
}

/// A generated exchange in the making.
#[derive(Drop)]
struct Draft {
    maker: ExchangeMaker,
    truth: Vec<Bounds>,
}

impl Draft {
    /// Adds a bidder that nothing is refused of.
    fn add(&mut self, name: &str, own: &[u32], valuation: Valuation) -> Result<(), AllocError>
        requires lawful { IsBidder (length self.old.maker.goods)
            (bidder_from name.now own.now valuation.tree valuation.bounds) }
        requires unrefused { bidder_refusal (length self.old.maker.goods) self.old.maker.bidders
            (bidder_from name.now own.now valuation.tree valuation.bounds) ≡ None }
        ensures exchange { OnOk result (self.new.maker ≡ with_bidder self.old.maker
            (bidder_from name.now own.now valuation.tree valuation.bounds)) }
        ensures truth { OnOk result (self.new.truth.items
            ≡ self.old.truth.items ++ valuation.truth ∷ []) }
    {
        let Valuation {
            tree,
            bounds,
            truth,
        } = valuation;
        self.maker.bidder(name, own, tree, bounds).unwrap();
        self.truth.push(truth)?;
        Ok(())
    }

    /// The exchange and its truth.
    fn finish(self) -> Generated
        requires goods { 0 < length self.maker.goods }
        requires bidders { 0 < length self.maker.bidders }
        ensures exchange { result.exchange ≡ self.maker }
        ensures truth { result.truth.items ≡ self.truth.items }
    {
        Generated {
            exchange: self.maker.finish().unwrap(),
            truth: self.truth,
        }
    }
}

/// The generated exchange of a number, and the true values of its bidders: 12 goods, four sellers
/// of three goods each, and four buyers of packages of two to four goods, 68 nodes together. The
/// same number always gives the same exchange.
///
/// Want of memory is the one error.
pub fn generate(alloc: Global, number: u32) -> Result<Generated, AllocError>
    ensures exchange { IfOk result (λ made. made.exchange ≡ generated_exchange number) }
    ensures truth { IfOk result (λ made. made.truth.items ≡ truths number) }
{
    let mut generator = Generator::new(number);
    let mut draft = Draft {
        maker: goods_maker(alloc)?,
        truth: Vec::new(alloc),
    };
    for seller_number in 0..4 {
        let name = numbered(alloc, "S", seller_number)?;
        let valuation = seller(seller_number, &mut generator);
        draft.add(&name, &owned_by(seller_number), valuation)?;
    }
    for buyer_number in 0..4 {
        let name = numbered(alloc, "B", buyer_number)?;
        let valuation = buyer(&mut generator);
        draft.add(&name, &[0; 12], valuation)?;
    }
    Ok(draft.finish())
}
