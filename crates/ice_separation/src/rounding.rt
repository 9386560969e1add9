//! Amounts that are rounded from the units of one good, and by how much shares violate them.
ghost use Rattle.std.specs.Prelude.{◌≡◌, ◌<◌, length, IfOk};
ghost use Rattle.ice_defs.specs.Trade.{weights_of};
ghost use Rattle.ice_refute.specs.Waiting.{nodes_of};

use crate::form::{Form, ONE, PARTS};
use ice_best::Fixing;
use ice_derived::Amounts;
use ice_relaxation::Openness;
use ice_tree::Tree;
use std::alloc::{AllocError, Global};
use std::cmp::Reverse;

/// A violation up to a thousandth counts as none.
const NO_VIOLATION: i128 = ONE as i128 / 1000;

/// A package of a bidder.
#[derive(Clone, Copy)]
struct Package {
    bidder: u8,
    node: u8,
    share: i64,
}

/// All trees as packages and choices, with the amounts that were rounded last.
#[derive(Drop)]
pub(crate) struct Rounding {
    forms: Vec<Form>,
    /// The packages, those of the greatest share first.
    packages: Vec<Package>,
}

/// The trees as packages and choices, with the shares of their nodes.
fn forms_of(alloc: Global, trees: &[Tree], shares: &[[i64; 256]]) -> Result<Vec<Form>, AllocError> {
    let mut forms = vec![in alloc; Form::new(); trees.len()]?;
    let mut openness = Openness::new();
    for (bidder, tree) in trees.iter().enumerate() {
        openness.fill(tree, &Fixing::free(tree.nodes()), None);
        if let (Some(form), Some(shares)) = (forms.get_mut(bidder), shares.get(bidder)) {
            form.fill(tree, shares, &openness);
        }
    }
    Ok(forms)
}

/// The packages of at most 40 trees, those of the greatest share first.
fn packages_of(alloc: Global, forms: &[Form]) -> Result<Vec<Package>, AllocError> {
    let mut packages = Vec::new(alloc);
    for (bidder, form) in (0..40).zip(forms) {
        for node in 0..200 {
            if form.is_package(node) {
                packages.push(Package {
                    bidder,
                    node,
                    share: form.share(node),
                })?;
            }
        }
    }
    packages.sort_unstable_by_key(|it| (Reverse(it.share), it.bidder, it.node));
    Ok(packages)
}

/// The product of two numbers.
fn product(one: i64, other: i64) -> i128 {
    i128::from(one).wrapping_mul(i128::from(other))
}

/// Marks the multipliers k/q of a lot of q units, in 4096ths and rounded up, for k up to ten.
fn mark_lot(lot: u64, marks: &mut [bool; 4097]) {
    for times in 1..=lot.min(10) {
        let multiplier = (4096 * times).div_ceil(lot).min(4096);
        marks[multiplier as usize] = true;
    }
}

/// Gives a node another amount, or the nearest in range.
fn put(amounts: &mut Amounts, bidder: u8, node: u16, amount: i64)
    requires bidder { bidder < length amounts.old }
    requires node { node < length (weights_of amounts.old bidder) }
    ensures { nodes_of amounts.new ≡ nodes_of amounts.old }
{
    let most = 1 << 20;
    amounts.put(bidder, node, amount.clamp(-most, most) as i32);
}

/// By how much shares violate amounts with their limit.
#[derive(Clone, Copy)]
pub(crate) struct Violation {
    /// By so many parts of 2^-40.
    parts: i128,
    /// The sum of the squares of the amounts.
    squares: i128,
}

impl Violation {
    /// A number that is greater where the violation is a greater part of the norm of the amounts.
    pub(crate) fn rank(&self) -> i128 {
        let parts = self.parts >> 20;
        let square = parts.wrapping_mul(parts).wrapping_shl(16);
        square.wrapping_div(self.squares.max(1))
    }
}

impl Rounding {
    /// The trees with the shares of their nodes.
    pub(crate) fn new(
        alloc: Global,
        trees: &[Tree],
        shares: &[[i64; 256]],
    ) -> Result<Rounding, AllocError> {
        let forms = forms_of(alloc, trees, shares)?;
        let packages = packages_of(alloc, &forms)?;
        Ok(Rounding { forms, packages })
    }

    /// Looks at the units of this good.
    pub(crate) fn take_good(&mut self, trees: &[Tree], good: u8) {
        for (bidder, tree) in trees.iter().enumerate() {
            if let Some(form) = self.forms.get_mut(bidder) {
                form.take_good(tree, good);
            }
        }
    }

    /// Marks the multipliers to try, k/q rounded up for each lot of q units of the good of which
    /// there is a share, and k up to ten.
    pub(crate) fn mark_multipliers(&self, marks: &mut [bool; 4097]) {
        for package in &self.packages {
            if let Some(form) = self.forms.get(usize::from(package.bidder)) {
                if form.has_share(package.node) {
                    mark_lot(form.lot(package.node), marks);
                }
            }
        }
    }

    /// Rounds amounts from the units of the good at a multiplier, and raises them where the limit
    /// stays. None where the shares don't violate them.
    pub(crate) fn round(&mut self, trees: &[Tree], multiplier: u16) -> Option<Violation> {
        let total = self.round_trees(trees, multiplier);
        let rest = (PARTS - 1).wrapping_sub(total.rem_euclid(PARTS));
        let rest = self.raise(trees, rest, true);
        let parts = self
            .taken()
            .wrapping_sub(i128::from(total.div_euclid(PARTS)) << 40);
        if parts <= NO_VIOLATION {
            return None;
        }
        self.raise(trees, rest, false);
        let squares = self.squares();
        Some(Violation { parts, squares })
    }

    /// Rounds what the packages of each tree take. The sum of the greatest nets.
    fn round_trees(&mut self, trees: &[Tree], multiplier: u16) -> i64 {
        let mut total: i64 = 0;
        for (bidder, tree) in trees.iter().enumerate() {
            if let Some(form) = self.forms.get_mut(bidder) {
                total = total.wrapping_add(form.round(tree, i64::from(multiplier)));
            }
        }
        total
    }

    /// Raises what those packages take of which there is a share, or the others, as long as the sum
    /// of the greatest nets rises by no more than the rest. What is left of it.
    fn raise(&mut self, trees: &[Tree], rest: i64, have_share: bool) -> i64 {
        let mut rest = rest;
        for package in &self.packages {
            let bidder = usize::from(package.bidder);
            if let (Some(tree), Some(form)) = (trees.get(bidder), self.forms.get_mut(bidder)) {
                if form.has_share(package.node) == have_share {
                    rest = rest.wrapping_sub(form.raise_within(tree, package.node, rest));
                }
            }
        }
        rest
    }

    /// What a package takes.
    fn amount(&self, package: &Package) -> i64 {
        match self.forms.get(usize::from(package.bidder)) {
            Some(form) => form.amount(package.node),
            None => 0,
        }
    }

    /// What the shares take, in parts of 2^-40.
    fn taken(&self) -> i128 {
        let mut sum: i128 = 0;
        for package in &self.packages {
            sum = sum.wrapping_add(product(self.amount(package), package.share));
        }
        sum
    }

    /// The sum of the squares of the amounts.
    fn squares(&self) -> i128 {
        let mut sum: i128 = 0;
        for package in &self.packages {
            let amount = self.amount(package);
            sum = sum.wrapping_add(product(amount, amount));
        }
        sum
    }

    /// What the packages take, in their order.
    pub(crate) fn numbers(&self, alloc: Global) -> Result<Vec<i64>, AllocError> {
        let mut numbers = Vec::with_capacity(alloc, self.packages.len())?;
        for package in &self.packages {
            numbers.push(self.amount(package))?;
        }
        Ok(numbers)
    }

    /// What each node takes.
    pub(crate) fn amounts(&self, alloc: Global, trees: &[Tree]) -> Result<Amounts, AllocError>
        ensures { IfOk result (λ amounts. nodes_of amounts ≡ nodes_of trees.now) }
    {
        let mut amounts = Amounts::none(alloc, trees)?;
        for package in &self.packages {
            let Package { bidder, node, .. } = *package;
            if usize::from(bidder) < trees.len() {
                let nodes = trees[usize::from(bidder)].nodes();
                if u16::from(node) < nodes {
                    put(&mut amounts, bidder, u16::from(node), self.amount(package));
                }
            }
        }
        Ok(amounts)
    }
}
