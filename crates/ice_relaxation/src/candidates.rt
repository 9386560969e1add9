//! Nodes to split a side at.
ghost use Rattle.std.specs.Prelude.{◌≡◌, ◌<◌, ◌≤◌, length, IsTrue};
ghost use Rattle.std.specs.List.{All};
ghost use Rattle.ice_defs.specs.Conditions.{AreFixingsOf};
ghost use Rattle.ice_relaxation.specs.Candidates.{IsFreeAt};

use crate::number::Number;
use crate::operation::Work;
use crate::relaxation::Relaxation;
use arrayvec::ArrayVec;
use ice_best::{Fixings, Mark};
use ice_tree::Tree;

/// A node of a bidder's tree.
#[derive(Clone, Copy, Debug, Default, PartialEq, Eq)]
pub struct Candidate {
    /// The bidder's number.
    pub bidder: u8,
    /// The number of the node in its tree.
    pub node: u16,
}

/// At most four candidates, the best first.
pub type Candidates = ArrayVec<Candidate, 4>;

/// A candidate with its score.
#[derive(Clone, Copy, Default)]
struct Scored {
    candidate: Candidate,
    score: i128,
}

/// The four best candidates so far, the best first.
#[derive(Drop)]
struct Ranking {
    best: ArrayVec<Scored, 4>,
}

impl Ranking {
    /// Puts a candidate in its place, behind those of the same score.
    fn put(&mut self, candidate: Candidate, score: i128) {
        let behind = self.best.iter().position(|other| other.score < score);
        let place = behind.unwrap_or(self.best.len());
        if place >= 4 {
            return;
        }
        if self.best.is_full() {
            self.best.pop();
        }
        self.best.insert(place, Scored { candidate, score });
    }
}

/// How much a branch at a node promises: the nearer it was to being taken half of the time and the
/// more it is worth, the more is lost on either side. Among nodes that were always or never taken
/// the worth alone decides.
fn score(halfness: u32, worth: i64) -> i128 {
    let size = i128::from(worth).saturating_abs();
    size.saturating_add(64)
        .saturating_mul(i128::from(halfness))
        .saturating_add(size / 1024)
}

/// Whether the node is there and free.
fn is_free(trees: &[Tree], marks: &Fixings, candidate: Candidate) -> bool
    requires { AreFixingsOf trees.now marks.now }
    ensures { IsTrue result → IsFreeAt trees.now marks.now candidate }
{
    let place = usize::from(candidate.bidder);
    if place >= trees.len() || candidate.node >= trees[place].nodes() {
        return false;
    }
    marks.of(candidate.bidder).get(candidate.node) == Mark::Free
}

/// Free nodes that look worth a branch, the best first: those that the choices above them leave
/// open, that were taken about half of the time and that are worth much. There may be none. That a
/// mark on them leaves its bidder alive is likely, and isn't promised. Takes no memory. Time: a
/// pass over the open nodes of each tree.
pub fn pick(trees: &[Tree], marks: &Fixings, relaxation: &Relaxation) -> Candidates
    requires few { length trees.now ≤ 40 }
    requires marks { AreFixingsOf trees.now marks.now }
    requires relaxation { relaxation.now ≡ length trees.now }
    ensures { All (IsFreeAt trees.now marks.now) result.items }
{
    let ranking = rank(relaxation);
    let mut candidates = ArrayVec::new();
    for scored in ranking.best.as_slice() {
        if is_free(trees, marks, scored.candidate) {
            candidates.push(scored.candidate);
        }
    }
    candidates
}

/// The optional nodes of the best scores.
fn rank(relaxation: &Relaxation) -> Ranking
    requires { relaxation.now ≤ 40 }
{
    let mut ranking = Ranking {
        best: ArrayVec::new(),
    };
    for bidder in 0..relaxation.trees.len() as u8 {
        rank_tree(relaxation, bidder, &mut ranking);
    }
    ranking
}

/// Ranks the optional nodes of a tree.
fn rank_tree(relaxation: &Relaxation, bidder: u8, ranking: &mut Ranking)
    requires { bidder < relaxation.now }
{
    let tree = &relaxation.trees[usize::from(bidder)];
    for number in 0..tree.len() {
        if let Work::Choice(choice) = tree.of(Number::new(number)).work {
            for place in choice.offered..choice.end {
                rank_node(relaxation, bidder, tree.operand(place), ranking);
            }
        }
    }
    if let Some(root) = tree.optional_root() {
        rank_node(relaxation, bidder, root, ranking);
    }
}

/// Ranks the node of an operation.
fn rank_node(relaxation: &Relaxation, bidder: u8, number: Number, ranking: &mut Ranking)
    requires { bidder < relaxation.now }
{
    let operation = relaxation.trees[usize::from(bidder)].of(number);
    let candidate = Candidate {
        bidder,
        node: u16::from(operation.node),
    };
    let halfness = relaxation.halfness(bidder, number);
    ranking.put(candidate, score(halfness, operation.worth));
}
