//! What a tree nets where its nodes are charged, beside what their units cost.

use crate::form::Worths;
use crate::master::Master;

/// The worths less these charges, node by node.
fn less(worths: &Worths, charges: &Worths) -> Worths {
    let mut less = *worths;
    for node in 0..200 {
        less[node] = less[node].wrapping_sub(charges[node]);
    }
    less
}

impl Master {
    /// The greatest net of a tree at multipliers, where each of its nodes is charged so much. All
    /// are amounts.
    pub fn charged_net(&mut self, bidder: u8, multipliers: &[i64; 16], charges: &Worths) -> i64 {
        let place = usize::from(bidder);
        let Some(worths) = self.worths.get(place) else {
            return 0;
        };
        let Some(form) = self.forms.get_mut(place) else {
            return 0;
        };
        form.weigh(&less(worths, charges));
        let net = self.outcome.evaluate(form, multipliers);
        form.weigh(worths);
        net
    }

    /// Adds the set that the last charged net is of, which was that of this tree, to those that
    /// were found. Its number. None where there is no room.
    pub fn add_charged(&mut self, bidder: u8) -> Option<u16> {
        let form = self.forms.get(usize::from(bidder))?;
        let column = self.outcome.best_set(form, bidder);
        self.pool.add(column)
    }
}
