//! What the stages of pricing take turns with: the sets of a pool with their rows, programs that
//! are solved and counted, scans of the bidders' best sets, and weights that duals make.
#![tactic(auto)]

mod ends;
mod fractions;
mod pool;
mod program;
mod scan;
mod solution;
mod turns;
mod weighing;
mod work;

pub use ends::Stop;
pub use fractions::{common_den, num_over, over};
pub use pool::PoolMember;
pub use program::{last_alone, least_above, member_units, times_units, zeros};
pub use solution::{Solution, solve_turn};
pub use turns::{Step, next_step};
pub use weighing::{member_rows, numerators, weights_of};
pub use work::RunWork;
