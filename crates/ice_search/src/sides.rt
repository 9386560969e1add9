//! The side of a part: the marks along the parts above it.
ghost use Rattle.std.specs.Prelude.{◌≡◌, ◌<◌, length};
ghost use Rattle.ice_defs.specs.Conditions.{AreFixingsOf};
ghost use Rattle.ice_search_log.specs.Parts.{side_at};
ghost use Rattle.ice_search_log.specs.Code.{parts_of};
ghost use Rattle.ice_search.specs.Instance.{IsSearchOf};

use crate::problem::Problem;
use ice_best::Fixings;
use ice_bound::copy_fixings;
use ice_search_log::Part;

/// Makes the marks those of the part's side: the start's, and those along the parts above it, of
/// which there are no more than free nodes at the start.
pub(crate) fn put_side(problem: &Problem, parts: &[Part], number: u32, marks: &mut Fixings)
    requires search { IsSearchOf problem.now (parts_of parts.now) }
    requires there { number < length parts.now }
    requires marks { AreFixingsOf problem.now.trees marks.old }
    ensures { marks.new ≡ side_at problem.now.start (parts_of parts.now) number }
{
    if number == 0 {
        copy_fixings(marks, problem.start);
        return;
    }
    let part = &parts[number as usize];
    put_side(problem, parts, part.above, marks);
    marks.mark(part.bidder, part.node, part.mark);
}
