//! Each form of record, read from the fields behind its first word.
ghost use Rattle.std.specs.Prelude.{◌∷◌, [], codes};
ghost use Rattle.ice_journal.specs.Reading.{FindsAfter};

use crate::limits::{DENOMINATOR, LIMIT, MULTIPLIER, TOTAL};
use crate::line::{Line, Room};
use crate::lists::{changes, integers, submission};
use crate::numbered::{Listed, numbers};
use crate::rows;
use ice_defs::NodeKind;
use ice_line::Fields;

/// The record of these fields behind `ice`.
pub fn ice_record(fields: Fields<'_>) -> Option<Line<'static>>
    ensures { FindsAfter (codes "ice" ∷ []) result fields.entry }
{
    let (version, kind) = rows::head(fields)?;
    Some(Line::Head { version, kind })
}

/// The record of these fields behind `settings`.
pub fn settings_record(fields: Fields<'_>) -> Option<Line<'static>>
    ensures { FindsAfter (codes "settings" ∷ []) result fields.entry }
{
    let settings = rows::settings(fields)?;
    Some(Line::Settings(settings))
}

/// The record of these fields behind `good`.
pub fn good_record(fields: Fields<'_>) -> Option<Line<'static>>
    ensures { FindsAfter (codes "good" ∷ []) result fields.entry }
{
    let name = rows::one_name(fields)?;
    Some(Line::Good(name))
}

/// The record of these fields behind `exact`.
pub fn exact_record(fields: Fields<'_>) -> Option<Line<'static>>
    ensures { FindsAfter (codes "exact" ∷ []) result fields.entry }
{
    let name = rows::one_name(fields)?;
    Some(Line::Exact(name))
}

/// The record of these fields behind `bidder`.
pub fn bidder_record(fields: Fields<'_>) -> Option<Line<'static>>
    ensures { FindsAfter (codes "bidder" ∷ []) result fields.entry }
{
    let (name, own) = rows::bidder(fields)?;
    Some(Line::Bidder { name, own })
}

/// The record of these fields behind `node choose`.
pub fn choose_record(fields: Fields<'_>) -> Option<Line<'static>>
    ensures { FindsAfter (codes "node" ∷ codes "choose" ∷ []) result fields.entry }
{
    let (least, most, children, lo, hi) = rows::choose(fields)?;
    Some(Line::Node {
        kind: NodeKind::Choose { least, most },
        children,
        lo,
        hi,
    })
}

/// The record of these fields behind `node buy`.
pub fn buy_record(fields: Fields<'_>) -> Option<Line<'static>>
    ensures { FindsAfter (codes "node" ∷ codes "buy" ∷ []) result fields.entry }
{
    let (good, units, lo, hi) = rows::leaf(fields)?;
    Some(Line::Node {
        kind: NodeKind::Buy { good, units },
        children: 0,
        lo,
        hi,
    })
}

/// The record of these fields behind `node sell`.
pub fn sell_record(fields: Fields<'_>) -> Option<Line<'static>>
    ensures { FindsAfter (codes "node" ∷ codes "sell" ∷ []) result fields.entry }
{
    let (good, units, lo, hi) = rows::leaf(fields)?;
    Some(Line::Node {
        kind: NodeKind::Sell { good, units },
        children: 0,
        lo,
        hi,
    })
}

/// The record of these fields behind `assign`.
pub fn assign_record(fields: Fields<'_>) -> Option<Line<'static>>
    ensures { FindsAfter (codes "assign" ∷ []) result fields.entry }
{
    rows::none_left(fields)?;
    Some(Line::Assign)
}

/// The record of these fields behind `settle`.
pub fn settle_record(fields: Fields<'_>) -> Option<Line<'static>>
    ensures { FindsAfter (codes "settle" ∷ []) result fields.entry }
{
    let number = rows::one_natural(fields, 0, 20)?;
    Some(Line::Settle {
        number: number as u8,
    })
}

/// The record of these fields behind `final`.
pub fn final_record(fields: Fields<'_>) -> Option<Line<'static>>
    ensures { FindsAfter (codes "final" ∷ []) result fields.entry }
{
    let value = rows::one_integer(fields, -TOTAL, TOTAL)?;
    Some(Line::Final { value })
}

/// The record of these fields behind `rival`.
pub fn rival_record(fields: Fields<'_>) -> Option<Line<'static>>
    ensures { FindsAfter (codes "rival" ∷ []) result fields.entry }
{
    let value = rows::one_integer(fields, -TOTAL, TOTAL)?;
    Some(Line::Rival { value })
}

/// The record of these fields behind `provisional`.
pub fn provisional_record(fields: Fields<'_>) -> Option<Line<'static>>
    ensures { FindsAfter (codes "provisional" ∷ []) result fields.entry }
{
    let value = rows::one_integer(fields, -TOTAL, TOTAL)?;
    Some(Line::Provisional { value })
}

/// The record of these fields behind `without`.
pub fn without_record(fields: Fields<'_>) -> Option<Line<'static>>
    ensures { FindsAfter (codes "without" ∷ []) result fields.entry }
{
    let (bidder, value) = rows::without(fields)?;
    Some(Line::Without { bidder, value })
}

/// The record of these fields behind `set`.
pub fn set_record(fields: Fields<'_>) -> Option<Line<'static>>
    ensures { FindsAfter (codes "set" ∷ []) result fields.entry }
{
    let set = rows::one_set(fields)?;
    Some(Line::Set(set))
}

/// The record of these fields behind `branch`.
pub fn branch_record(fields: Fields<'_>) -> Option<Line<'static>>
    ensures { FindsAfter (codes "branch" ∷ []) result fields.entry }
{
    let (bidder, node) = rows::branch(fields)?;
    Some(Line::Branch { bidder, node })
}

/// The record of these fields behind `leaf`.
pub fn leaf_record(fields: Fields<'_>) -> Option<Line<'static>>
    ensures { FindsAfter (codes "leaf" ∷ []) result fields.entry }
{
    let multipliers = integers(fields, -MULTIPLIER, MULTIPLIER)?;
    Some(Line::Leaf(multipliers))
}

/// The record of these fields behind `dead`.
pub fn dead_record(fields: Fields<'_>) -> Option<Line<'static>>
    ensures { FindsAfter (codes "dead" ∷ []) result fields.entry }
{
    let bidder = rows::one_natural(fields, 0, 39)?;
    Some(Line::Dead {
        bidder: bidder as u8,
    })
}

/// The record of these fields behind `near`.
pub fn near_record(fields: Fields<'_>) -> Option<Line<'static>>
    ensures { FindsAfter (codes "near" ∷ []) result fields.entry }
{
    let changed = changes(fields)?;
    Some(Line::Near(changed))
}

/// The record of these fields behind `tolled`.
pub fn tolled_record<'room>(fields: Fields<'_>, room: &'room mut Room) -> Option<Line<'room>>
    ensures { FindsAfter (codes "tolled" ∷ []) result fields.entry }
{
    let tolls = numbers(fields, Listed::Tolls, room)?;
    Some(Line::Tolled(tolls))
}

/// The record of these fields behind `derive`.
pub fn derive_record(fields: Fields<'_>) -> Option<Line<'static>>
    ensures { FindsAfter (codes "derive" ∷ []) result fields.entry }
{
    let limit = rows::one_integer(fields, -LIMIT, LIMIT)?;
    Some(Line::Derive { limit })
}

/// The record of these fields behind `amounts`.
pub fn amounts_record<'room>(fields: Fields<'_>, room: &'room mut Room) -> Option<Line<'room>>
    ensures { FindsAfter (codes "amounts" ∷ []) result fields.entry }
{
    let (bidder, numbers) = rows::bidder_amounts(fields, room)?;
    Some(Line::Amounts { bidder, numbers })
}

/// The record of these fields behind `regret`.
pub fn regret_record(fields: Fields<'_>) -> Option<Line<'static>>
    ensures { FindsAfter (codes "regret" ∷ []) result fields.entry }
{
    let amount = rows::one_integer(fields, 0, TOTAL)?;
    Some(Line::Regret { amount })
}

/// The record of these fields behind `prices`.
pub fn prices_record(fields: Fields<'_>) -> Option<Line<'static>>
    ensures { FindsAfter (codes "prices" ∷ []) result fields.entry }
{
    let prices = rows::prices(fields)?;
    Some(Line::Prices(prices))
}

/// The record of these fields behind `accuracy`.
pub fn accuracy_record(fields: Fields<'_>) -> Option<Line<'static>>
    ensures { FindsAfter (codes "accuracy" ∷ []) result fields.entry }
{
    let (violation, den) = rows::accuracy(fields)?;
    Some(Line::Accuracy { violation, den })
}

/// The record of these fields behind `balance`.
pub fn balance_record(fields: Fields<'_>) -> Option<Line<'static>>
    ensures { FindsAfter (codes "balance" ∷ []) result fields.entry }
{
    let den = rows::one_natural(fields, 1, DENOMINATOR)?;
    Some(Line::Balance { den })
}

/// The record of these fields behind `row`.
pub fn row_record(fields: Fields<'_>) -> Option<Line<'static>>
    ensures { FindsAfter (codes "row" ∷ []) result fields.entry }
{
    let (bidder, weight, set) = rows::weighted_set(fields)?;
    Some(Line::Row {
        bidder,
        weight,
        set,
    })
}

/// The record of these fields behind `submit`.
pub fn submit_record(fields: Fields<'_>) -> Option<Line<'static>>
    ensures { FindsAfter (codes "submit" ∷ []) result fields.entry }
{
    let (name, lo, hi) = submission(fields)?;
    Some(Line::Submit { name, lo, hi })
}

/// The record of these fields behind `verdict`.
pub fn verdict_record(fields: Fields<'_>) -> Option<Line<'static>>
    ensures { FindsAfter (codes "verdict" ∷ []) result fields.entry }
{
    let verdict = rows::verdict(fields)?;
    Some(Line::Verdict(verdict))
}

/// The record of these fields behind `threshold`.
pub fn threshold_record(fields: Fields<'_>) -> Option<Line<'static>>
    ensures { FindsAfter (codes "threshold" ∷ []) result fields.entry }
{
    let (cut, surplus) = rows::threshold(fields)?;
    Some(Line::Threshold { cut, surplus })
}

/// The record of these fields behind `payment`.
pub fn payment_record(fields: Fields<'_>) -> Option<Line<'static>>
    ensures { FindsAfter (codes "payment" ∷ []) result fields.entry }
{
    let (name, vickrey, discount, payment) = rows::payment(fields)?;
    Some(Line::Payment {
        name,
        vickrey,
        discount,
        payment,
    })
}

/// The record of these fields behind `spent`.
pub fn spent_record(fields: Fields<'_>) -> Option<Line<'static>>
    ensures { FindsAfter (codes "spent" ∷ []) result fields.entry }
{
    let (value, bound) = rows::spent(fields)?;
    Some(Line::Spent { value, bound })
}

/// The record of these fields behind `limit`.
pub fn limit_record(fields: Fields<'_>) -> Option<Line<'static>>
    ensures { FindsAfter (codes "limit" ∷ []) result fields.entry }
{
    let (stage, kind, violation, den) = rows::limit(fields)?;
    Some(Line::Limit {
        stage,
        kind,
        violation,
        den,
    })
}

/// The record of these fields behind `pool`.
pub fn pool_record(fields: Fields<'_>) -> Option<Line<'static>>
    ensures { FindsAfter (codes "pool" ∷ []) result fields.entry }
{
    let (bidder, set) = rows::pool(fields)?;
    Some(Line::Pool { bidder, set })
}

/// The record of these fields behind `end`.
pub fn end_record(fields: Fields<'_>) -> Option<Line<'static>>
    ensures { FindsAfter (codes "end" ∷ []) result fields.entry }
{
    let word = rows::ended(fields)?;
    Some(Line::End(word))
}

/// The record of these fields behind `refused`.
pub fn refused_record(fields: Fields<'_>) -> Option<Line<'static>>
    ensures { FindsAfter (codes "refused" ∷ []) result fields.entry }
{
    let (file, number, place) = rows::refused(fields)?;
    Some(Line::Refused {
        file,
        number,
        place,
    })
}

/// The record of these fields behind `unread`.
pub fn unread_record(fields: Fields<'_>) -> Option<Line<'static>>
    ensures { FindsAfter (codes "unread" ∷ []) result fields.entry }
{
    let file = rows::one_natural(fields, 1, 21)?;
    Some(Line::Unread { file: file as u8 })
}
