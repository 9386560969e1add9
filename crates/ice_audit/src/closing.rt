//! The end of a statement: the cut, the payment, and the last line; and each line behind the
//! section.
ghost use Rattle.std.specs.Prelude.{◌≡◌, ◌<◌, ℕ, List, IsTrue, false, length, pos, ◌<ℤ◌, ◌≤ℤ◌};
ghost use Rattle.std.specs.Str.{bytes_eq};
ghost use Rattle.ice_defs.specs.Set.{value};
ghost use Rattle.ice_defs.specs.Vickrey.{IsEmpty};
ghost use Rattle.ice_defs.specs.Bounds.{bounds_of};
ghost use Rattle.ice_frac.specs.Lowest.{IsLowest};
ghost use Rattle.ice_journal.specs.Records as records;
ghost use Rattle.ice_journal.specs.Ranges.{IsRecord, IsFractionField};
ghost use Rattle.ice_journal.specs.Lines.{record_of, fraction_of};
ghost use Rattle.ice_check_charge.specs.Tests.{IsWorth};
ghost use Rattle.ice_statement_laws.specs.Statement.{shown, ended};
ghost use Rattle.ice_statement_laws.specs.Texts.{IsLine};
ghost use Rattle.ice_audit.specs.Lines.{line_of};
ghost use Rattle.ice_audit.specs.Standing.{own_tree, own_name, payment_at_end, IsKept};
ghost use Rattle.ice_audit.specs.Taking.{Takes};

use crate::line::StatementLine;
use crate::next::Next;
use crate::settlements::Settlements;
use ice_check_charge::is_paid;
use ice_frac::Frac;
use ice_journal::{Line, LowestFraction};
use ice_journal_laws::Rule;
use ice_terms::Name;

/// The fraction of a record.
fn fraction(stated: &LowestFraction) -> Frac
    requires { IsLowest (fraction_of stated.now) }
    ensures { result ≡ fraction_of stated.now }
{
    match Frac::new(i128::from(stated.num), i128::from(stated.den)) {
        Some(fraction) => fraction,
        None => unreachable!(),
    }
}

/// Whether a fraction is below 0.
fn is_negative(stated: &LowestFraction) -> bool
    ensures yes { IsTrue result → stated.now.num <ℤ pos 0 }
    ensures no { result ≡ false → pos 0 ≤ℤ stated.now.num }
{
    stated.num < 0
}

impl Settlements {
    /// A cut and a surplus in their place.
    fn state_cut(&mut self, cut: &LowestFraction, surplus: &LowestFraction) -> Result<(), Rule>
        requires next { self.old.next ≡ Next.Threshold }
        requires kept { IsKept self.old }
        requires den { 0 < cut.now.den }
        ensures { Takes self.old
            (shown (records.threshold (fraction_of cut.now) (fraction_of surplus.now))) result
            self.new }
    {
        if is_negative(cut) {
            return Err(Rule::Order);
        }
        if is_negative(surplus) {
            return Err(Rule::Order);
        }
        self.next = Next::Payment { cut: *cut };
        Ok(())
    }

    /// The cut and the surplus.
    fn take_cut(&mut self, cut: &LowestFraction, surplus: &LowestFraction) -> Result<(), Rule>
        requires kept { IsKept self.old }
        requires den { 0 < cut.now.den }
        ensures { Takes self.old
            (shown (records.threshold (fraction_of cut.now) (fraction_of surplus.now))) result
            self.new }
    {
        match self.next {
            Next::Threshold => self.state_cut(cut, surplus),
            _ => Err(Rule::Order),
        }
    }

    /// The lower value of the last final set.
    fn worth(&self) -> i128
        requires kept { IsKept self.now }
        requires nodes { length self.now.kept ≡ length (own_tree self.now.exchange) }
        ensures value { result ≡ value self.now.kept (bounds_of self.now.judge.bounds 0).lo }
        ensures range { IsWorth result }
    {
        i128::from(self.judge.bounds()[0].lower_value(&self.kept))
    }

    /// Whether a Vickrey discount stands beside a last final set that is empty.
    fn is_undue(&self, vickrey: i64) -> bool
        ensures yes { IsTrue result → ¬ (IsEmpty self.now.kept → vickrey ≡ pos 0) }
        ensures no { result ≡ false → IsEmpty self.now.kept → vickrey ≡ pos 0 }
    {
        if vickrey == 0 {
            return false;
        }
        self.kept.is_empty()
    }

    /// A payment of the bidder at this cut.
    fn pay(
        &mut self,
        cut: &LowestFraction,
        vickrey: i64,
        discount: &LowestFraction,
        payment: &LowestFraction,
    ) -> Result<(), Rule>
        requires next { self.old.next ≡ Next.Payment cut.now }
        requires kept { IsKept self.old }
        requires discount { IsFractionField (fraction_of discount.now) }
        requires payment { IsFractionField (fraction_of payment.now) }
        ensures { (name : List ℕ) → IsTrue (bytes_eq (own_name self.old.exchange) name)
            → Takes self.old (shown (records.payment name vickrey (fraction_of discount.now)
            (fraction_of payment.now))) result self.new }
    {
        if self.is_undue(vickrey) {
            return Err(Rule::Payment);
        }
        let worth = self.worth();
        if !is_paid(cut, vickrey, worth, discount, payment) {
            return Err(Rule::Payment);
        }
        self.next = Next::End { payment: *payment };
        Ok(())
    }

    /// A payment at this cut.
    fn state_payment(
        &mut self,
        cut: &LowestFraction,
        name: &Name,
        vickrey: i64,
        discount: &LowestFraction,
        payment: &LowestFraction,
    ) -> Result<(), Rule>
        requires next { self.old.next ≡ Next.Payment cut.now }
        requires kept { IsKept self.old }
        requires discount { IsFractionField (fraction_of discount.now) }
        requires payment { IsFractionField (fraction_of payment.now) }
        ensures { Takes self.old
            (shown (records.payment name.now vickrey (fraction_of discount.now)
            (fraction_of payment.now))) result self.new }
    {
        if !self.has_name(name) {
            return Err(Rule::Order);
        }
        self.pay(cut, vickrey, discount, payment)
    }

    /// The payment.
    fn take_payment(
        &mut self,
        name: &Name,
        vickrey: i64,
        discount: &LowestFraction,
        payment: &LowestFraction,
    ) -> Result<(), Rule>
        requires kept { IsKept self.old }
        requires discount { IsFractionField (fraction_of discount.now) }
        requires payment { IsFractionField (fraction_of payment.now) }
        ensures { Takes self.old
            (shown (records.payment name.now vickrey (fraction_of discount.now)
            (fraction_of payment.now))) result self.new }
    {
        match self.next {
            Next::Payment { cut } => self.state_payment(&cut, name, vickrey, discount, payment),
            _ => Err(Rule::Order),
        }
    }

    /// The last line.
    fn take_end(&mut self) -> Result<(), Rule>
        requires kept { IsKept self.old }
        ensures { Takes self.old ended result self.new }
    {
        match self.next {
            Next::End { payment } => {
                self.next = Next::Nothing { payment };
                Ok(())
            }
            _ => Err(Rule::Order),
        }
    }

    /// A record.
    fn take_record(&mut self, journal_line: &Line) -> Result<(), Rule>
        requires kept { IsKept self.old }
        requires lawful { IsRecord (record_of journal_line.now) }
        ensures { Takes self.old (shown (record_of journal_line.now)) result self.new }
    {
        match journal_line {
            Line::Regret { amount } => self.take_regret(*amount),
            Line::Prices(prices) => self.take_prices(prices),
            Line::Submit { name, lo, hi } => self.take_submission(name, lo, hi),
            Line::Settle { number } => self.take_settlement(*number),
            Line::Verdict(verdict) => self.take_verdict(*verdict),
            Line::Threshold { cut, surplus } => self.take_cut(cut, surplus),
            Line::Payment {
                name,
                vickrey,
                discount,
                payment,
            } => self.take_payment(name, *vickrey, discount, payment),
            _ => Err(Rule::Order),
        }
    }

    /// Takes the next line, or tells the first test that fails; then it is of no more use. Takes no
    /// memory.
    pub(crate) fn take(&mut self, line: &StatementLine) -> Result<(), Rule>
        requires kept { IsKept self.old }
        requires lawful { IsLine (line_of line.now) }
        ensures { Takes self.old (line_of line.now) result self.new }
    {
        match line {
            StatementLine::Named(_) => Err(Rule::Order),
            StatementLine::Shown(record) => self.take_record(record),
            StatementLine::Kept(set) => self.take_kept(set),
            StatementLine::Offered(set) => self.take_offered(set),
            StatementLine::Ended => self.take_end(),
        }
    }

    /// The payment, where no line is wanted any more.
    pub(crate) fn payment(&self) -> Option<Frac>
        requires kept { IsKept self.now }
        ensures { result ≡ payment_at_end self.now.next }
    {
        match self.next {
            Next::Nothing { payment } => Some(fraction(&payment)),
            _ => None,
        }
    }
}
