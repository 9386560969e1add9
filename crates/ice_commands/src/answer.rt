//! The line of the checker's answer.
ghost use Rattle.std.specs.Prelude.{◌≡◌, [], ◌+◌, ◌≤◌, length};
ghost use Rattle.ice_line.specs.Writing.{with_field};
ghost use Rattle.ice_journal.specs.Spelling.{fraction_text};
ghost use Rattle.ice_commands.specs.Output.{rule_word};
ghost use Rattle.ice_command_parts.specs.Parts.{IsSaid};
ghost use Rattle.ice_commands.specs.CheckServed.{answer_line, answer_status};

use ice_check::{Answer, Rule};
use ice_command_parts::ended;
use ice_edge::{Sink, Status};
use ice_frac::Frac;
use ice_line::LineWriter;

/// The word that a rule is printed as.
pub(crate) fn rule_word(rule: Rule) -> &'static [u8]
    ensures word { result.now ≡ rule_word rule }
    ensures short { length result.now ≤ 9 }
{
    match rule {
        Rule::Closed => b"closed",
        Rule::Order => b"order",
        Rule::Short => b"short",
        Rule::Exchange => b"exchange",
        Rule::Count => b"count",
        Rule::Parent => b"parent",
        Rule::Few => b"few",
        Rule::Many => b"many",
        Rule::Fixing => b"fixing",
        Rule::Excess => b"excess",
        Rule::Value => b"value",
        Rule::Near => b"near",
        Rule::Sign => b"sign",
        Rule::Fixed => b"fixed",
        Rule::Above => b"above",
        Rule::Alive => b"alive",
        Rule::Regret => b"regret",
        Rule::Prices => b"prices",
        Rule::Violation => b"violation",
        Rule::Accuracy => b"accuracy",
        Rule::Balance => b"balance",
        Rule::Verdict => b"verdict",
        Rule::Threshold => b"threshold",
        Rule::Payment => b"payment",
    }
}

/// Writes a fraction in lowest terms.
pub fn write_fraction(fraction: &Frac, to: &mut LineWriter)
    requires { length to.old ≤ 1000 }
    ensures field { to.new ≡ with_field to.old (fraction_text fraction.now) }
    ensures len { length to.new ≤ length to.old + 82 }
{
    to.fraction(fraction.num(), fraction.den() as i128);
}

/// Its line with the newline, written into an empty writer.
fn write_answer<'a>(answer: &Answer, to: &'a mut LineWriter) -> &'a [u8]
    requires { to.old ≡ [] }
    ensures { result.now ≡ answer_line answer.now }
{
    match answer {
        Answer::Assign { value: amount } | Answer::Regret { amount } => {
            to.word(b"yes");
            to.number(*amount);
        }
        Answer::Closed { regret, surplus } => {
            to.word(b"yes");
            to.number(*regret);
            write_fraction(surplus, to);
        }
        Answer::No { line, rule } => {
            to.word(b"no");
            to.number(i128::from(*line));
            to.word(rule_word(*rule));
        }
    }
    to.end()
}

/// The status that goes with it.
fn status_of(answer: &Answer) -> Status
    ensures { result ≡ answer_status answer.now }
{
    match answer {
        Answer::Assign { .. } | Answer::Regret { .. } | Answer::Closed { .. } => Status::Done,
        Answer::No { .. } => Status::No,
    }
}

/// Puts the line of an answer, and ends with its status, or with `WriteFault` where the sink fails.
pub fn say_answer<K: Sink>(answer: &Answer, out: &mut K) -> Status
    ensures { IsSaid (answer_line answer.now) (answer_status answer.now)
        (K.taken out.old) (K.taken out.new) result }
{
    let mut writer = LineWriter::new();
    ended(
        out.put(write_answer(answer, &mut writer)),
        status_of(answer),
    )
}
