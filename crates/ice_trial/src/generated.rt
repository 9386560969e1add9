//! Trials of generated exchanges.
ghost use Rattle.std.specs.Prelude.{◌≡◌, IfOk};
ghost use Rattle.ice_gen.specs.Generated.{generated_exchange, truths};
ghost use Rattle.ice_trial.specs.Ends.{IsTrialEnd};

use crate::trial::{TrialEnd, try_truths};
use ice_gen::{Generated, generate};
use ice_read::{read_exchange, write_exchange};
use ice_trade::Exchange;
use std::alloc::{AllocError, Global};

/// The same exchange, written in JSON and read again.
fn read_again(alloc: Global, exchange: &Exchange) -> Result<Exchange, AllocError>
    ensures { IfOk result (λ again. again ≡ exchange.now) }
{
    let text = write_exchange(alloc, exchange)?;
    match read_exchange(alloc, &text) {
        Ok(again) => Ok(again),
        Err(_) => Err(AllocError),
    }
}

/// The generated exchange of a number, as it is read again, and the true values of its bidders.
fn made_again(alloc: Global, number: u32) -> Result<Generated, AllocError>
    ensures exchange { IfOk result (λ made. made.exchange ≡ generated_exchange number) }
    ensures truth { IfOk result (λ made. made.truth.items ≡ truths number) }
{
    let Generated { exchange, truth } = generate(alloc, number)?;
    let exchange = read_again(alloc, &exchange)?;
    Ok(Generated { exchange, truth })
}

/// Runs the session of the generated exchange of a number, as it is written in JSON and read again,
/// with the generated true values.
#[tactic(none)]
pub fn try_generated(alloc: Global, number: u32) -> TrialEnd
    ensures { IsTrialEnd (generated_exchange number) (truths number) result }
{
    match made_again(alloc, number) {
        Ok(made) => try_truths(alloc, made.exchange, &made.truth),
        Err(AllocError) => TrialEnd::NoMemory,
    }
}
