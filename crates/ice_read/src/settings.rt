//! The settings of an exchange file.
ghost use Rattle.std.specs.Prelude.{◌≡◌, ◌≤◌, MatchResult, IfOk, IfErr, length, pos};
ghost use Rattle.serde_json.specs.View.{view};
ghost use Rattle.ice_defs.specs.FileFault.{Path};
ghost use Rattle.ice_read.specs.ExchangeFile.{are_settings, derived_at, settings_at};
ghost use Rattle.ice_read.specs.Fault.{IsFault, IsReading};

use crate::cause::ReadCause;
use crate::fault::ReadFault;
use crate::limits::{
    GREATEST_CAP, GREATEST_CLOSE_REGRET, GREATEST_IMPROVE, GREATEST_WEIGHT, MOST_BRANCHES,
    MOST_DERIVED, MOST_ROUNDS,
};
use crate::values::{has_exactly, natural_member, whole_member};
use ice_terms::Settings;
use serde_json::Value;

/// Whether an object has exactly the members of settings, of which the last may be left out.
fn are_settings(value: &Value) -> bool
    ensures { result ≡ are_settings (view value.now) }
{
    let names = [
        "weight",
        "close_regret",
        "cap",
        "improve",
        "rounds",
        "branches",
        "derived",
    ];
    has_exactly(value, &names[..6]) || has_exactly(value, &names)
}

/// How many derived goods settings allow: none where they don't say it.
fn derived_of(value: &Value) -> Result<u32, ReadFault>
    ensures reading { MatchResult result
        (λ number. (path : Path) → derived_at path (view value.now) ≡ Ok (pos number))
        (λ fault. IsFault fault (λ path. derived_at path (view value.now))) }
    ensures short { IfErr result (λ fault. length fault.place ≤ 8) }
    ensures few { IfOk result (λ number. number ≤ 2000) }
{
    if value.get("derived").is_none() {
        return Ok(0);
    }
    natural_member(value, "derived", 0, MOST_DERIVED)
}

/// The settings of an exchange.
pub fn settings_of(value: &Value) -> Result<Settings, ReadFault>
    ensures reading { IsReading result (λ path. settings_at path (view value.now)) }
    ensures short { IfErr result (λ fault. length fault.place ≤ 13) }
{
    if !are_settings(value) {
        return Err(ReadFault::of(ReadCause::Shape));
    }
    let weight = natural_member(value, "weight", 0, GREATEST_WEIGHT)?;
    let close_regret = whole_member(value, "close_regret", 0, GREATEST_CLOSE_REGRET)?;
    let cap = whole_member(value, "cap", 1, GREATEST_CAP)?;
    let improve = whole_member(value, "improve", 0, GREATEST_IMPROVE)?;
    let rounds = natural_member(value, "rounds", 0, MOST_ROUNDS)?;
    let branches = natural_member(value, "branches", 0, MOST_BRANCHES)?;
    let derived = derived_of(value)?;
    let settings = Settings::new(
        weight as u8,
        close_regret,
        cap,
        improve,
        rounds as u8,
        branches,
    );
    let without = settings.unwrap();
    let all = without.with_derived(derived as u16);
    Ok(all.unwrap())
}
