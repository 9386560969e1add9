//! Laws of the journals of proxy sessions. It has no code.
#![tactic(auto)]

ghost use Rattle.ice_proxy_laws.specs.Laws.{RunSubmitsProxies, SessionSubmitsProxies};

/// The submissions of a proxy session's journal are proxy bids, as far as it is written.
pub fn run_submits_proxies()
    ensures { RunSubmitsProxies }
{}

/// So are those of a whole journal.
pub fn session_submits_proxies()
    ensures { SessionSubmitsProxies }
{}
