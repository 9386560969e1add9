//! Tests of the generator: each exchange against one that plain code reckons, node by node. They
//! stand apart so that the generator is not proved again with them.
#![tactic(auto)]

#[cfg(test)]
mod drawn;
#[cfg(test)]
mod generated;
#[cfg(test)]
mod plain;
