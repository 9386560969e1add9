//! Writes the exchange that is generated from a number, in JSON on the first line, and on the
//! second line a round file in which each of its bidders submits its true values. The word is the
//! number.
#![tactic(auto)]

use ice_gen::{Generated, generate};
use ice_read::write_exchange;
use ice_trade::Exchange;
use ice_tree::Bounds;
use serde_json::{Value, json};
use std::alloc::{AllocError, Global};
use std::env::Env;
use std::{env, io};

/// The words behind the program's name.
fn words<R: Env + AllocGlobal>(rt: &R) -> io::Result<Vec<String>> {
    Ok(env::args(rt)?.skip(1).collect(rt.alloc())?)
}

/// The lower values of the nodes, which are the true ones.
fn values(alloc: Global, truth: &Bounds) -> Result<Value, AllocError> {
    let mut values = Vec::new(alloc);
    for node in 0..truth.len() {
        values.push(Value::from(truth.lo(node)))?;
    }
    Ok(Value::from(values))
}

/// The bid of a bidder.
fn bid(alloc: Global, name: &str, truth: &Bounds) -> Result<Value, AllocError> {
    let lo = values(alloc, truth)?;
    let hi = values(alloc, truth)?;
    json!(in alloc; {"bidder": name, "lo": lo, "hi": hi})
}

/// A round file with one bid for each bidder.
fn truths(alloc: Global, exchange: &Exchange, truth: &[Bounds]) -> Result<Vec<u8>, AllocError> {
    let mut bids = Vec::new(alloc);
    for bidder in 0..exchange.bidders() {
        if let Some(truth) = truth.get(bidder as usize) {
            bids.push(bid(alloc, exchange.bidder_name(bidder).text(), truth)?)?;
        }
    }
    let bids = Value::from(bids);
    json!(in alloc; {"bids": bids})?.to_vec(alloc)
}

/// The two files.
fn files(alloc: Global, number: u32) -> Result<(Vec<u8>, Vec<u8>), AllocError> {
    let Generated { exchange, truth } = generate(alloc, number)?;
    let truths = truths(alloc, &exchange, &truth)?;
    Ok((write_exchange(alloc, &exchange)?, truths))
}

fn main(rt: HostRuntime) -> io::Result<()> {
    let words = words(&rt)?;
    let [number] = words.as_slice() else {
        return println!(rt; "the word is a number");
    };
    let Ok(number) = number.parse::<u32>() else {
        return println!(rt; "the word is a number, from 0 to 4294967295");
    };
    let Ok((exchange, truths)) = files(rt.alloc(), number) else {
        return println!(rt; "no memory is left");
    };
    println!(rt; "{}", str::from_utf8(&exchange).unwrap_or(""))?;
    println!(rt; "{}", str::from_utf8(&truths).unwrap_or(""))
}
