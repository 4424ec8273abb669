//! Does one layer's work on a text, and all that comes before it, for the scripts in bench/: `bench LAYER LANG FILE [ROUNDS]`
//! prints what the layer made, and with ROUNDS the least time of so many rounds too.
#![tactic(auto)]

mod layers;

use anyhow::{Result, bail};
use ground::Dialect;
use layers::{checked, compiled, gathered, parsed, scanned};
use std::env;
use std::time::Instant;

const USAGE: &str = "usage: bench scan|gather|parse|compile|check ratfor|efl FILE [ROUNDS]";

/// A layer of the compiler. Each does the work of those before it too.
#[derive(Clone, Copy)]
enum Layer {
    Scan,
    Gather,
    Parse,
    Compile,
    Check,
}

fn layer_of(word: &str) -> Option<Layer> {
    match word {
        "scan" => Some(Layer::Scan),
        "gather" => Some(Layer::Gather),
        "parse" => Some(Layer::Parse),
        "compile" => Some(Layer::Compile),
        "check" => Some(Layer::Check),
        _ => None,
    }
}

fn dialect_of(word: &str) -> Option<Dialect> {
    match word {
        "ratfor" => Some(Dialect::Ratfor),
        "efl" => Some(Dialect::Efl),
        _ => None,
    }
}

/// How many tokens, units or statements the layer makes of the file.
fn made(rt: &HostRuntime, layer: Layer, dialect: Dialect, path: &str) -> Result<usize> {
    match layer {
        Layer::Scan => scanned(rt, dialect, path),
        Layer::Gather => gathered(rt, dialect, path),
        Layer::Parse => parsed(rt, dialect, path),
        Layer::Compile => compiled(rt, dialect, path),
        Layer::Check => checked(rt, dialect, path),
    }
}

/// The least time of so many rounds, in nanoseconds.
fn least_time(
    rt: &HostRuntime,
    layer: Layer,
    dialect: Dialect,
    path: &str,
    rounds: u32,
) -> Result<u128> {
    let mut least = u128::MAX;
    for _ in 0..rounds {
        let start = Instant::now(rt)?;
        made(rt, layer, dialect, path)?;
        least = least.min(start.elapsed(rt)?.as_nanos());
    }
    Ok(least)
}

fn main(rt: HostRuntime) -> Result<()> {
    let mut words = env::args(&rt)?.skip(1);
    let (Some(layer), Some(language), Some(path)) = (words.next(), words.next(), words.next())
    else {
        bail!("{}", USAGE);
    };
    let (Some(layer), Some(dialect)) = (layer_of(layer.as_str()), dialect_of(language.as_str()))
    else {
        bail!("{}", USAGE);
    };
    let count = made(&rt, layer, dialect, path.as_str())?;
    println!(rt; "{count}")?;
    if let Some(rounds) = words.next() {
        let rounds: u32 = rounds.as_str().parse()?;
        let least = least_time(&rt, layer, dialect, path.as_str(), rounds)?;
        println!(rt; "{least} ns")?;
    }
    Ok(())
}
