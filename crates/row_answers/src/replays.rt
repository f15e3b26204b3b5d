// What a replay of a pair of vectors shows: the waves of all lines, samples, and settled sides.
ghost use Rattle.std.specs.Prelude.{◌≡◌, All, length, vec_len, IfOk};
ghost use Rattle.delay_annotation.specs.Annotation.{Fits};
ghost use Rattle.delay_replay.specs.Changes.{IsBounded};
ghost use Rattle.netlist.specs.Circuit.{line_count};

use crate::circuits::pair;
use crate::paths::{accepted_delays, path};
use crate::text::Text;
use crate::texts::{number_of, parted};
use crate::trouble::Trouble;
use delay_annotation::Delays;
use delay_replay::{Wave, pin_copy, replay, sample, settled};
use netlist::Netlist;
use pd_base::{LineId, OutOfMemory};
use std::alloc::{AllocError, Global};

/// Adds a line for each line of the circuit under these vectors: its name, its value before all changes, and the times of its changes.
pub fn waves(
    alloc: Global,
    net: &Netlist,
    file: Option<&str>,
    vectors: &str,
    answer: &mut Text,
) -> Result<(), Trouble> {
    let (first, second) = parted(vectors)?;
    let delays = accepted_delays(alloc, net, file)?;
    let waves = replayed(alloc, net, &delays, first, second)?;
    add_waves(net, waves.as_slice(), answer);
    Ok(())
}

// A line for each line of the circuit.
fn add_waves(net: &Netlist, waves: &[Wave], answer: &mut Text)
    requires { length waves.now ≡ line_count net.now }
{
    for line in 0..net.lines() {
        answer.add("  ");
        answer.add_bytes(net.name(LineId(line)));
        add_wave(&waves[line as usize], answer);
    }
}

// The value before all changes, and the times of the changes.
fn add_wave(wave: &Wave, answer: &mut Text) {
    answer.add(if wave.earliest() { " 1" } else { " 0" });
    for time in wave.changes() {
        answer.add_time(*time);
    }
    answer.add("\n");
}

// The waves of all lines under two vectors and these delays.
fn replayed(
    alloc: Global,
    net: &Netlist,
    delays: &Delays,
    first: &str,
    second: &str,
) -> Result<Vec<Wave>, Trouble>
    requires { Fits net.now delays.now }
    ensures lines { IfOk result (λ waves. vec_len waves ≡ line_count net.now) }
    ensures bounded { IfOk result (λ waves. All IsBounded waves.items) }
{
    let pair = pair(alloc, net, first, second)?;
    match replay(alloc, net, delays, &pair) {
        Ok(waves) => Ok(waves),
        Err(_) => Err(Trouble::NoRow),
    }
}

/// Adds what a pin sees of the line that it reads, as its value before all changes and the times of the changes: the delay of the pin, both
/// vectors, and the name of the line.
pub fn seen_by_pin(
    alloc: Global,
    net: &Netlist,
    file: Option<&str>,
    row: &str,
    answer: &mut Text,
) -> Result<(), Trouble> {
    let (delay, rest) = parted(row)?;
    let (first, rest) = parted(rest)?;
    let (second, name) = parted(rest)?;
    let line = net.find(name.as_bytes()).ok_or(Trouble::NoRow)?;
    let delays = accepted_delays(alloc, net, file)?;
    let waves = replayed(alloc, net, &delays, first, second)?;
    add_copy(alloc, waves.as_slice(), line, number_of(delay)?, answer)
}

// What a pin with this delay sees of a line.
fn add_copy(
    alloc: Global,
    waves: &[Wave],
    line: LineId,
    delay: u32,
    answer: &mut Text,
) -> Result<(), Trouble>
    requires { All IsBounded waves.now }
{
    let wave = waves.get(line.0 as usize).ok_or(Trouble::NoRow)?;
    let copy = copied(alloc, wave, delay)?;
    answer.add(" ");
    add_wave(&copy, answer);
    Ok(())
}

// The same as a wave. It promises nothing, so that the answer is not proved over again under the contract of `pin_copy`.
fn copied(alloc: Global, wave: &Wave, delay: u32) -> Result<Wave, OutOfMemory>
    requires { IsBounded wave.now }
{
    pin_copy(alloc, wave, delay)
}

/// Adds what the observed lines have at a time under two vectors, in their order.
pub fn samples(
    alloc: Global,
    net: &Netlist,
    file: Option<&str>,
    row: &str,
    answer: &mut Text,
) -> Result<(), Trouble> {
    let (time, vectors) = parted(row)?;
    let time = time_of(time)?;
    let (first, second) = parted(vectors)?;
    let delays = accepted_delays(alloc, net, file)?;
    let waves = replayed(alloc, net, &delays, first, second)?;
    add_sample(alloc, net, waves.as_slice(), time, answer)
}

// The line of a sample.
fn add_sample(
    alloc: Global,
    net: &Netlist,
    waves: &[Wave],
    time: i64,
    answer: &mut Text,
) -> Result<(), Trouble>
    requires { length waves.now ≡ line_count net.now }
{
    let sampled = sampled(alloc, net, waves, time)?;
    answer.add_bits_line(sampled.as_slice());
    Ok(())
}

// What the observed lines have at a time.
fn sampled(alloc: Global, net: &Netlist, waves: &[Wave], time: i64) -> Result<Vec<bool>, AllocError>
    requires { length waves.now ≡ line_count net.now }
{
    let mut sampled = vec![in alloc; false; net.observed().len()]?;
    sample(net, waves, time, sampled.as_mut_slice());
    Ok(sampled)
}

/// Adds whether the sides of a path have settled: the time, both vectors, and the path.
pub fn sides(
    alloc: Global,
    net: &Netlist,
    file: Option<&str>,
    row: &str,
    answer: &mut Text,
) -> Result<(), Trouble> {
    let (time, rest) = parted(row)?;
    let time = time_of(time)?;
    let delays = accepted_delays(alloc, net, file)?;
    let settled = have_settled(alloc, net, &delays, rest, time)?;
    answer.add_yes_or_no(settled);
    Ok(())
}

// Whether the sides of a path have settled at a time: both vectors, and the path.
fn have_settled(
    alloc: Global,
    net: &Netlist,
    delays: &Delays,
    row: &str,
    time: i64,
) -> Result<bool, Trouble>
    requires { Fits net.now delays.now }
{
    let (first, rest) = parted(row)?;
    let (second, row) = parted(rest)?;
    let waves = replayed(alloc, net, delays, first, second)?;
    is_settled(alloc, net, delays, waves.as_slice(), row, time)
}

// The same of these waves.
fn is_settled(
    alloc: Global,
    net: &Netlist,
    delays: &Delays,
    waves: &[Wave],
    row: &str,
    time: i64,
) -> Result<bool, Trouble>
    requires fits { Fits net.now delays.now }
    requires waves { length waves.now ≡ line_count net.now }
{
    let path = path(alloc, net, row)?;
    Ok(settled(net, delays, waves, &path, time))
}

// A time.
fn time_of(text: &str) -> Result<i64, Trouble> {
    match text.parse::<i64>() {
        Ok(time) => Ok(time),
        Err(_) => Err(Trouble::NoRow),
    }
}
