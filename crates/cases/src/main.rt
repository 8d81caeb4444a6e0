//! Runs the six operations on policies and requests, both engines of decide among them, against an
//! evaluator that was written for this program alone, on fixed cases and on generated ones, and the
//! written form on its cases; counts those in which every number, place, value and byte of lent
//! memory agrees.
#![tactic(auto)]

mod answer;
mod compare;
mod file;
mod fixed;
mod generate;
mod library;
mod line;
mod meaning;
mod model;
mod names;
mod operation;
mod pair;
mod random;
mod request;
mod rules;
mod subsets;
mod tally;
mod term;

ghost use Rattle.std.specs.Prelude.{◌≤◌, length, IfOk};

use generate::Generator;
use operation::Trial;
use std::io;
use std::io::Read;
use tally::{Numbers, Tally};

/// Reads until the buffer is full or the input ends: how many bytes there are at its front.
// Not `read_to_end`: it asks for less at a time, and of a packet that does not fit the rest is lost.
fn read_full(input: &mut impl Read, buffer: &mut [u8]) -> io::Result<usize>
    ensures { IfOk result (λ n. n ≤ length buffer.new) }
{
    let mut done = 0;
    while done < buffer.len() {
        let n = input.read(&mut buffer[done..])?;
        if n == 0 {
            break;
        }
        done += n;
    }
    Ok(done)
}

fn generated(tally: &mut Tally) {
    let mut generator = Generator::FIRST;
    // It repeats, and indexes nothing.
    for _ in 0..10000 {
        let first = tally.first_to_disagree(&generator.case());
        tally.generated.record(first.map(Trial::Operation));
    }
}

fn met(rt: &impl Print, what: &str, numbers: Numbers) -> io::Result<()> {
    print!(rt; "{what} met")?;
    for number in (0..64).filter(|number| numbers.contains(*number)) {
        print!(rt; " {number}")?;
    }
    println!(rt; "")
}

fn report_first(rt: &impl Print, tally: &Tally) -> io::Result<()> {
    print!(rt; "first disagreement ")?;
    if let Some(first) = tally.fixed.first() {
        println!(rt; "fixed {first}")
    } else if let Some(first) = tally.generated.first() {
        println!(rt; "generated {first}")
    } else {
        println!(rt; "none")
    }
}

fn report(rt: &impl Print, tally: &Tally) -> io::Result<()> {
    println!(rt; "fixed {}", tally.fixed)?;
    println!(rt; "generated {}", tally.generated)?;
    report_first(rt, tally)?;
    met(rt, "refusals", tally.refusals)?;
    met(rt, "sets", tally.sets)?;
    met(rt, "certificates", tally.rules)?;
    println!(rt; "resistant {} exposed {}", tally.resistant, tally.exposed)
}

fn main(rt: HostRuntime) -> io::Result<()> {
    let mut text = [0; 65536];
    let len = read_full(&mut rt.reader(), &mut text)?;
    let mut tally = fixed::all(&text[..len]);
    generated(&mut tally);
    report(&rt, &tally)
}
