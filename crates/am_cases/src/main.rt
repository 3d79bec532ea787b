//! Answers cases: reads them from standard input, one per line, and prints each with its answer below it (docs/CASES.md).
#![tactic(auto)]

mod calls;
mod clusters;
mod connections;
mod instances;
mod members;

use am_instance::Instance;
use am_part_cases::common::{Case, CaseFault, first};
use std::io::Read;
use std::process::ExitCode;

fn main(rt: HostRuntime) -> ExitCode {
    match input(&rt) {
        Some(text) if answer_all(&rt, text.as_slice()) => ExitCode::SUCCESS,
        _ => ExitCode::FAILURE,
    }
}

fn input(rt: &HostRuntime) -> Option<Vec<u8>> {
    let mut text = Vec::new(rt.alloc());
    let mut piece = [0; 4096];
    for _ in 0..u64::MAX {
        let count = rt.stdin().read(&mut piece).ok()?.min(4096);
        if count == 0 {
            break;
        }
        append(rt, &mut text, &piece[..count])?;
    }
    Some(text)
}

/// Appends a piece; if memory runs out, says so, and tries once more.
fn append(rt: &HostRuntime, text: &mut Vec<u8>, piece: &[u8]) -> Option<()> {
    if text.extend_from_slice(piece).is_err() {
        println!(rt; "! Memory").ok()?;
        text.extend_from_slice(piece).ok()?;
    }
    Some(())
}

/// Answers the cases of a text by one member, and returns whether everything was printed. After `whole`, connections aren't
/// tried in pieces.
fn answer_all(rt: &HostRuntime, text: &[u8]) -> bool {
    let (mut member, mut is_whole) = (None, false);
    for line in str::from_utf8(text).unwrap_or("no text").lines() {
        is_whole |= line == "whole";
        if !answer(rt, &mut member, is_whole, line) {
            return false;
        }
    }
    true
}

/// Prints a case and its answer, and answers it once more if memory runs out; returns whether everything was printed.
fn answer(rt: &HostRuntime, member: &mut Option<Instance>, is_whole: bool, line: &str) -> bool {
    let mut is_printed = println!(rt; "> {line}").is_ok();
    for _ in 0..2 {
        let case = Case::new(rt.alloc());
        let (verb, rest) = first(line);
        instances::answer(&case, member, is_whole, verb, rest);
        let fault = case.fault();
        let text = case.into_text();
        is_printed &= print!(rt; "{text}").is_ok();
        if let Some(fault) = fault {
            is_printed &= println!(rt; "! {fault:?}").is_ok();
        }
        if fault != Some(CaseFault::Memory) {
            break;
        }
    }
    is_printed
}
