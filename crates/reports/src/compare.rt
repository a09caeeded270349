//! Prints how a report differs from an older one.
use crate::faults::{refuse, refuse_output, status_of_end};
use crate::input::Input;
use crate::line::Compare;
use crate::{CANNOT_RUN, output, random_hashes};
use mimic_compare::{ComparisonOptions, ComparisonVerdict, write_comparison};
use mimic_printer::OutputFault;
use std::alloc::Global;
use std::hash::RandomState;

// Prints what became of each kind and name, and why an input is no whole report. Nothing is compared if a file can't be opened: all that
// the other one has would look new, or gone. Nor is it if nothing of the older report could be read.
pub(crate) fn run(rt: &HostRuntime, alloc: Global, compare: &Compare) -> u8 {
    let old = open(rt, compare.old.as_str());
    let new = open(rt, compare.new.as_str());
    let (Some(old), Some(new)) = (old, new) else {
        return CANNOT_RUN;
    };
    let Some(hash_builder) = random_hashes(rt) else {
        return CANNOT_RUN;
    };
    match print(rt, alloc, hash_builder, compare, old, new) {
        Ok(verdict) => {
            status_of_end(rt, compare.old.as_str(), &verdict.old);
            status_of_end(rt, compare.new.as_str(), &verdict.new);
            verdict.status()
        }
        Err(fault) => refuse_output(rt, &fault),
    }
}

// Opens a file, or prints why it can't.
fn open<'a>(rt: &'a HostRuntime, file: &'a str) -> Option<Input<'a>> {
    Input::open(rt, file)
        .map_err(|error| refuse(rt, file, &error))
        .ok()
}

fn print<'a>(
    rt: &'a HostRuntime,
    alloc: Global,
    hash_builder: RandomState,
    compare: &Compare,
    old: Input<'a>,
    new: Input<'a>,
) -> Result<ComparisonVerdict, OutputFault> {
    let options = ComparisonOptions {
        slower: compare.slower,
        lists_not_run: compare.lists_not_run,
    };
    let mut sink = output(rt, alloc)?;
    write_comparison(alloc, hash_builder, old, new, &options, &mut sink)
}
