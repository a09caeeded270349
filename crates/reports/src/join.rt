//! Joins the reports of shards into one.
use crate::by_name::Absent;
use crate::faults::{hint_of, refuse_all, refuse_write, status_with_running};
use crate::input::Input;
use crate::line::Join;
use crate::{CANNOT_RUN, SUCCESS, TRIALS_FAILED, output, random_hashes};
use mimic_events::{ReadFault, RowsRead};
use mimic_join::{JoinFault, Joined, Refusal, join_cut_reports, join_reports};
use std::alloc::Global;
use std::hash::RandomState;

// Prints the joined report, and why it is cut, or why there is none.
pub(crate) fn run(rt: &HostRuntime, alloc: Global, join: &Join) -> u8 {
    let Some(hash_builder) = random_hashes(rt) else {
        return CANNOT_RUN;
    };
    match print(rt, alloc, hash_builder, join) {
        Ok(Joined::Whole(counts)) if counts.has_failed() => TRIALS_FAILED,
        Ok(Joined::Whole(_)) => SUCCESS,
        Ok(Joined::Cut(reads)) => refuse_shards(rt, alloc, join, &reads),
        Err(fault) => refuse_fault(rt, alloc, join, &fault),
    }
}

fn print(
    rt: &HostRuntime,
    alloc: Global,
    hash_builder: RandomState,
    join: &Join,
) -> Result<Joined, JoinFault> {
    let (reports, shards, equal_names) = (join.files.len(), join.shards, join.equal_names);
    if join.cut && reports > shards {
        return Err(JoinFault::Refused(Refusal::Number { reports, shards }));
    }
    let inputs = Input::all(rt, alloc, &join.files)?;
    let mut sink = output(rt, alloc)?;
    if join.cut {
        join_cut_reports(alloc, hash_builder, inputs, shards, equal_names, &mut sink)
    } else {
        let counts = join_reports(alloc, hash_builder, inputs, shards, equal_names, &mut sink)?;
        Ok(Joined::Whole(counts))
    }
}

// Prints why what was read of shards isn't all, and returns the status.
fn refuse_shards(rt: &HostRuntime, alloc: Global, join: &Join, reads: &[RowsRead]) -> u8 {
    for (file, read) in join.files.iter().zip(reads.iter()) {
        status_with_running(rt, file.as_str(), &read.ending);
    }
    if let Some(absent) = Absent::of(alloc, join) {
        refuse_all(rt, &absent);
    }
    CANNOT_RUN
}

// Prints why there is no joined report, and returns the status.
fn refuse_fault(rt: &HostRuntime, alloc: Global, join: &Join, fault: &JoinFault) -> u8 {
    if let JoinFault::Write(fault) = fault {
        return refuse_write(rt, fault);
    }
    let (named, hint) = (fault.with_names(&join.files), hint_for(fault, join.by_name));
    refuse_all(rt, &format_args!("{named}{hint}"));
    if let JoinFault::Refused(Refusal::Number { .. }) = fault
        && join.by_name
        && let Some(absent) = Absent::of(alloc, join)
    {
        refuse_all(rt, &absent);
    }
    CANNOT_RUN
}

// What a user may have missed. Empty if nothing comes to mind.
fn hint_for(fault: &JoinFault, by_name: bool) -> &'static str {
    match fault {
        JoinFault::Refused(Refusal::Uneven { .. }) if by_name => {
            "; reports are taken in the order of the numbers in their files' names"
        }
        JoinFault::Refused(Refusal::Uneven { .. }) => {
            "; reports are taken in the order of their shards: 0, 1, 2, .., 10, 11; --by-name sorts them"
        }
        JoinFault::Refused(Refusal::NamedTwice { .. }) => {
            "; a suite with equal names needs --equal-names"
        }
        JoinFault::Input {
            place: _,
            fault: ReadFault::WrongLine(number),
        } => hint_of(Some(*number)),
        _ => "",
    }
}
