//! A warning of trials that have equal names.
use crate::output::BLOCK;
use crate::program::Program;
use libtest_mimic::{Selection, Sink, Trial};
use mimic_printer::{Piece, Place, add_pieces};
use mimic_trial::TestInfo;
use std::alloc::{AllocError, Global};
use std::cmp::Ordering;
use std::io::{BufWriter, Write};

impl Program<'_> {
    // Prints the first kind and name, in the order of kinds and names, that several of the selected trials have. Nothing is printed
    // if there are none, if the trials are only listed, or if there is no memory for it.
    pub(crate) fn print_equal_names<R, E: Write>(
        &self,
        alloc: Global,
        selection: &Selection<'_, R>,
        err: &mut E,
    ) {
        if selection.args.list || !self.warns_of_equal_names {
            return;
        }
        let Ok(Some(info)) = first_equal(alloc, selection.trials.as_slice()) else {
            return;
        };
        // It is one write if a block holds it, so that no other program's text comes between its parts.
        let Ok(out) = BufWriter::with_capacity(alloc, BLOCK, err) else {
            return;
        };
        add_warning(&mut Sink::new(out), self.name, info);
    }
}

// The first of these trials, in the order of kinds and names, whose kind and name another has too.
fn first_equal<'a, R>(
    alloc: Global,
    trials: &'a [Trial<R>],
) -> Result<Option<&'a TestInfo>, AllocError> {
    let infos = sorted_infos(alloc, trials)?;
    for place in 1..infos.len() {
        let (info, next) = (infos[place - 1], infos[place]);
        if info.kind == next.kind && info.name == next.name {
            return Ok(Some(info));
        }
    }
    Ok(None)
}

// Adds the warning, and flushes it.
fn add_warning<'a, W: Write>(sink: &mut Sink<W>, program: &'a str, info: &'a TestInfo) {
    add_pieces(
        sink,
        &[
            Piece::Text(program),
            Piece::Text(": warning: several trials are named "),
            Piece::Bracketed(Place::Line, info.kind.as_str()),
            Piece::Escaped(Place::Line, info.name.as_str()),
            Piece::Text("\n"),
        ],
    );
    sink.add_flush();
}

// What is known of these trials, in the order of kinds and, within a kind, of names.
fn sorted_infos<'a, R>(
    alloc: Global,
    trials: &'a [Trial<R>],
) -> Result<Vec<&'a TestInfo>, AllocError> {
    let mut infos = Vec::with_capacity(alloc, trials.len())?;
    for trial in trials {
        infos.push(trial.info())?;
    }
    // A table of hashes would be slow for names that were chosen to collide in it.
    infos.sort_by(by_kind_and_name)?;
    Ok(infos)
}

fn by_kind_and_name(a: &&TestInfo, b: &&TestInfo) -> Ordering {
    (a.kind.as_str(), a.name.as_str()).cmp(&(b.kind.as_str(), b.name.as_str()))
}
