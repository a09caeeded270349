//! Which trials run at present.
ghost use Rattle.std.specs.Prelude.{◌≡◌, IfOk, vec_len};

use std::alloc::{AllocError, Global};
use std::sync::Arc;
use std::sync::atomic::{AtomicU64, AtomicUsize, Ordering};

/// Where a thread marks the trial that it runs. Others look at it, so no contract says what it holds.
#[derive(Drop)]
pub struct RunningCell {
    // The trial's place and one; 0 if none runs.
    mark: AtomicU64,
    // It keeps the marks of two threads out of one line of a processor's cache.
    _apart: [u64; 7],
}

impl RunningCell {
    // No trial runs yet.
    fn new() -> RunningCell {
        RunningCell {
            mark: AtomicU64::new(0),
            _apart: [0; 7],
        }
    }

    /// Marks that the trial at the place runs now.
    #[inline]
    pub fn set(&self, place: usize) {
        self.mark
            .store((place as u64).wrapping_add(1), Ordering::Release);
    }

    /// Marks that no trial runs now.
    #[inline]
    pub fn clear(&self) {
        self.mark.store(0, Ordering::Release);
    }

    /// The place of the trial that runs now, counted from 0 among the selected ones.
    pub fn place(&self) -> Option<usize> {
        let place = self.mark.load(Ordering::Acquire).checked_sub(1)?;
        Some(place as usize)
    }
}

/// Which trials of a run are being run, for another thread that looks at them meanwhile. It changes nothing in the run, and it is
/// for one run: the threads of a second one would get no cells.
#[derive(Drop)]
pub struct RunningTrials {
    // One for each thread that runs trials.
    cells: Vec<RunningCell>,
    // How many threads have asked for one.
    asked: AtomicUsize,
}

impl RunningTrials {
    /// No trial runs yet. At most `threads` will at the same time, and each has a cell.
    pub fn new(alloc: Global, threads: usize) -> Result<RunningTrials, AllocError>
        ensures { IfOk result (λ running. vec_len running.cells ≡ threads) }
    {
        let mut cells = Vec::new(alloc);
        cells.resize_with(threads, RunningCell::new)?;
        let asked = AtomicUsize::new(0);
        Ok(RunningTrials { cells, asked })
    }

    /// The cells of all threads.
    pub fn cells(&self) -> &[RunningCell]
        ensures { result.now ≡ self.now.cells.items }
    {
        self.cells.as_slice()
    }

    /// The cell of a thread that is about to run trials. Each call returns another one, which is only tested, and `None` after the last.
    pub fn next_cell(&self) -> Option<&RunningCell> {
        self.cells.get(self.next_number())
    }

    // The number of the next thread's cell.
    pub(crate) fn next_number(&self) -> usize {
        self.asked.fetch_add(1, Ordering::Relaxed)
    }

    // The cell of this number, from 0.
    pub(crate) fn cell(&self, number: usize) -> Option<&RunningCell> {
        self.cells.get(number)
    }
}
