//! What one worker does.
ghost use Rattle.std.specs.Prelude.{◌≡◌, ◌++◌, ◌+◌, ◌≤◌, ◌<◌, ◌^◌, [], List, length, vec_capacity, vec_len};
ghost use Rattle.mimic_trial.specs.Places.{Placed};
ghost use Rattle.mimic_pool.specs.Answers.{Answers, HasWorked};
ghost use Rattle.mimic_pool.specs.Share.{AllRunners, items_of};

use crate::reports::Reports;
use crate::row_buffer::RowBuffer;
use crate::share::{Assigned, Share};
use crate::source::Source;
use mimic_trial::{Outcome, Task, run_unless};

/// Runs the share in its order, reports each row when its trial has ended, and returns all of them.
///
/// A runner that is ignored is dropped without a call. A row that could not be reported is returned all the same. All are
/// put into `rows`, which has room for them.
pub fn work<T: Task, R: Reports>(
    share: Share<T>,
    test_mode: bool,
    reports: &mut R,
    rows: Vec<(usize, Outcome)>,
) -> Vec<(usize, Outcome)>
    requires runnable { AllRunners T.can_run share }
    requires empty { vec_len rows ≡ 0 }
    requires fits { length (items_of share) ≤ vec_capacity rows }
    requires told { R.told_of reports.old + length (items_of share) < 2 ^ 64 }
    requires refusals { R.refused_by reports.old + length (items_of share) < 2 ^ 64 }
    ensures answers { Answers T.gives test_mode (items_of share) result.items }
    ensures counted { R.told_of reports.new + R.refused_by reports.new
        ≡ R.told_of reports.old + R.refused_by reports.old + length (items_of share) }
    ensures heard { (rows : List Placed) → R.heard reports.old rows
        → R.heard reports.new (rows ++ result.items) }
{
    let (_, rows) = work_from(share.into_remaining(), test_mode, reports, rows);
    rows
}

// Runs the trials of the source, reports each row when its trial has ended, adds it to those in the buffer, and returns the source
// and the buffer.
pub(crate) fn work_from<T: Task, S: Source<T>, R: Reports, O: RowBuffer>(
    source: S,
    test_mode: bool,
    reports: &mut R,
    buffer: O,
) -> (S, O)
    requires ready { S.is_ready source (O.room_in buffer) }
    requires told { R.told_of reports.old + S.most source < 2 ^ 64 }
    requires refusals { R.refused_by reports.old + S.most source < 2 ^ 64 }
    ensures worked { HasWorked S.goes_on T.gives test_mode (R.heard reports.old) (R.heard reports.new) source result.0
        (O.rows_in buffer) (O.rows_in result.1) }
    ensures ended { S.has_ended result.0 }
    ensures counted { R.told_of reports.new + R.refused_by reports.new + length (O.rows_in buffer)
        ≡ R.told_of reports.old + R.refused_by reports.old + length (O.rows_in result.1) }
    ensures room { O.room_in buffer + length (O.rows_in buffer) ≤ O.room_in result.1 + length (O.rows_in result.1) }
{
    let (mut source, mut buffer) = (source, buffer);
    while let Some(item) = source.next(&mut buffer) {
        let Assigned {
            place,
            runner,
            ignored,
        } = item;
        let started = reports.begin(place);
        let outcome = run_unless(ignored, runner, test_mode);
        reports.end(place, started);
        // Reported or not, the row is returned: whoever joins the worker gets it then.
        let _ = reports.tell(place, &outcome);
        buffer.put(place, outcome);
    }
    (source, buffer)
}
