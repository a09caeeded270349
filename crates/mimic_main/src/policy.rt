//! When bytes go out.
ghost use Rattle.std.specs.Prelude.{◌≡◌};
ghost use Rattle.libtest_mimic.specs.Prelude.{threads_of};
ghost use Rattle.mimic_main.specs.Policy.{policy_for};

use libtest_mimic::{Arguments, FormatSetting};

/// When a buffer writes its bytes to its writer, besides when it has no room and when it is finished.
#[derive(Clone, Copy, Debug, PartialEq, Eq)]
pub enum FlushPolicy {
    /// After each text.
    Always,
    /// At each flush.
    OnFlush,
    /// After each text that ends a line.
    OnLineEnd,
    /// After every second such text: in JSON with one thread, just before each trial runs.
    OnEvenLineEnd,
    /// At no other time.
    WhenFull,
}

impl FlushPolicy {
    /// When the output of a run with these arguments is written out, by `default_threads` threads if these name no number, to a
    /// terminal or not. A run that is killed has left the title and the row of each trial that has ended, in pretty and JSON.
    ///
    /// With one thread an announcement goes out before its trial runs, in one write with the row before it: a pretty report is
    /// flushed there, and in JSON it is each second line, since the title comes first. With more threads the title goes out
    /// before a worker starts, and a row in one write when its trial has ended: of its texts only the last ends a line. What the
    /// buffer can't hold takes more than one write.
    ///
    /// Terse has no lines but the first and the last ones, and goes out when they end, and on a terminal mark by mark. A list
    /// goes out in blocks.
    pub fn of_run(args: &Arguments, default_threads: usize, is_terminal: bool) -> FlushPolicy
        ensures { result ≡ policy_for args.now (threads_of args.now default_threads) is_terminal }
    {
        if args.list {
            return FlushPolicy::WhenFull;
        }
        let in_workers = args.threads(default_threads) > 1;
        match args.format_used() {
            FormatSetting::Pretty if in_workers => FlushPolicy::OnLineEnd,
            FormatSetting::Pretty => FlushPolicy::OnFlush,
            FormatSetting::Terse if is_terminal => FlushPolicy::Always,
            FormatSetting::Terse => FlushPolicy::OnLineEnd,
            FormatSetting::Json if in_workers => FlushPolicy::OnLineEnd,
            FormatSetting::Json => FlushPolicy::OnEvenLineEnd,
        }
    }
}
