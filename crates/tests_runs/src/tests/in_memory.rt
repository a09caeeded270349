//! Runs into memory: what is asked of them, and what they leave.
ghost use Rattle.mimic_trial.specs.Trial.{AllCanRun};

use libtest_mimic::{
    Arguments, Clock, ColorSetting, Conclusion, FormatSetting, RunError, Schedule, Sink, Spawner,
    Stopwatch, Task, Trial, run, run_from_queue, run_here,
};
use mimic_testkit::{Entry, FaultyWriter, TwoReadings, known_trials};
use std::alloc::{AllocError, Global};
use std::process::Abort;
use std::test::Fail;

// What is asked of a run.
#[derive(Clone, Copy)]
pub(super) struct Asked {
    pub(super) include_ignored: bool,
    pub(super) ignored: bool,
    pub(super) test: bool,
    pub(super) bench: bool,
    pub(super) list: bool,
    pub(super) exact: bool,
    pub(super) quiet: bool,
    pub(super) report_time: bool,
    pub(super) threads: Option<usize>,
    pub(super) color: Option<ColorSetting>,
    pub(super) format: Option<FormatSetting>,
    pub(super) skip: Option<&'static str>,
    pub(super) filter: Option<&'static str>,
}

// What is asked by no words.
pub(super) const NOTHING: Asked = Asked {
    include_ignored: false,
    ignored: false,
    test: false,
    bench: false,
    list: false,
    exact: false,
    quiet: false,
    report_time: false,
    threads: None,
    color: None,
    format: None,
    skip: None,
    filter: None,
};

// A vector of this text, if there is one.
fn of_one(alloc: Global, text: Option<&str>) -> Result<Vec<String>, AllocError> {
    let mut texts = Vec::new(alloc);
    if let Some(text) = text {
        texts.push(String::from_str(alloc, text)?)?;
    }
    Ok(texts)
}

// The arguments that ask for this.
pub(super) fn asking(alloc: Global, asked: &Asked) -> Result<Arguments, AllocError> {
    let mut args = Arguments::new(alloc);
    args.include_ignored = asked.include_ignored;
    args.ignored = asked.ignored;
    args.test = asked.test;
    args.bench = asked.bench;
    args.list = asked.list;
    args.exact = asked.exact;
    args.quiet = asked.quiet;
    args.report_time = asked.report_time;
    args.test_threads = asked.threads;
    args.color = asked.color;
    args.format = asked.format;
    args.skip = of_one(alloc, asked.skip)?;
    args.filter = of_one(alloc, asked.filter)?;
    Ok(args)
}

// What a run leaves.
#[derive(Drop)]
pub(super) struct Left {
    pub(super) conclusion: Conclusion,
    pub(super) writer: FaultyWriter,
    pub(super) elapsed: Option<u64>,
}

impl Left {
    fn of<C: Clock>(
        conclusion: Conclusion,
        sink: Sink<FaultyWriter>,
        watch: &Stopwatch<C>,
    ) -> Left {
        Left {
            conclusion,
            writer: sink.into_inner(),
            elapsed: watch.elapsed(),
        }
    }

    // How many trials passed, failed, were ignored, were measured and were filtered out.
    pub(super) fn counts(&self) -> [u64; 5] {
        [
            self.conclusion.num_passed,
            self.conclusion.num_failed,
            self.conclusion.num_ignored,
            self.conclusion.num_measured,
            self.conclusion.num_filtered_out,
        ]
    }

    pub(super) fn bytes(&self) -> &[u8] {
        self.writer.bytes.as_slice()
    }
}

// By the calling thread, with this clock.
pub(super) fn run_by_clock<R: Task, C: Clock + Drop>(
    alloc: Global,
    asked: &Asked,
    tests: Vec<Trial<R>>,
    clock: C,
) -> Result<Left, RunError>
    requires { AllCanRun R.can_run tests.items }
{
    let args = asking(alloc, asked)?;
    let mut sink = Sink::new(FaultyWriter::new(alloc));
    let mut watch = Stopwatch::new(clock);
    let conclusion = run_here(alloc, &args, tests, &mut sink, &mut watch, false)?;
    Ok(Left::of(conclusion, sink, &watch))
}

// By as many workers as are asked for, or else by one, with this schedule and this clock.
pub(super) fn run_in_workers<R: Task + Send + 'static, C: Clock + Drop, T: Spawner + 'static>(
    rt: &T,
    alloc: Global,
    asked: &Asked,
    tests: Vec<Trial<R>>,
    clock: C,
    schedule: Schedule,
) -> Result<Left, RunError>
    requires { AllCanRun R.can_run tests.items }
{
    let args = asking(alloc, asked)?;
    let mut sink = Sink::new(FaultyWriter::new(alloc));
    let mut watch = Stopwatch::new(clock);
    let conclusion = match schedule {
        Schedule::Shares => run(rt, alloc, &args, tests, &mut sink, &mut watch, 1, false)?,
        Schedule::Queue => {
            run_from_queue(rt, alloc, &args, tests, &mut sink, &mut watch, 1, false)?
        }
    };
    Ok(Left::of(conclusion, sink, &watch))
}

// By the calling thread, with a clock that never moves.
pub(super) fn run_ample<R: Task>(
    alloc: Global,
    asked: &Asked,
    tests: Vec<Trial<R>>,
) -> Result<Left, RunError>
    requires { AllCanRun R.can_run tests.items }
{
    run_by_clock(alloc, asked, tests, TwoReadings::still())
}

// The same of the trials of a table.
pub(super) fn run_known(alloc: Global, asked: &Asked, table: &[Entry]) -> Result<Left, RunError> {
    let tests = known_trials(alloc, table)?;
    run_ample(alloc, asked, tests)
}

// What is asked of a run of a table, and the text that it begins with, or that is the whole one.
pub(super) struct Case {
    pub(super) asked: Asked,
    pub(super) table: &'static [Entry],
    pub(super) is_whole: bool,
    pub(super) text: &'static str,
}

pub(super) fn check_cases(rt: &impl Abort, alloc: Global, cases: &[Case]) -> Result<(), Fail> {
    for case in cases {
        let left = run_known(alloc, &case.asked, case.table)?;
        assert!(rt;
            left.bytes().starts_with(case.text.as_bytes()),
            "{}",
            case.text
        );
        assert!(rt;
            !case.is_whole || left.bytes().len() == case.text.len(),
            "{}",
            case.text
        );
    }
    Ok(())
}
