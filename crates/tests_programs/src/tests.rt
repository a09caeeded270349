//! What no clause covers: when bytes go out, what is printed on standard error, and that nothing is done after a fault.
mod clocks;
mod equal_names;
mod faults;
mod known_machine;
mod machines;
mod outputs;
mod programs;
mod runs;
mod shards;
mod slow_trials;
mod variables;
