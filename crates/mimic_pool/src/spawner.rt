//! What starts threads.
use std::rt::Clock;
use std::sync::Wait;
use std::thread::Threads;

/// What starts worker threads, waits for them, and reads the clock of their trials' times, as the handle that `main` gets does.
pub trait Spawner: Threads + Wait + Clock + Copy + Drop + Send {}

impl<T: Threads + Wait + Clock + Copy + Drop + Send> Spawner for T {}
