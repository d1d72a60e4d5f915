use std::alloc::Global;
use std::io::Print;
use std::sync::Wait;
use std::thread::Threads;

/// What the rows need from the program: they print, allocate, wait, and start threads.
pub(crate) trait Handles: Threads + Wait + Sync + Print + Alloc<A = Global> {}

impl<R: Threads + Wait + Sync + Print + Alloc<A = Global>> Handles for R {}
