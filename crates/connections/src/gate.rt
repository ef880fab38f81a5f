use std::sync::Wait;

/// What is passed before each call on an object that threads share. It changes nothing that a contract speaks of, and may
/// wait, so that a test can say in which order threads come.
pub trait Gate {
    /// Lets a worker pass with a request. `request` counts these calls of one link from 1.
    fn pass<R: Wait>(&self, rt: &R, worker: u32, request: u64);
}

/// The gate that is always open.
#[derive(Clone, Copy, Debug, PartialEq, Eq, Hash)]
pub struct OpenGate;

impl Gate for OpenGate {
    fn pass<R: Wait>(&self, _rt: &R, _worker: u32, _request: u64) {}
}
