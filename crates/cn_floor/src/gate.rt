//! What a worker asks before it lets clients in, on or out.

use std::sync::Wait;

/// What a worker is about to do.
#[derive(Clone, Copy, Debug, PartialEq, Eq)]
pub enum Moment {
    /// A client comes in.
    Enter,
    /// Tokens pass a balancer.
    Pass,
    /// Tokens leave by an exit.
    Leave,
}

/// Holds workers up: each asks it before it lets clients in, on or out, by one atomic step.
pub trait Gate {
    /// The worker with this number is about to make a step of this kind. It may be made to wait.
    fn before<R: Wait>(&self, rt: &R, worker: u32, moment: Moment);
}

/// A gate that lets each worker on at once.
pub struct OpenGate;

impl Gate for OpenGate {
    fn before<R: Wait>(&self, _rt: &R, _worker: u32, _moment: Moment) {}
}

/// What is asked before each of these steps of one worker.
pub trait Pause {
    /// A step of this kind comes.
    fn before(&self, moment: Moment);
}

/// A gate, asked in a worker's name.
#[derive(Drop)]
pub(crate) struct Asked<'r, G: Gate, R: Wait> {
    pub(crate) rt: &'r R,
    pub(crate) gate: &'r G,
    pub(crate) worker: u32,
}

impl<'r, G: Gate, R: Wait> Pause for Asked<'r, G, R> {
    fn before(&self, moment: Moment) {
        self.gate.before(self.rt, self.worker, moment);
    }
}

/// Nobody is asked.
#[derive(Drop)]
pub struct NoPause;

impl Pause for NoPause {
    fn before(&self, _moment: Moment) {}
}
