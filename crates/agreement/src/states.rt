//! The states of one run, in plain numbers: a setup is opened into an instance, and an instance is ended into an outcome.
use board::Table;
use closing::Phase;

// A run before its first step: nodes are marked faulty, and cells are proposed.
#[derive(Drop)]
pub struct Setup {
    pub(crate) table: Table,
}

// A run in its steps. The round counts from 1 and is 101 after the last.
#[derive(Drop)]
pub struct Instance {
    pub(crate) table: Table,
    pub(crate) phase: Phase,
    pub(crate) round: usize,
}

// What may happen to an instance: something is sent, or the step is closed.
#[derive(Clone, Copy)]
pub(crate) enum Event {
    Send,
    Close,
}

// A run that has ended: decisions can be asked for.
#[derive(Drop)]
pub struct Outcome {
    pub(crate) table: Table,
}
