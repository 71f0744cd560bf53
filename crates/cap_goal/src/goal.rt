//! A goal: a state, and what is still to be done.
use crate::state::State;
use crate::task::Task;

/// A state, and the tasks that are to be done from it. The last one is its head.
pub struct Goal<'a> {
    pub state: State,
    pub tasks: Vec<Task<'a>>,
}

impl Drop for Goal<'_> {
    fn drop(self) {
        let Goal { state: _, tasks: _ } = self;
    }
}
