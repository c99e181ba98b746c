// How far a reader is.
use crate::faults::ObjFault;
use p9_steps::State;

/// So many bytes were taken in whole fields, which led to this state.
#[derive(Drop)]
pub(crate) struct Place {
    pub taken: usize,
    pub state: State,
}

/// A reader goes on from a place, or keeps a fault.
#[derive(Drop)]
pub(crate) enum Progress {
    Reading(Place),
    Failed(ObjFault),
}
