use crate::{Frame, Heap, Statics};

/// What an instruction can see: the running frame, the heap and the statics.
#[derive(Drop)]
pub struct Here {
    pub frame: Frame,
    pub heap: Heap,
    pub statics: Statics,
}
