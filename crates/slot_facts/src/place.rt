/// A slot of a frame, or an argument of its method.
#[derive(Clone, Copy)]
pub enum Place {
    /// The slot with this number: the locals first, and then the operand stack from the bottom.
    Slot(u32),
    /// What the local with this number held when the method was entered.
    Handed(u32),
}
