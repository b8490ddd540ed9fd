/// What a walk through a region of code comes to: a region is a loop's, or the method's. Seen from there, each loop
/// inside is one point.
#[derive(Clone, Copy, Debug, PartialEq, Eq)]
pub enum Point {
    /// The block that begins at this place of the code.
    Block(u32),
    /// The loop that is entered at this place of the code.
    Loop(u32),
}
