/// The number of a field or of a method: the number that the world gives to its class, and in the class its place
/// among the fields or among the methods.
#[derive(Clone, Copy, PartialEq, Eq)]
pub struct MemberId {
    pub class: u32,
    pub member: u32,
}
