use crate::Text;

/// The method that is asked for: the name of its class, its own name and its descriptor.
#[derive(Drop)]
pub struct Target {
    pub class: Text,
    pub method: Text,
    pub desc: Text,
}
