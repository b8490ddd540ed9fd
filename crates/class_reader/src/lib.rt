//! Class files, read as the written grammar.
#![tactic(auto)]

mod attributes;
mod class;
mod code;
mod declared;
mod fault;
mod flags;
mod indices;
mod kept;
mod laws;
mod members;
mod method_code;
mod reader;
mod texts;

pub use class::{Class, ClassRecord, Code, Field, Handler, Method};
pub use fault::ClassFault;
pub use flags::{
    is_abstract, is_final, is_interface, is_native, is_private, is_protected, is_public, is_static,
    is_synchronized,
};
pub use laws::{is_decided, read_is_class};
pub use reader::read;
