//! Names, lists of bytes, and the constant pool of a class file.
#![tactic(auto)]

mod constant;
mod cursor;
mod entries;
mod fault;
mod laws;
mod links;
mod pool;
mod sequence;
mod target;
mod text;
mod utf8;

pub use constant::Constant;
pub use cursor::{Cursor, Short};
pub use fault::PoolFault;
pub use laws::pool_or_fault;
pub use pool::Pool;
pub use sequence::Sequence;
pub use target::Target;
pub use text::Text;
pub use utf8::is_utf8;

/// A list of bytes.
pub type Bytes = Sequence<u8>;
