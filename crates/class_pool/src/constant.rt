//! The entries of the constant pool (JVMS 4.4).

ghost use Rattle.std.specs.Prelude.{◌≡◌, ◌<◌, ◌^◌};

use crate::text::Text;

/// An entry of the constant pool. Numbers are kept as the bits that stand in the file.
#[derive(Drop)]
pub enum Constant {
    /// A text (JVMS 4.4.7).
    Utf8(Text),
    /// An int (JVMS 4.4.4).
    Integer(u32),
    /// A float (JVMS 4.4.4).
    Float(u32),
    /// A long, which takes two indices (JVMS 4.4.5).
    Long(u64),
    /// A double, which takes two indices (JVMS 4.4.5).
    Double(u64),
    /// A class, by the index of its name (JVMS 4.4.1).
    Class(u16),
    /// A string, by the index of its text (JVMS 4.4.3).
    String(u16),
    /// A field (JVMS 4.4.2).
    Fieldref { class: u16, name_and_type: u16 },
    /// A method of a class (JVMS 4.4.2).
    Methodref { class: u16, name_and_type: u16 },
    /// A method of an interface (JVMS 4.4.2).
    InterfaceMethodref { class: u16, name_and_type: u16 },
    /// A name and a descriptor, by their indices (JVMS 4.4.6).
    NameAndType { name: u16, descriptor: u16 },
    /// A method handle, by its kind and what it refers to (JVMS 4.4.8).
    MethodHandle { kind: u8, reference: u16 },
    /// A method's type, by the index of its descriptor (JVMS 4.4.9).
    MethodType(u16),
    /// A constant that is computed (JVMS 4.4.10).
    Dynamic { bootstrap: u16, name_and_type: u16 },
    /// A call site that is computed (JVMS 4.4.10).
    InvokeDynamic { bootstrap: u16, name_and_type: u16 },
    /// A module, by the index of its name (JVMS 4.4.11).
    Module(u16),
    /// A package, by the index of its name (JVMS 4.4.12).
    Package(u16),
}

impl Constant {
    ghost use Rattle.class_pool.specs.Pool.{is_wide, size_of};

    /// Whether the entry takes two indices (JVMS 4.4.5).
    pub fn is_wide(&self) -> bool
        ensures { result ≡ is_wide self.now }
    {
        matches!(self, Constant::Long(_) | Constant::Double(_))
    }

    /// How many bytes the entry takes in the file, its tag included.
    pub(crate) fn size(&self) -> u32
        requires { size_of self.now < 2 ^ 32 }
        ensures { result ≡ size_of self.now }
    {
        match self {
            Constant::Utf8(text) => 3 + text.as_slice().len() as u32,
            Constant::Integer(_) | Constant::Float(_) => 5,
            Constant::Long(_) | Constant::Double(_) => 9,
            Constant::Class(_)
            | Constant::String(_)
            | Constant::MethodType(_)
            | Constant::Module(_)
            | Constant::Package(_) => 3,
            Constant::MethodHandle { .. } => 4,
            Constant::Fieldref { .. }
            | Constant::Methodref { .. }
            | Constant::InterfaceMethodref { .. }
            | Constant::NameAndType { .. }
            | Constant::Dynamic { .. }
            | Constant::InvokeDynamic { .. } => 5,
        }
    }
}
