ghost use Rattle.std.specs.Prelude.{◌≡◌};

use class_pool::{Bytes, Pool, Sequence, Text};
use std::marker::Model;

/// A class that was read from a file, as the grammar has it. Contracts see what the file says of it.
#[derive(Drop)]
pub struct Class {
    pub(crate) record: ClassRecord,
}

impl Model for Class {
    ghost use Rattle.class_reader.specs.declared.class.ClassRecord.{ClassRecord};
    ghost use Rattle.class_reader.specs.Valid.{IsClass};

    ghost Value = { ClassRecord };

    ghost view = { λ c. c.record };

    ghost invariant = { λ c. IsClass c.record };
}

impl Class {
    ghost use Rattle.class_reader.specs.Valid.{IsClass};

    /// What the file says of the class.
    pub fn record(&self) -> &ClassRecord
        ensures same { result.now ≡ self.now }
        ensures valid { IsClass self.now }
    {
        &self.record
    }
}

/// What a class file says of a class (JVMS 4.1).
#[derive(Drop)]
pub struct ClassRecord {
    /// The major version, 45 to 65.
    pub major: u16,
    /// The access flags (JVMS 4.1, table 4.1-B).
    pub flags: u16,
    pub name: Text,
    /// The name of the direct superclass. A class that is read from a file always has one.
    pub super_name: Option<Text>,
    /// The names of the direct superinterfaces, in order.
    pub interfaces: Sequence<Text>,
    pub fields: Sequence<Field>,
    pub methods: Sequence<Method>,
    /// The constant pool, which the code's operands name entries of.
    pub pool: Pool,
}

/// A field that a class declares (JVMS 4.5).
#[derive(Drop)]
pub struct Field {
    /// The access flags (JVMS 4.5, table 4.5-A).
    pub flags: u16,
    pub name: Text,
    /// A field descriptor (JVMS 4.3.2).
    pub desc: Text,
}

/// A method that a class declares (JVMS 4.6).
#[derive(Drop)]
pub struct Method {
    /// The access flags (JVMS 4.6, table 4.6-A).
    pub flags: u16,
    pub name: Text,
    /// A method descriptor (JVMS 4.3.3).
    pub desc: Text,
    /// None exactly where the method is native or abstract.
    pub code: Option<Code>,
}

/// The code of a method (JVMS 4.7.3).
#[derive(Drop)]
pub struct Code {
    /// How many words the operand stack holds at most.
    pub max_stack: u16,
    /// How many words the locals take.
    pub max_locals: u16,
    /// The instructions' bytes, 1 to 65,535.
    pub bytes: Bytes,
    /// The exception table, in the order in which it is searched.
    pub handlers: Sequence<Handler>,
}

/// An entry of an exception table (JVMS 4.7.3): from `start` on and before `end` what is thrown goes on at
/// `handler`.
#[derive(Drop)]
pub struct Handler {
    pub start: u16,
    pub end: u16,
    pub handler: u16,
    /// The name of the class whose instances are caught. None catches everything.
    pub catch: Option<Text>,
}
