ghost use Rattle.std.specs.Prelude.{◌≡◌};

/// Why code is outside what is analysed.
#[derive(Clone, Copy, Debug, PartialEq, Eq)]
pub enum Construct {
    /// A float or a double.
    Float,
    /// `monitorenter` or `monitorexit`.
    Monitor,
    /// `invokedynamic`.
    Dynamic,
    /// A subroutine: `jsr`, `jsr_w` or `ret`.
    Jsr,
    /// `multianewarray`.
    Multiarray,
    /// An entry of the constant pool that the instruction doesn't take.
    Constant,
    /// A static field of reference type.
    StaticRef,
    /// A reference written to a field or an array.
    RefWrite,
    /// A native method.
    Native,
    /// A synchronized method.
    Synchronized,
    /// A method with exception handlers.
    Handler,
    /// A method of an array class.
    ArrayMethod,
    /// No instruction stands at a place that the code leads to.
    Opcode,
    /// A jump to a place where no instruction begins.
    Target,
    /// Code that runs off its end.
    FallsOff,
    /// A class that isn't given.
    MissingClass,
    /// A field or a method that isn't there.
    MissingMember,
    /// Two default methods that a class inherits.
    Ambiguous,
    /// A package-private method, and one of its name in another package.
    PackageOverride,
    /// An abstract method that a call leads to.
    AbstractTarget,
    /// A member or class that the instruction can't be used on.
    Incompatible,
    /// An instruction that is not analysed yet.
    Later,
}

impl Construct {
    ghost use Rattle.op_table.specs.Construct.{word_of};

    /// The word that names the construct in texts.
    pub fn word(&self) -> &'static str
        ensures { result.now ≡ word_of self.now }
    {
        match self {
            Construct::Float => "float",
            Construct::Monitor => "monitor",
            Construct::Dynamic => "dynamic",
            Construct::Jsr => "jsr",
            Construct::Multiarray => "multiarray",
            Construct::Constant => "constant",
            Construct::StaticRef => "static_ref",
            Construct::RefWrite => "ref_write",
            Construct::Native => "native",
            Construct::Synchronized => "synchronized",
            Construct::Handler => "handler",
            Construct::ArrayMethod => "array_method",
            Construct::Opcode => "opcode",
            Construct::Target => "target",
            Construct::FallsOff => "falls_off",
            Construct::MissingClass => "missing_class",
            Construct::MissingMember => "missing_member",
            Construct::Ambiguous => "ambiguous",
            Construct::PackageOverride => "package_override",
            Construct::AbstractTarget => "abstract_target",
            Construct::Incompatible => "incompatible",
            Construct::Later => "later",
        }
    }
}

/// Whether an opcode is analysed.
#[derive(Clone, Copy, Debug, PartialEq, Eq)]
pub enum Support {
    Yes,
    /// It is outside, as this construct.
    No(Construct),
}
