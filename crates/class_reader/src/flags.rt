//! Access flags of classes, fields and methods (JVMS 4.1, 4.5, 4.6).

ghost use Rattle.std.specs.Prelude.{◌≡◌};
ghost use Rattle.class_reader.specs.Flags as flag;

/// Seen by every class.
const ACC_PUBLIC: u16 = 0x0001;
/// Seen by its own class alone.
const ACC_PRIVATE: u16 = 0x0002;
/// Seen by its package and by subclasses.
const ACC_PROTECTED: u16 = 0x0004;
/// A method or field of its class, with no receiver.
const ACC_STATIC: u16 = 0x0008;
/// A class without subclasses.
const ACC_FINAL: u16 = 0x0010;
/// A method that takes a lock.
const ACC_SYNCHRONIZED: u16 = 0x0020;
/// A method whose code is no bytecode.
const ACC_NATIVE: u16 = 0x0100;
/// An interface, and no class.
const ACC_INTERFACE: u16 = 0x0200;
/// A method with no code, or a class with no objects.
const ACC_ABSTRACT: u16 = 0x0400;

/// Whether what has these flags is seen by every class (JVMS 4.6).
pub fn is_public(flags: u16) -> bool
    ensures { result ≡ flag.is_public flags }
{
    flags / ACC_PUBLIC % 2 == 1
}

/// Whether a member with these flags is seen by its own class alone (JVMS 4.6).
pub fn is_private(flags: u16) -> bool
    ensures { result ≡ flag.is_private flags }
{
    flags / ACC_PRIVATE % 2 == 1
}

/// Whether a member with these flags is seen by its package and by subclasses (JVMS 4.6).
pub fn is_protected(flags: u16) -> bool
    ensures { result ≡ flag.is_protected flags }
{
    flags / ACC_PROTECTED % 2 == 1
}

/// Whether a method with these flags is called with no receiver (JVMS 4.6).
pub fn is_static(flags: u16) -> bool
    ensures { result ≡ flag.is_static flags }
{
    flags / ACC_STATIC % 2 == 1
}

/// Whether a class with these flags has no subclasses (JVMS 4.1).
pub fn is_final(flags: u16) -> bool
    ensures { result ≡ flag.is_final flags }
{
    flags / ACC_FINAL % 2 == 1
}

/// Whether a method with these flags takes a lock (JVMS 4.6).
pub fn is_synchronized(flags: u16) -> bool
    ensures { result ≡ flag.is_synchronized flags }
{
    flags / ACC_SYNCHRONIZED % 2 == 1
}

/// Whether the code of a method with these flags is no bytecode (JVMS 4.6).
pub fn is_native(flags: u16) -> bool
    ensures { result ≡ flag.is_native flags }
{
    flags / ACC_NATIVE % 2 == 1
}

/// Whether these are the flags of an interface (JVMS 4.1).
pub fn is_interface(flags: u16) -> bool
    ensures { result ≡ flag.is_interface flags }
{
    flags / ACC_INTERFACE % 2 == 1
}

/// Whether a method with these flags is without code, or a class without objects (JVMS 4.1, 4.6).
pub fn is_abstract(flags: u16) -> bool
    ensures { result ≡ flag.is_abstract flags }
{
    flags / ACC_ABSTRACT % 2 == 1
}
