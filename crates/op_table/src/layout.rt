ghost use Rattle.std.specs.Prelude.{◌≡◌, ◌≤◌, OnSome};
ghost use Rattle.op_table.specs.Layouts.{layout_of, wide_form};

/// How the bytes behind an opcode are laid out (JVMS 6.5).
#[derive(Clone, Copy)]
pub(crate) enum Layout {
    Plain(Operand),
    TableSwitch,
    LookupSwitch,
    /// Another opcode stands behind this one, and its operands behind that.
    Wide,
}

/// Operands of a fixed length.
#[derive(Clone, Copy)]
pub(crate) enum Operand {
    /// No operand.
    Bare,
    /// A byte with a sign.
    Byte,
    /// Two bytes with a sign.
    Short,
    /// The kind of an array's elements, in one byte.
    Kind,
    /// A local, in one byte.
    Local,
    /// A local, in one byte, and a byte with a sign.
    Increment,
    /// A local, in two bytes.
    WideLocal,
    /// A local, in two bytes, and two bytes with a sign.
    WideIncrement,
    /// A place of the constant pool, in one byte.
    ByteIndex,
    /// A place of the constant pool, in two bytes.
    Index,
    /// A place of the constant pool, in two bytes, and one byte.
    IndexAndByte,
    /// A place of the constant pool, in two bytes, and two bytes.
    IndexAndShort,
    /// A distance in the code, in two bytes with a sign.
    Jump,
    /// A distance in the code, in four bytes with a sign.
    FarJump,
}

/// The layout of an opcode: none exactly where the number is no opcode.
pub(crate) fn layout_of(opcode: u8) -> Option<Layout>
    ensures value { result ≡ layout_of opcode }
    ensures bound { OnSome result (opcode ≤ 201) }
{
    Some(match opcode {
        0..=15 => Layout::Plain(Operand::Bare),
        16 => Layout::Plain(Operand::Byte),
        17 => Layout::Plain(Operand::Short),
        18 => Layout::Plain(Operand::ByteIndex),
        19..=20 => Layout::Plain(Operand::Index),
        21..=25 => Layout::Plain(Operand::Local),
        26..=53 => Layout::Plain(Operand::Bare),
        54..=58 => Layout::Plain(Operand::Local),
        59..=131 => Layout::Plain(Operand::Bare),
        132 => Layout::Plain(Operand::Increment),
        133..=152 => Layout::Plain(Operand::Bare),
        153..=168 => Layout::Plain(Operand::Jump),
        169 => Layout::Plain(Operand::Local),
        170 => Layout::TableSwitch,
        171 => Layout::LookupSwitch,
        172..=177 => Layout::Plain(Operand::Bare),
        178..=184 => Layout::Plain(Operand::Index),
        185..=186 => Layout::Plain(Operand::IndexAndShort),
        187 => Layout::Plain(Operand::Index),
        188 => Layout::Plain(Operand::Kind),
        189 => Layout::Plain(Operand::Index),
        190..=191 => Layout::Plain(Operand::Bare),
        192..=193 => Layout::Plain(Operand::Index),
        194..=195 => Layout::Plain(Operand::Bare),
        196 => Layout::Wide,
        197 => Layout::Plain(Operand::IndexAndByte),
        198..=199 => Layout::Plain(Operand::Jump),
        200..=201 => Layout::Plain(Operand::FarJump),
        _ => return None,
    })
}

/// The operands behind `wide` and an opcode of this layout: none where it can't be widened.
pub(crate) fn wide_form(layout: Layout) -> Option<Operand>
    ensures { result ≡ wide_form layout }
{
    match layout {
        Layout::Plain(Operand::Local) => Some(Operand::WideLocal),
        Layout::Plain(Operand::Increment) => Some(Operand::WideIncrement),
        _ => None,
    }
}
