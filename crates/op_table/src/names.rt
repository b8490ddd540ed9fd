ghost use Rattle.std.specs.Prelude.{◌≡◌, ◌≤◌};
ghost use Rattle.op_table.specs.Names.{name_of};

// The mnemonic of an opcode (JVMS 7).
pub(crate) fn name_at(opcode: u8) -> &'static str
    requires { opcode ≤ 201 }
    ensures { result.now ≡ name_of opcode }
{
    match opcode {
        0..=20 => constant_name(opcode),
        21..=53 => load_name(opcode),
        54..=86 => store_name(opcode),
        87..=95 => stack_name(opcode),
        96..=132 => math_name(opcode),
        133..=147 => conversion_name(opcode),
        148..=166 => comparison_name(opcode),
        167..=177 => control_name(opcode),
        178..=195 => reference_name(opcode),
        _ => extended_name(opcode),
    }
}

// The names of constants.
fn constant_name(opcode: u8) -> &'static str
    requires { opcode ≤ 20 }
    ensures { result.now ≡ name_of opcode }
{
    match opcode {
        0 => "nop",
        1 => "aconst_null",
        2 => "iconst_m1",
        3 => "iconst_0",
        4 => "iconst_1",
        5 => "iconst_2",
        6 => "iconst_3",
        7 => "iconst_4",
        8 => "iconst_5",
        9 => "lconst_0",
        10 => "lconst_1",
        11 => "fconst_0",
        12 => "fconst_1",
        13 => "fconst_2",
        14 => "dconst_0",
        15 => "dconst_1",
        16 => "bipush",
        17 => "sipush",
        18 => "ldc",
        19 => "ldc_w",
        20 => "ldc2_w",
        _ => unreachable!(),
    }
}

// The names of loads.
fn load_name(opcode: u8) -> &'static str
    requires first { 21 ≤ opcode }
    requires last { opcode ≤ 53 }
    ensures { result.now ≡ name_of opcode }
{
    match opcode {
        21 => "iload",
        22 => "lload",
        23 => "fload",
        24 => "dload",
        25 => "aload",
        26 => "iload_0",
        27 => "iload_1",
        28 => "iload_2",
        29 => "iload_3",
        30 => "lload_0",
        31 => "lload_1",
        32 => "lload_2",
        33 => "lload_3",
        34 => "fload_0",
        35 => "fload_1",
        36 => "fload_2",
        37 => "fload_3",
        38 => "dload_0",
        39 => "dload_1",
        40 => "dload_2",
        41 => "dload_3",
        42 => "aload_0",
        43 => "aload_1",
        44 => "aload_2",
        45 => "aload_3",
        46 => "iaload",
        47 => "laload",
        48 => "faload",
        49 => "daload",
        50 => "aaload",
        51 => "baload",
        52 => "caload",
        53 => "saload",
        _ => unreachable!(),
    }
}

// The names of stores.
fn store_name(opcode: u8) -> &'static str
    requires first { 54 ≤ opcode }
    requires last { opcode ≤ 86 }
    ensures { result.now ≡ name_of opcode }
{
    match opcode {
        54 => "istore",
        55 => "lstore",
        56 => "fstore",
        57 => "dstore",
        58 => "astore",
        59 => "istore_0",
        60 => "istore_1",
        61 => "istore_2",
        62 => "istore_3",
        63 => "lstore_0",
        64 => "lstore_1",
        65 => "lstore_2",
        66 => "lstore_3",
        67 => "fstore_0",
        68 => "fstore_1",
        69 => "fstore_2",
        70 => "fstore_3",
        71 => "dstore_0",
        72 => "dstore_1",
        73 => "dstore_2",
        74 => "dstore_3",
        75 => "astore_0",
        76 => "astore_1",
        77 => "astore_2",
        78 => "astore_3",
        79 => "iastore",
        80 => "lastore",
        81 => "fastore",
        82 => "dastore",
        83 => "aastore",
        84 => "bastore",
        85 => "castore",
        86 => "sastore",
        _ => unreachable!(),
    }
}

// The names of the operand stack.
fn stack_name(opcode: u8) -> &'static str
    requires first { 87 ≤ opcode }
    requires last { opcode ≤ 95 }
    ensures { result.now ≡ name_of opcode }
{
    match opcode {
        87 => "pop",
        88 => "pop2",
        89 => "dup",
        90 => "dup_x1",
        91 => "dup_x2",
        92 => "dup2",
        93 => "dup2_x1",
        94 => "dup2_x2",
        95 => "swap",
        _ => unreachable!(),
    }
}

// The names of arithmetic.
fn math_name(opcode: u8) -> &'static str
    requires first { 96 ≤ opcode }
    requires last { opcode ≤ 132 }
    ensures { result.now ≡ name_of opcode }
{
    match opcode {
        96 => "iadd",
        97 => "ladd",
        98 => "fadd",
        99 => "dadd",
        100 => "isub",
        101 => "lsub",
        102 => "fsub",
        103 => "dsub",
        104 => "imul",
        105 => "lmul",
        106 => "fmul",
        107 => "dmul",
        108 => "idiv",
        109 => "ldiv",
        110 => "fdiv",
        111 => "ddiv",
        112 => "irem",
        113 => "lrem",
        114 => "frem",
        115 => "drem",
        116 => "ineg",
        117 => "lneg",
        118 => "fneg",
        119 => "dneg",
        120 => "ishl",
        121 => "lshl",
        122 => "ishr",
        123 => "lshr",
        124 => "iushr",
        125 => "lushr",
        126 => "iand",
        127 => "land",
        128 => "ior",
        129 => "lor",
        130 => "ixor",
        131 => "lxor",
        132 => "iinc",
        _ => unreachable!(),
    }
}

// The names of conversions.
fn conversion_name(opcode: u8) -> &'static str
    requires first { 133 ≤ opcode }
    requires last { opcode ≤ 147 }
    ensures { result.now ≡ name_of opcode }
{
    match opcode {
        133 => "i2l",
        134 => "i2f",
        135 => "i2d",
        136 => "l2i",
        137 => "l2f",
        138 => "l2d",
        139 => "f2i",
        140 => "f2l",
        141 => "f2d",
        142 => "d2i",
        143 => "d2l",
        144 => "d2f",
        145 => "i2b",
        146 => "i2c",
        147 => "i2s",
        _ => unreachable!(),
    }
}

// The names of comparisons and tests.
fn comparison_name(opcode: u8) -> &'static str
    requires first { 148 ≤ opcode }
    requires last { opcode ≤ 166 }
    ensures { result.now ≡ name_of opcode }
{
    match opcode {
        148 => "lcmp",
        149 => "fcmpl",
        150 => "fcmpg",
        151 => "dcmpl",
        152 => "dcmpg",
        153 => "ifeq",
        154 => "ifne",
        155 => "iflt",
        156 => "ifge",
        157 => "ifgt",
        158 => "ifle",
        159 => "if_icmpeq",
        160 => "if_icmpne",
        161 => "if_icmplt",
        162 => "if_icmpge",
        163 => "if_icmpgt",
        164 => "if_icmple",
        165 => "if_acmpeq",
        166 => "if_acmpne",
        _ => unreachable!(),
    }
}

// The names of jumps, switches and returns.
fn control_name(opcode: u8) -> &'static str
    requires first { 167 ≤ opcode }
    requires last { opcode ≤ 177 }
    ensures { result.now ≡ name_of opcode }
{
    match opcode {
        167 => "goto",
        168 => "jsr",
        169 => "ret",
        170 => "tableswitch",
        171 => "lookupswitch",
        172 => "ireturn",
        173 => "lreturn",
        174 => "freturn",
        175 => "dreturn",
        176 => "areturn",
        177 => "return",
        _ => unreachable!(),
    }
}

// The names of fields, calls, objects and monitors.
fn reference_name(opcode: u8) -> &'static str
    requires first { 178 ≤ opcode }
    requires last { opcode ≤ 195 }
    ensures { result.now ≡ name_of opcode }
{
    match opcode {
        178 => "getstatic",
        179 => "putstatic",
        180 => "getfield",
        181 => "putfield",
        182 => "invokevirtual",
        183 => "invokespecial",
        184 => "invokestatic",
        185 => "invokeinterface",
        186 => "invokedynamic",
        187 => "new",
        188 => "newarray",
        189 => "anewarray",
        190 => "arraylength",
        191 => "athrow",
        192 => "checkcast",
        193 => "instanceof",
        194 => "monitorenter",
        195 => "monitorexit",
        _ => unreachable!(),
    }
}

// The names of the extended opcodes.
fn extended_name(opcode: u8) -> &'static str
    requires first { 196 ≤ opcode }
    requires last { opcode ≤ 201 }
    ensures { result.now ≡ name_of opcode }
{
    match opcode {
        196 => "wide",
        197 => "multianewarray",
        198 => "ifnull",
        199 => "ifnonnull",
        200 => "goto_w",
        201 => "jsr_w",
        _ => unreachable!(),
    }
}
