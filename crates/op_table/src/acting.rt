ghost use Rattle.std.specs.Prelude.{◌≡◌};
ghost use Rattle.op_table.specs.Actions.{action_in, action_of, rows_of, constants, loads, stores, stack, math, conversions, comparisons, control, references, extended};

use crate::acts::{
    Action, Arithmetic, Call, Element, Kind, Logic, Shift, Shuffle, Small, Test, Width,
};
use crate::{Args, Construct, Instr, Support, support};

/// What an instruction does.
#[tactic(auto, unfolding(crate::specs::Actions::action_of))]
pub fn action_of(instr: &Instr) -> Action
    ensures { result ≡ action_of instr.now }
{
    match support(instr.op) {
        Support::Yes => act(instr.op.number(), instr.args),
        Support::No(construct) => Action::Outside(construct),
    }
}

fn act(opcode: u8, args: Args) -> Action
    ensures { result ≡ action_in (rows_of opcode) opcode args }
{
    match opcode {
        0..=20 => constant(opcode, args),
        21..=53 => load(opcode, args),
        54..=86 => store(opcode, args),
        87..=95 => shuffle(opcode, args),
        96..=132 => computation(opcode, args),
        133..=147 => conversion(opcode, args),
        148..=166 => comparison(opcode, args),
        167..=177 => transfer(opcode, args),
        178..=195 => reference(opcode, args),
        _ => extension(opcode, args),
    }
}

fn constant(opcode: u8, args: Args) -> Action
    ensures { result ≡ action_in constants opcode args }
{
    match opcode {
        0 => Action::Nothing,
        1 => Action::PushNull,
        2..=8 => Action::PushInt(i32::from(opcode) - 3),
        9..=10 => Action::PushLong(i64::from(opcode) - 9),
        16..=17 => Action::PushInt(args.number()),
        18..=19 => Action::PushConstant(args.index()),
        20 => Action::PushLongConstant(args.index()),
        _ => Action::Outside(Construct::Opcode),
    }
}

fn load(opcode: u8, args: Args) -> Action
    ensures { result ≡ action_in loads opcode args }
{
    match opcode {
        21 => Action::Load(Kind::Int, args.local()),
        22 => Action::Load(Kind::Long, args.local()),
        25 => Action::Load(Kind::Reference, args.local()),
        26..=29 => Action::Load(Kind::Int, u16::from(opcode) - 26),
        30..=33 => Action::Load(Kind::Long, u16::from(opcode) - 30),
        42..=45 => Action::Load(Kind::Reference, u16::from(opcode) - 42),
        46 => Action::LoadElement(Element::Int),
        47 => Action::LoadElement(Element::Long),
        50 => Action::LoadElement(Element::Reference),
        51 => Action::LoadElement(Element::Byte),
        52 => Action::LoadElement(Element::Char),
        53 => Action::LoadElement(Element::Short),
        _ => Action::Outside(Construct::Opcode),
    }
}

fn store(opcode: u8, args: Args) -> Action
    ensures { result ≡ action_in stores opcode args }
{
    match opcode {
        54 => Action::Store(Kind::Int, args.local()),
        55 => Action::Store(Kind::Long, args.local()),
        58 => Action::Store(Kind::Reference, args.local()),
        59..=62 => Action::Store(Kind::Int, u16::from(opcode) - 59),
        63..=66 => Action::Store(Kind::Long, u16::from(opcode) - 63),
        75..=78 => Action::Store(Kind::Reference, u16::from(opcode) - 75),
        79 => Action::StoreElement(Element::Int),
        80 => Action::StoreElement(Element::Long),
        83 => Action::StoreElement(Element::Reference),
        84 => Action::StoreElement(Element::Byte),
        85 => Action::StoreElement(Element::Char),
        86 => Action::StoreElement(Element::Short),
        _ => Action::Outside(Construct::Opcode),
    }
}

fn shuffle(opcode: u8, _args: Args) -> Action
    ensures { result ≡ action_in stack opcode _args }
{
    match opcode {
        87 => Action::Shuffle(Shuffle::Pop),
        88 => Action::Shuffle(Shuffle::Pop2),
        89 => Action::Shuffle(Shuffle::Dup),
        90 => Action::Shuffle(Shuffle::DupX1),
        91 => Action::Shuffle(Shuffle::DupX2),
        92 => Action::Shuffle(Shuffle::Dup2),
        93 => Action::Shuffle(Shuffle::Dup2X1),
        94 => Action::Shuffle(Shuffle::Dup2X2),
        95 => Action::Shuffle(Shuffle::Swap),
        _ => Action::Outside(Construct::Opcode),
    }
}

fn computation(opcode: u8, args: Args) -> Action
    ensures { result ≡ action_in math opcode args }
{
    match opcode {
        96 => Action::Arithmetic(Arithmetic::Add, Width::Int),
        97 => Action::Arithmetic(Arithmetic::Add, Width::Long),
        100 => Action::Arithmetic(Arithmetic::Subtract, Width::Int),
        101 => Action::Arithmetic(Arithmetic::Subtract, Width::Long),
        104 => Action::Arithmetic(Arithmetic::Multiply, Width::Int),
        105 => Action::Arithmetic(Arithmetic::Multiply, Width::Long),
        108 => Action::Arithmetic(Arithmetic::Divide, Width::Int),
        109 => Action::Arithmetic(Arithmetic::Divide, Width::Long),
        112 => Action::Arithmetic(Arithmetic::Remainder, Width::Int),
        113 => Action::Arithmetic(Arithmetic::Remainder, Width::Long),
        116 => Action::Negate(Width::Int),
        117 => Action::Negate(Width::Long),
        120 => Action::Shift(Shift::Left, Width::Int),
        121 => Action::Shift(Shift::Left, Width::Long),
        122 => Action::Shift(Shift::Right, Width::Int),
        123 => Action::Shift(Shift::Right, Width::Long),
        124 => Action::Shift(Shift::UnsignedRight, Width::Int),
        125 => Action::Shift(Shift::UnsignedRight, Width::Long),
        126 => Action::Logic(Logic::And, Width::Int),
        127 => Action::Logic(Logic::And, Width::Long),
        128 => Action::Logic(Logic::Or, Width::Int),
        129 => Action::Logic(Logic::Or, Width::Long),
        130 => Action::Logic(Logic::Xor, Width::Int),
        131 => Action::Logic(Logic::Xor, Width::Long),
        132 => args.increment(),
        _ => Action::Outside(Construct::Opcode),
    }
}

fn conversion(opcode: u8, _args: Args) -> Action
    ensures { result ≡ action_in conversions opcode _args }
{
    match opcode {
        133 => Action::IntToLong,
        136 => Action::LongToInt,
        145 => Action::Narrow(Small::Byte),
        146 => Action::Narrow(Small::Char),
        147 => Action::Narrow(Small::Short),
        _ => Action::Outside(Construct::Opcode),
    }
}

fn comparison(opcode: u8, args: Args) -> Action
    ensures { result ≡ action_in comparisons opcode args }
{
    match opcode {
        148 => Action::CompareLongs,
        153 => Action::IfZero(Test::Equal, args.distance()),
        154 => Action::IfZero(Test::NotEqual, args.distance()),
        155 => Action::IfZero(Test::Less, args.distance()),
        156 => Action::IfZero(Test::GreaterOrEqual, args.distance()),
        157 => Action::IfZero(Test::Greater, args.distance()),
        158 => Action::IfZero(Test::LessOrEqual, args.distance()),
        159 => Action::IfInts(Test::Equal, args.distance()),
        160 => Action::IfInts(Test::NotEqual, args.distance()),
        161 => Action::IfInts(Test::Less, args.distance()),
        162 => Action::IfInts(Test::GreaterOrEqual, args.distance()),
        163 => Action::IfInts(Test::Greater, args.distance()),
        164 => Action::IfInts(Test::LessOrEqual, args.distance()),
        165 => Action::IfSame(true, args.distance()),
        166 => Action::IfSame(false, args.distance()),
        _ => Action::Outside(Construct::Opcode),
    }
}

fn transfer(opcode: u8, args: Args) -> Action
    ensures { result ≡ action_in control opcode args }
{
    match opcode {
        167 => Action::Goto(args.distance()),
        170..=171 => args.switch(),
        172 => Action::Return(Kind::Int),
        173 => Action::Return(Kind::Long),
        176 => Action::Return(Kind::Reference),
        177 => Action::ReturnNothing,
        _ => Action::Outside(Construct::Opcode),
    }
}

fn reference(opcode: u8, args: Args) -> Action
    ensures { result ≡ action_in references opcode args }
{
    match opcode {
        178 => Action::GetStatic(args.index()),
        179 => Action::PutStatic(args.index()),
        180 => Action::GetField(args.index()),
        181 => Action::PutField(args.index()),
        182 => Action::Call(Call::Virtual, args.index()),
        183 => Action::Call(Call::Special, args.index()),
        184 => Action::Call(Call::Static, args.index()),
        185 => Action::Call(Call::Interface, args.index()),
        187 => Action::New(args.index()),
        188 => Action::NewArray(args.number()),
        189 => Action::NewReferenceArray(args.index()),
        190 => Action::ArrayLength,
        191 => Action::Throw,
        192 => Action::CheckCast(args.index()),
        193 => Action::InstanceOf(args.index()),
        _ => Action::Outside(Construct::Opcode),
    }
}

fn extension(opcode: u8, args: Args) -> Action
    ensures { result ≡ action_in extended opcode args }
{
    match opcode {
        198 => Action::IfNull(true, args.distance()),
        199 => Action::IfNull(false, args.distance()),
        200 => Action::Goto(args.distance()),
        _ => Action::Outside(Construct::Opcode),
    }
}
