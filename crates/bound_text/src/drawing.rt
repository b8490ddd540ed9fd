ghost use Rattle.std.specs.Prelude.{◌≡◌, ◌<◌, ◌^◌, true, false, length, IfOk};
ghost use Rattle.bound_text.specs.inside.Runs.{is_digit};
ghost use Rattle.bound_text.specs.inside.Expressions.{nothing_drawn, signed, placed, settled, with_digit_by, with_size, drawn_with};

use crate::digits::{digit_onto, is_digit};
use lin_rows::Lin;
use std::alloc::{AllocError, Global};
use std::marker::Model;

/// An expression, of which the last term is still read.
#[derive(Drop)]
pub(crate) struct Drawing {
    coefficients: Vec<i128>,
    constant: i128,
    is_negative: bool,
    /// The number in front of a size, or alone.
    factor: Option<u128>,
    /// Which size it is in front of.
    variable: Option<u128>,
}

impl Model for Drawing {
    ghost use Rattle.std.specs.Prelude.{◌<◌, ◌^◌, length};
    ghost use Rattle.bound_text.specs.inside.Expressions.{Drawn};

    ghost Value = { Drawn };

    ghost view = { λ d. record { coefficients = d.coefficients.items; constant = d.constant; is_negative = d.is_negative; factor = d.factor; variable = d.variable } };

    ghost invariant = { λ d. length d.coefficients.items < 2 ^ 32 };
}

/// 2^127, one more than `i128` holds.
const HALF: u128 = 1 << 127;

/// The number with its sign, 0 where `i128` doesn't hold it.
fn signed(is_negative: bool, n: u128) -> i128
    ensures { result ≡ signed is_negative n }
{
    if n < HALF {
        let number = n as i128;
        if is_negative { -number } else { number }
    } else if n == HALF && is_negative {
        i128::MIN
    } else {
        0
    }
}

/// The coefficients with that of a variable behind them, and zeros between. One that isn't behind them, or that no expression
/// has room for, is passed over.
fn placed(
    coefficients: Vec<i128>,
    variable: u128,
    coefficient: i128,
) -> Result<Vec<i128>, AllocError>
    requires { length coefficients.items < 2 ^ 32 }
    ensures placed { IfOk result (λ cs. cs.items ≡ placed coefficients.items variable coefficient) }
    ensures room { IfOk result (λ cs. length cs.items < 2 ^ 32) }
{
    let mut coefficients = coefficients;
    let len = coefficients.len() as u128;
    if len <= variable && variable < 4_294_967_295 {
        coefficients.resize(variable as usize, 0)?;
        coefficients.push(coefficient)?;
    }
    Ok(coefficients)
}

impl Drawing {
    /// No term yet.
    pub(crate) fn new(alloc: Global) -> Drawing
        ensures { result ≡ nothing_drawn }
    {
        Drawing {
            coefficients: Vec::new(alloc),
            constant: 0,
            is_negative: false,
            factor: None,
            variable: None,
        }
    }

    /// With the last term put to the others, and the sign of the next one.
    fn settled(self, is_negative: bool) -> Result<Drawing, AllocError>
        ensures { IfOk result (λ d. d ≡ settled is_negative self) }
    {
        let Drawing {
            coefficients,
            constant,
            is_negative: was_negative,
            factor,
            variable,
        } = self;
        match (factor, variable) {
            (factor, Some(v)) => Ok(Drawing {
                coefficients: placed(coefficients, v, signed(was_negative, factor.unwrap_or(1)))?,
                constant,
                is_negative,
                factor: None,
                variable: None,
            }),
            (Some(n), None) => Ok(Drawing {
                coefficients,
                constant: signed(was_negative, n),
                is_negative,
                factor: None,
                variable: None,
            }),
            (None, None) => Ok(Drawing {
                coefficients,
                constant,
                is_negative,
                factor: None,
                variable: None,
            }),
        }
    }

    fn with_digit(self, byte: u8) -> Drawing
        requires { is_digit byte ≡ true }
        ensures { result ≡ with_digit_by self.variable byte self }
    {
        let mut drawing = self;
        match drawing.variable {
            Some(v) => drawing.variable = Some(digit_onto(v, byte)),
            None => drawing.factor = Some(digit_onto(drawing.factor.unwrap_or(0), byte)),
        }
        drawing
    }

    fn with_size(self) -> Drawing
        ensures { result ≡ with_size self }
    {
        let mut drawing = self;
        drawing.variable = Some(0);
        drawing
    }

    /// With one byte more.
    pub(crate) fn with(self, byte: u8) -> Result<Drawing, AllocError>
        ensures { IfOk result (λ d. d ≡ drawn_with byte self) }
    {
        if is_digit(byte) {
            Ok(self.with_digit(byte))
        } else if byte == b'a' {
            Ok(self.with_size())
        } else if byte == b'-' {
            self.settled(true)
        } else if byte == b'+' {
            self.settled(false)
        } else {
            Ok(self)
        }
    }

    /// The expression with its last term.
    pub(crate) fn into_expression(self, alloc: Global) -> Result<Lin, AllocError>
        ensures { IfOk result (λ l. l ≡ record { coefficients = (settled false self).coefficients; constant = (settled false self).constant }) }
    {
        let Drawing {
            coefficients,
            constant,
            ..
        } = self.settled(false)?;
        Lin::new(alloc, coefficients.as_slice(), constant)
    }
}
