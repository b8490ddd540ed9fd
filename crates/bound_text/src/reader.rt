ghost use Rattle.std.specs.Prelude.{◌≡◌, true, [], IfOk};
ghost use Rattle.bound_terms.specs.Bounds.{term_of};
ghost use Rattle.bound_text.specs.inside.Runs.{is_digit};
ghost use Rattle.bound_text.specs.inside.Expressions.{drawn_with};
ghost use Rattle.bound_text.specs.inside.Sums.{nothing_open, with_digit, with_monomial, with_operand};
ghost use Rattle.bound_text.specs.inside.Readers.{stand_of, between, atom_by, with_leaf, with_maximum, within, at_place, with_kind, with_divisor, with_base, with_letter, with_sum, with_drawn, opened, added, raised, expressed, divided, shut, step, read_term, place_behind};

use crate::digits::{at_least_one, digit_onto, is_digit};
use crate::drawing::Drawing;
use crate::sum::Sum;
use bound_terms::{Base, Bound, Nat};
use std::alloc::{AllocError, Global};

/// What a reader stands in.
#[derive(Clone, Copy, Drop)]
pub(crate) enum Place {
    /// A sum.
    Adding,
    /// A base.
    Raising,
    /// An expression.
    Drawing,
    /// A divisor.
    Dividing,
    /// The bracket behind an exponent.
    Shutting,
}

/// What an expression is to an atom: the atom, or the exponent of powers.
#[derive(Clone, Copy, Drop)]
pub(crate) enum Kind {
    Nat,
    Geo,
    Pow,
}

/// Reads bounds byte by byte. Only what tells one normal form from another is looked at.
#[derive(Drop)]
pub(crate) struct Reader {
    place: Place,
    /// The last letter since the last bracket that opens.
    letter: u8,
    kind: Kind,
    base: u128,
    divisor: Option<u128>,
    drawn: Drawing,
    sum: Sum,
    /// The sums around it, the nearest last.
    around: Vec<Sum>,
}

/// The atom of an expression.
fn atom(kind: Kind, base: u128, n: Nat) -> Bound
    ensures { term_of result ≡ atom_by kind base n }
{
    match kind {
        Kind::Nat => Bound::Nat(n),
        Kind::Geo => Bound::Geo(Base::new(at_least_one(base)), n),
        Kind::Pow => Bound::Pow(Base::new(at_least_one(base)), n),
    }
}

/// What stands behind an expression.
fn place_behind(kind: Kind) -> Place
    ensures { result ≡ place_behind kind }
{
    match kind {
        Kind::Nat => Place::Adding,
        _ => Place::Shutting,
    }
}

impl Reader {
    pub(crate) fn new(alloc: Global) -> Reader
        ensures { stand_of result ≡ between nothing_open [] }
    {
        Reader {
            place: Place::Adding,
            letter: 0,
            kind: Kind::Nat,
            base: 0,
            divisor: None,
            drawn: Drawing::new(alloc),
            sum: Sum::new(alloc),
            around: Vec::new(alloc),
        }
    }

    /// With the atom whose expression ends.
    fn with_leaf(self, alloc: Global) -> Result<Reader, AllocError>
        ensures { IfOk result (λ r. stand_of r ≡ with_leaf (stand_of self)) }
    {
        let divisor = at_least_one(self.divisor.unwrap_or(1));
        let n = Nat::new(self.drawn.into_expression(alloc)?, divisor);
        Ok(Reader {
            place: place_behind(self.kind),
            letter: 0,
            kind: Kind::Nat,
            base: 0,
            divisor: None,
            drawn: Drawing::new(alloc),
            sum: self.sum.with_atom(atom(self.kind, self.base, n))?,
            around: self.around,
        })
    }

    /// With the maximum that ends.
    fn with_maximum(self, alloc: Global) -> Result<Reader, AllocError>
        ensures { IfOk result (λ r. stand_of r ≡ with_maximum (stand_of self).sum (stand_of self).around (stand_of self)) }
    {
        let mut reader = self;
        match reader.around.pop() {
            Some(outer) => {
                let maximum = reader.sum.into_maximum(alloc)?;
                reader.sum = outer.with_atom(maximum)?;
                Ok(reader)
            }
            None => Ok(reader),
        }
    }

    /// With the sum that is the first operand of a maximum.
    fn with_operands(self, alloc: Global) -> Result<Reader, AllocError>
        ensures { IfOk result (λ r. stand_of r ≡ within (stand_of self)) }
    {
        let Reader {
            place,
            letter: _,
            kind,
            base,
            divisor,
            drawn,
            sum,
            mut around,
        } = self;
        around.push(sum)?;
        Ok(Reader {
            place,
            letter: 0,
            kind,
            base,
            divisor,
            drawn,
            sum: Sum::new(alloc),
            around,
        })
    }

    /// With what a bracket opens: the letter in front of it says it.
    fn opened(self, alloc: Global) -> Result<Reader, AllocError>
        ensures { IfOk result (λ r. stand_of r ≡ opened (stand_of self)) }
    {
        match self.letter {
            b't' => Ok(self.at(Place::Drawing)),
            b'x' => self.with_operands(alloc),
            b'o' => Ok(self.with_kind(Kind::Geo)),
            b'w' => Ok(self.with_kind(Kind::Pow)),
            _ => Ok(self.with_divisor(0)),
        }
    }

    fn at(self, place: Place) -> Reader
        ensures { stand_of result ≡ at_place place (stand_of self) }
    {
        let mut reader = self;
        reader.place = place;
        reader.letter = 0;
        reader
    }

    fn with_kind(self, kind: Kind) -> Reader
        ensures { stand_of result ≡ with_kind kind (stand_of self) }
    {
        let mut reader = self;
        reader.place = Place::Raising;
        reader.letter = 0;
        reader.kind = kind;
        reader.base = 0;
        reader
    }

    fn with_divisor(self, divisor: u128) -> Reader
        ensures { stand_of result ≡ with_divisor divisor (stand_of self) }
    {
        let mut reader = self;
        reader.letter = 0;
        reader.divisor = Some(divisor);
        reader
    }

    fn with_base(self, base: u128) -> Reader
        ensures { stand_of result ≡ with_base base (stand_of self) }
    {
        let mut reader = self;
        reader.base = base;
        reader
    }

    fn with_letter(self, letter: u8) -> Reader
        ensures { stand_of result ≡ with_letter letter (stand_of self) }
    {
        let mut reader = self;
        reader.letter = letter;
        reader
    }

    fn with_digit(self, byte: u8) -> Reader
        requires { is_digit byte ≡ true }
        ensures { stand_of result ≡ with_sum (with_digit byte (stand_of self).sum) (stand_of self) }
    {
        let mut reader = self;
        reader.sum = reader.sum.with_digit(byte);
        reader
    }

    fn with_monomial(self, alloc: Global) -> Result<Reader, AllocError>
        ensures { IfOk result (λ r. stand_of r ≡ with_sum (with_monomial (stand_of self).sum) (stand_of self)) }
    {
        let mut reader = self;
        reader.sum = reader.sum.with_monomial(alloc)?;
        Ok(reader)
    }

    fn with_operand(self, alloc: Global) -> Result<Reader, AllocError>
        ensures { IfOk result (λ r. stand_of r ≡ with_sum (with_operand (stand_of self).sum) (stand_of self)) }
    {
        let mut reader = self;
        reader.sum = reader.sum.with_operand(alloc)?;
        Ok(reader)
    }

    fn with_drawn(self, byte: u8) -> Result<Reader, AllocError>
        ensures { IfOk result (λ r. stand_of r ≡ with_drawn (drawn_with byte (stand_of self).drawn) (stand_of self)) }
    {
        let mut reader = self;
        reader.drawn = reader.drawn.with(byte)?;
        Ok(reader)
    }

    fn added(self, alloc: Global, byte: u8) -> Result<Reader, AllocError>
        ensures { IfOk result (λ r. stand_of r ≡ added byte (stand_of self)) }
    {
        if is_digit(byte) {
            Ok(self.with_digit(byte))
        } else if byte == b'+' {
            self.with_monomial(alloc)
        } else if byte == b',' {
            self.with_operand(alloc)
        } else if byte == b')' {
            self.with_maximum(alloc)
        } else if byte == b'(' {
            self.opened(alloc)
        } else if b'a' <= byte && byte <= b'z' {
            Ok(self.with_letter(byte))
        } else {
            Ok(self)
        }
    }

    fn raised(self, byte: u8) -> Reader
        ensures { stand_of result ≡ raised byte (stand_of self) }
    {
        if is_digit(byte) {
            let base = digit_onto(self.base, byte);
            self.with_base(base)
        } else if byte == b',' {
            self.at(Place::Adding)
        } else {
            self
        }
    }

    fn expressed(self, alloc: Global, byte: u8) -> Result<Reader, AllocError>
        ensures { IfOk result (λ r. stand_of r ≡ expressed (stand_of self).divisor byte (stand_of self)) }
    {
        if byte != b')' {
            return self.with_drawn(byte);
        }
        match self.divisor {
            Some(_) => Ok(self.at(Place::Dividing)),
            None => self.with_leaf(alloc),
        }
    }

    fn divided(self, alloc: Global, byte: u8) -> Result<Reader, AllocError>
        ensures { IfOk result (λ r. stand_of r ≡ divided byte (stand_of self)) }
    {
        if is_digit(byte) {
            let divisor = digit_onto(self.divisor.unwrap_or(0), byte);
            Ok(self.with_divisor(divisor))
        } else if byte == b')' {
            self.with_leaf(alloc)
        } else {
            Ok(self)
        }
    }

    fn shut(self, byte: u8) -> Reader
        ensures { stand_of result ≡ shut byte (stand_of self) }
    {
        if byte == b')' {
            self.at(Place::Adding)
        } else {
            self
        }
    }

    /// With one byte more.
    pub(crate) fn with(self, alloc: Global, byte: u8) -> Result<Reader, AllocError>
        ensures { IfOk result (λ r. stand_of r ≡ step byte (stand_of self)) }
    {
        match self.place {
            Place::Adding => self.added(alloc, byte),
            Place::Raising => Ok(self.raised(byte)),
            Place::Drawing => self.expressed(alloc, byte),
            Place::Dividing => self.divided(alloc, byte),
            Place::Shutting => Ok(self.shut(byte)),
        }
    }

    /// The bound of all that was read.
    pub(crate) fn into_bound(self, alloc: Global) -> Result<Bound, AllocError>
        ensures { IfOk result (λ b. term_of b ≡ read_term (stand_of self)) }
    {
        self.sum.into_bound(alloc)
    }
}
