//! Laws of fractions beside those of an ordered field: signs of sums and products, and that a
//! rational has one fraction in lowest terms.
#![tactic(auto)]

ghost use Rattle.q128.specs.Fraction.{Fraction};
ghost use Rattle.fraction_laws.specs.Laws.{SignsAgree, SumSigns, ProductSigns, LowestAreOne, SumsCancel, SolvedFor, SolvedBack};

/// A law: fractions of one rational have one sign. Does nothing.
pub fn signs_agree()
    ensures { (x y : Fraction) → SignsAgree x y }
{}

/// A law: the sign of a sum of two fractions that aren't positive. Does nothing.
pub fn sums_have_signs()
    ensures { (x y : Fraction) → SumSigns x y }
{}

/// A law: the sign of a product. Does nothing.
pub fn products_have_signs()
    ensures { (x y : Fraction) → ProductSigns x y }
{}

/// A law: fractions of one rational in lowest terms are equal. Does nothing.
pub fn lowest_are_one()
    ensures { LowestAreOne }
{}

/// A law: what is added to both of two fractions may be taken away. Does nothing.
pub fn sums_cancel()
    ensures { SumsCancel }
{}

/// A law: an equation of fractions may be solved for a number whose factor isn't 0. Does nothing.
pub fn equations_are_solved()
    ensures there { SolvedFor }
    ensures back { SolvedBack }
{}
