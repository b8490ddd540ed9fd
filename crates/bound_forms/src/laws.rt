//! Laws of forms. Nothing runs here: each contract is the law.

ghost use Rattle.bound_forms.specs.Laws.{GatheredRise, SumsRise, ProductsRise, AtomsStayInOrder};

/// Monomials and atoms are in order where they are put into what is in order; so sums and products are, and no two of their
/// monomials have the same keys.
pub fn forms_are_in_order()
    ensures gathered { GatheredRise }
    ensures sums { SumsRise }
    ensures products { ProductsRise }
    ensures atoms { AtomsStayInOrder }
{}
