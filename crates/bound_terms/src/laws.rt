//! Laws of values. Nothing runs here: each contract is the law.

ghost use Rattle.bound_terms.specs.Laws.{PowersGo, PowersGrow, PowersOfOne, MaximaAreLeast, SumsHoldParts, ProductsSpread, FloorsGrow, FloorsFall, FloorsOfCaps};

/// Powers and sums of powers: one more of them, more of them, and those of 1.
pub fn powers_grow()
    ensures next { PowersGo }
    ensures more { PowersGrow }
    ensures of_one { PowersOfOne }
{}

/// A maximum and a sum over their parts, and a sum under a product.
pub fn parts_are_bounded()
    ensures maxima { MaximaAreLeast }
    ensures sums { SumsHoldParts }
    ensures products { ProductsSpread }
{}

/// Floors: of a greater expression, of one that is greater by the divisor, and of one that has a cap.
pub fn floors_follow()
    ensures grow { FloorsGrow }
    ensures fall { FloorsFall }
    ensures caps { FloorsOfCaps }
{}
