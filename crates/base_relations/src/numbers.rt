//! Products and sums that answer None where they pass the limit.

ghost use Rattle.std.specs.Prelude.{◌≡◌, ◌+ℤ◌, ◌*ℤ◌};
ghost use Rattle.base_relations.specs.Substitution.{limited, number_added};

/// The number, where its absolute value keeps the limit.
#[tactic(auto, unfolding(crate::specs::Substitution::limited))]
fn limited(z: i128) -> Option<i128>
    ensures { result ≡ limited z }
{
    if z == i128::MIN { None } else { Some(z) }
}

/// The product.
fn product(a: i128, b: i128) -> Option<i128>
    ensures { result ≡ limited (a *ℤ b) }
{
    match a.checked_mul(b) {
        Some(z) => limited(z),
        None => None,
    }
}

/// The sum.
pub(crate) fn sum(a: i128, b: i128) -> Option<i128>
    ensures { result ≡ limited (a +ℤ b) }
{
    match a.checked_add(b) {
        Some(z) => limited(z),
        None => None,
    }
}

/// `x + c * e`.
#[tactic(auto, unfolding(crate::specs::Substitution::number_added))]
pub(crate) fn number_added(x: i128, c: i128, e: i128) -> Option<i128>
    ensures { result ≡ number_added x c e }
{
    let product = product(c, e)?;
    sum(x, product)
}
