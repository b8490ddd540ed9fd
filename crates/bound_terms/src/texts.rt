ghost use Rattle.std.specs.Prelude.{ℕ, ◌≡◌, ◌++◌, [], List, Bool, OnOk, IfOk, codes, decimal, if◌then◌else◌};
ghost use Rattle.bound_terms.specs.Bounds.{term_of, terms_of};
ghost use Rattle.bound_terms.specs.Texts.{times_text, is_below_zero, parts_from, linear_text, floored_text, total_text, product_text, joined, is_one, is_left_out, text_of, texts_of};
ghost use Rattle.bound_terms.specs.inside.Writing.{sum_behind, sign_text, with_term};

use crate::base::Base;
use crate::bound::Bound;
use crate::nat::Nat;
use itoa::Buffer;
use lin_rows::Lin;
use std::alloc::AllocError;

/// Appends the bound's text.
#[cycle(text)]
pub fn put_text(out: &mut Vec<u8>, bound: &Bound) -> Result<(), AllocError>
    ensures { OnOk result (out.new.items ≡ out.old.items ++ text_of (term_of bound.now)) }
{
    match bound {
        Bound::Const(n) => put_number(out, *n),
        Bound::Nat(n) => put_floored(out, n),
        Bound::Sum(parts) => put_total(out, parts.as_slice()),
        Bound::Prod(parts) => put_product(out, parts.as_slice()),
        Bound::Max(parts) => put_greatest(out, parts.as_slice()),
        Bound::Pow(b, n) => put_powers(out, b"pow(", b, n),
        Bound::Geo(b, n) => put_powers(out, b"geo(", b, n),
    }
}

#[cycle(text)]
fn put_total(out: &mut Vec<u8>, parts: &[Bound]) -> Result<(), AllocError>
    ensures { OnOk result (out.new.items ≡ out.old.items ++ total_text (texts_of (terms_of parts.now))) }
{
    if parts.is_empty() {
        out.extend_from_slice(b"0")
    } else {
        put_joined(out, b" + ", parts)
    }
}

#[cycle(text)]
fn put_product(out: &mut Vec<u8>, parts: &[Bound]) -> Result<(), AllocError>
    ensures { OnOk result (out.new.items ≡ out.old.items ++ product_text (is_left_out (terms_of parts.now)) (texts_of (terms_of parts.now))) }
{
    if parts.is_empty() {
        out.extend_from_slice(b"1")
    } else if is_left_out(parts) {
        put_joined(out, b"*", &parts[1..])
    } else {
        put_joined(out, b"*", parts)
    }
}

#[cycle(text)]
fn put_greatest(out: &mut Vec<u8>, parts: &[Bound]) -> Result<(), AllocError>
    ensures { OnOk result (out.new.items ≡ out.old.items ++ (codes "max(" ++ joined (codes ",") (texts_of (terms_of parts.now)) ++ codes ")")) }
{
    out.extend_from_slice(b"max(")?;
    put_joined(out, b",", parts)?;
    out.extend_from_slice(b")")
}

/// Appends the texts with a text between each two.
#[cycle(text)]
fn put_joined(out: &mut Vec<u8>, between: &[u8], parts: &[Bound]) -> Result<(), AllocError>
    ensures { OnOk result (out.new.items ≡ out.old.items ++ joined between.now (texts_of (terms_of parts.now))) }
{
    let mut is_first = true;
    for part in parts {
        put_between(out, is_first, between)?;
        put_text(out, part)?;
        is_first = false;
    }
    Ok(())
}

fn put_between(out: &mut Vec<u8>, is_first: bool, between: &[u8]) -> Result<(), AllocError>
    ensures { OnOk result (out.new.items ≡ out.old.items ++ (if is_first then [] else between.now)) }
{
    if is_first {
        Ok(())
    } else {
        out.extend_from_slice(between)
    }
}

fn is_one(bound: &Bound) -> bool
    ensures { result ≡ is_one (term_of bound.now) }
{
    match bound {
        Bound::Const(n) => *n == 1,
        _ => false,
    }
}

/// Whether the first of several factors is 1.
fn is_left_out(parts: &[Bound]) -> bool
    ensures { result ≡ is_left_out (terms_of parts.now) }
{
    parts.len() > 1 && is_one(&parts[0])
}

fn put_powers(out: &mut Vec<u8>, name: &[u8], b: &Base, n: &Nat) -> Result<(), AllocError>
    ensures { OnOk result (out.new.items ≡ out.old.items ++ (name.now ++ decimal b.now ++ codes "," ++ floored_text n.now ++ codes ")")) }
{
    out.extend_from_slice(name)?;
    put_number(out, b.get())?;
    out.extend_from_slice(b",")?;
    put_floored(out, n)?;
    out.extend_from_slice(b")")
}

fn put_floored(out: &mut Vec<u8>, n: &Nat) -> Result<(), AllocError>
    ensures { OnOk result (out.new.items ≡ out.old.items ++ floored_text n.now) }
{
    if n.divisor() == 1 {
        out.extend_from_slice(b"nat(")?;
        put_linear(out, n.expression())?;
        out.extend_from_slice(b")")
    } else {
        out.extend_from_slice(b"(nat(")?;
        put_linear(out, n.expression())?;
        out.extend_from_slice(b")/")?;
        put_number(out, n.divisor())?;
        out.extend_from_slice(b")")
    }
}

fn put_linear(out: &mut Vec<u8>, expression: &Lin) -> Result<(), AllocError>
    ensures { OnOk result (out.new.items ≡ out.old.items ++ linear_text expression.now) }
{
    let coefficients = expression.coefficients();
    let mut is_first = true;
    for v in 0..coefficients.len() {
        is_first = put_term(out, is_first, coefficients[v], v)?;
    }
    put_constant(out, is_first, expression.constant())
}

/// Appends a term that isn't 0, and says whether the next one is still the first.
fn put_term(out: &mut Vec<u8>, is_first: bool, c: i128, v: usize) -> Result<bool, AllocError>
    ensures { IfOk result (λ f. (ps : List (Bool × List ℕ)) → out.new.items ++ sum_behind f ps ≡ out.old.items ++ sum_behind is_first (with_term c v ps)) }
{
    if c == 0 {
        return Ok(is_first);
    }
    put_sign(out, is_first, c < 0)?;
    put_times(out, c.unsigned_abs(), v)?;
    Ok(false)
}

fn put_sign(out: &mut Vec<u8>, is_first: bool, is_negative: bool) -> Result<(), AllocError>
    ensures { OnOk result (out.new.items ≡ out.old.items ++ sign_text is_first is_negative) }
{
    match (is_first, is_negative) {
        (true, true) => out.extend_from_slice(b"-"),
        (true, false) => Ok(()),
        (false, true) => out.extend_from_slice(b" - "),
        (false, false) => out.extend_from_slice(b" + "),
    }
}

fn put_times(out: &mut Vec<u8>, k: u128, v: usize) -> Result<(), AllocError>
    ensures { OnOk result (out.new.items ≡ out.old.items ++ times_text k v) }
{
    if k != 1 {
        put_number(out, k)?;
        out.extend_from_slice(b"*")?;
    }
    out.extend_from_slice(b"a")?;
    put_number(out, v as u128)
}

fn put_constant(out: &mut Vec<u8>, is_first: bool, k: i128) -> Result<(), AllocError>
    ensures { OnOk result (out.new.items ≡ out.old.items ++ sum_behind is_first (parts_from 0 [] k)) }
{
    if k != 0 {
        put_sign(out, is_first, k < 0)?;
        put_number(out, k.unsigned_abs())
    } else if is_first {
        out.extend_from_slice(b"0")
    } else {
        Ok(())
    }
}

fn put_number(out: &mut Vec<u8>, n: u128) -> Result<(), AllocError>
    ensures { OnOk result (out.new.items ≡ out.old.items ++ decimal n) }
{
    out.extend_from_slice(Buffer::new().format(n).as_bytes())
}
