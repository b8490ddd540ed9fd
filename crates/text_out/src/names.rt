ghost use Rattle.std.specs.Prelude.{◌≡◌, ◌<◌, ◌==◌, ◌&&◌, ◌||◌, not, nat_le, [], ◌∷◌, ◌++◌, IfOk, OnOk};
ghost use Rattle.text_out.specs.Names.{is_marked, hex_digit, shown, name_text, plain_name, target_text};

use class_pool::Target;
use std::alloc::{AllocError, Global};

// The hexadecimal digit of a number below 16.
fn hex_digit(n: u8) -> u8
    requires { n < 16 }
    ensures { result ≡ hex_digit n }
{
    if n < 10 { b'0' + n } else { b'a' - 10 + n }
}

fn is_marked(marked: Option<u8>, byte: u8) -> bool
    ensures { result ≡ is_marked marked byte }
{
    match marked {
        None => false,
        Some(marked) => byte == marked,
    }
}

// Whether a byte of a name stands for itself.
fn is_plain(marked: Option<u8>, byte: u8) -> bool
    ensures { result ≡ ((nat_le 33 byte && nat_le byte 126) && not (byte == 92 || is_marked marked byte)) }
{
    b'!' <= byte && byte <= b'~' && !(byte == b'\\' || is_marked(marked, byte))
}

fn push_byte(out: &mut Vec<u8>, marked: Option<u8>, byte: u8) -> Result<(), AllocError>
    ensures { OnOk result (out.new.items ≡ out.old.items ++ shown (is_marked marked) byte) }
{
    if is_plain(marked, byte) {
        out.push(byte)?;
    } else {
        out.extend_from_slice(&[b'\\', b'x', hex_digit(byte / 16), hex_digit(byte % 16)])?;
    }
    Ok(())
}

// Appends a name, in which the marked byte is escaped like the bytes that aren't printed.
fn push_name(out: &mut Vec<u8>, marked: Option<u8>, name: &[u8]) -> Result<(), AllocError>
    ensures { OnOk result (out.new.items ≡ out.old.items ++ name_text (is_marked marked) name.now) }
{
    for byte in name {
        push_byte(out, marked, *byte)?;
    }
    Ok(())
}

// The bytes that print a name.
pub(crate) fn name_text(alloc: Global, name: &[u8]) -> Result<Vec<u8>, AllocError>
    ensures { IfOk result (λ v. v.items ≡ plain_name name.now) }
{
    let mut out = Vec::new(alloc);
    push_name(&mut out, None, name)?;
    Ok(out)
}

// The bytes that print a method.
pub(crate) fn target_text(alloc: Global, target: &Target) -> Result<Vec<u8>, AllocError>
    ensures { IfOk result (λ v. v.items ≡ target_text target.now) }
{
    let mut out = Vec::new(alloc);
    push_name(&mut out, Some(b'.'), target.class.as_slice())?;
    out.push(b'.')?;
    push_name(&mut out, Some(b':'), target.method.as_slice())?;
    out.push(b':')?;
    push_name(&mut out, None, target.desc.as_slice())?;
    Ok(out)
}
