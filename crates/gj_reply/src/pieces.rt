//! What a body is put together from.
ghost use Rattle.std.specs.Prelude.{◌≡◌, ◌++◌, OnOk};
ghost use Rattle.std.specs.Fmt.{decimal};
ghost use Rattle.gj_reply.specs.Arrays.{comma_at};

use gj_base::Memory;
use itoa::Buffer;

/// Appends the text.
pub(crate) fn put(out: &mut Vec<u8>, text: &str) -> Result<(), Memory>
    ensures { OnOk result (out.new.items ≡ out.old.items ++ text.now) }
{
    match out.extend_from_slice(text.as_bytes()) {
        Ok(()) => Ok(()),
        Err(_) => Err(Memory),
    }
}

/// Appends the number.
pub(crate) fn put_number(out: &mut Vec<u8>, number: u64) -> Result<(), Memory>
    ensures { OnOk result (out.new.items ≡ out.old.items ++ decimal number) }
{
    let mut buffer = Buffer::new();
    put(out, buffer.format(number))
}

/// Appends the text, and the number after it.
pub(crate) fn put_member(out: &mut Vec<u8>, text: &str, number: u64) -> Result<(), Memory>
    ensures { OnOk result (out.new.items ≡ out.old.items ++ (text.now ++ decimal number)) }
{
    put(out, text)?;
    put_number(out, number)
}

/// Appends two members, the one after the other.
pub(crate) fn put_two(
    out: &mut Vec<u8>,
    text: &str,
    number: u64,
    next: &str,
    next_number: u64,
) -> Result<(), Memory>
    ensures { OnOk result (out.new.items ≡ out.old.items
        ++ (text.now ++ decimal number ++ next.now ++ decimal next_number)) }
{
    put_member(out, text, number)?;
    put_member(out, next, next_number)
}

/// Appends the comma that stands in front of the member at this place of an array.
pub(crate) fn put_comma(out: &mut Vec<u8>, place: usize) -> Result<(), Memory>
    ensures { OnOk result (out.new.items ≡ out.old.items ++ comma_at place) }
{
    if place > 0 {
        put(out, ",")?;
    }
    Ok(())
}
