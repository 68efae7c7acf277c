//! Decimal texts of integers.

ghost use Rattle.std.specs.Prelude.{◌≡◌, ◌++◌, OnOk, OnErr};
ghost use Rattle.std.specs.Fmt.{signed_decimal};
ghost use Rattle.std.specs.Option.{SomeIff};
ghost use Rattle.ops_text.specs.Numeral.{IsShortInteger, integer_of};

use crate::OutOfMemory;
use itoa::Buffer;
use std::str;

/// The value of an optional sign and one or more digits, or none where the bytes have another shape
/// or the value is outside 64 bits.
pub fn read_int(bytes: &[u8]) -> Option<i64>
    ensures { SomeIff result (IsShortInteger bytes.now) (integer_of bytes.now) }
{
    str::from_utf8(bytes).ok()?.parse().ok()
}

/// Appends the decimal text of an integer: digits without leading zeros, after a minus where it is
/// negative. After want of memory the vector holds what it held.
pub fn put_int(value: i64, out: &mut Vec<u8>) -> Result<(), OutOfMemory>
    ensures ok { OnOk result (out.new.items ≡ out.old.items ++ signed_decimal value) }
    ensures err { OnErr result (out.new.items ≡ out.old.items) }
{
    let mut buffer = Buffer::new();
    out.extend_from_slice(buffer.format(value).as_bytes())
}
