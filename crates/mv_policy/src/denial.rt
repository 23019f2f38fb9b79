//! The line that denies an order.
ghost use Rattle.std.specs.Prelude.{◌≡◌, ◌≤◌, [], length, vec_capacity};
ghost use Rattle.mv_policy.specs.Spoken.{denial_text};

use itoa::Buffer;

/// The most bytes of a denial: 22, a number of up to ten digits, and 2.
pub(crate) const LONGEST_DENIAL: usize = 34;

/// The line that denies an order by the rule of this number, in a buffer that has the place for it.
pub(crate) fn denial_line(buffer: Vec<u8>, rule: u32) -> Vec<u8>
    requires empty { buffer.items ≡ [] }
    requires room { 34 ≤ vec_capacity buffer }
    ensures line { result.items ≡ denial_text rule }
    ensures short { length result.items ≤ 34 }
{
    let mut line = buffer;
    let mut digits = Buffer::new();
    let number = digits.format(rule);
    let _ = line.extend_from_slice(b"{\"no\":\"denied\",\"rule\":");
    let _ = line.extend_from_slice(number.as_bytes());
    let _ = line.extend_from_slice(b"}\n");
    line
}
