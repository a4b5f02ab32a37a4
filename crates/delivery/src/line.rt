ghost use Rattle.std.specs.Prelude.{◌≡◌, ◌≤◌, length};
ghost use Rattle.delivery.specs.Lines.{operand_digits, start_line, definition_line, end_line, over};

use definitions::operand::{Definition, Operand};
use rack::hex::{hex_byte, hex_word};

// Kept: lines are put together as arrays, here and below, since the libraries use no heap and each byte is promised.

/// The six digits of an operand: two of kind and four of number.
pub fn operand_digits(operand: Operand) -> [u8; 6]
    ensures { result ≡ operand_digits operand }
{
    let [a, b] = hex_byte(operand.kind());
    let [c, d, e, f] = hex_word(operand.number());
    [a, b, c, d, e, f]
}

/// The line of a start: `40` and how many definitions follow.
pub fn start_line(definitions: u16) -> [u8; 7]
    ensures { result ≡ start_line definitions }
{
    let [a, b, c, d] = hex_word(definitions);
    [b'4', b'0', a, b, c, d, 0x0A]
}

/// The line of a definition: `50`, the operator and the two operands.
pub fn definition_line(definition: Definition) -> [u8; 17]
    ensures { result ≡ definition_line definition }
{
    let [o, p] = hex_byte(u8::from(definition.operator));
    let [a, b, c, d, e, f] = operand_digits(definition.first);
    let [g, h, i, j, k, l] = operand_digits(definition.second);
    [b'5', b'0', o, p, a, b, c, d, e, f, g, h, i, j, k, l, 0x0A]
}

/// The line of an end: `60` and the operand.
pub fn end_line(operand: Operand) -> [u8; 9]
    ensures { result ≡ end_line operand }
{
    let [a, b, c, d, e, f] = operand_digits(operand);
    [b'6', b'0', a, b, c, d, e, f, 0x0A]
}

/// Puts a line at the front of a buffer, and answers its length; later bytes stay.
pub(crate) fn put_front(buffer: &mut [u8], line: &[u8]) -> usize
    requires { length line.now ≤ length buffer.old }
    ensures front { buffer.new ≡ over line.now buffer.old }
    ensures length { result ≡ length line.now }
{
    buffer[..line.len()].copy_from_slice(line);
    line.len()
}
