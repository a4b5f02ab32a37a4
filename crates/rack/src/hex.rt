ghost use Rattle.std.specs.Prelude.{◌≡◌};
ghost use Rattle.rack.specs.Hex.{digit_of, hex_digit, hex_byte, hex_word};

/// What a byte is worth as a digit, 0 to 9 and capital A to F only.
#[inline(always)]
pub fn digit(b: u8) -> Option<u8>
    ensures { result ≡ digit_of b }
{
    match b {
        b'0'..=b'9' => Some(b - b'0'),
        b'A'..=b'F' => Some(b - b'A' + 10),
        _ => None,
    }
}

/// The digit of a number below 16; of a larger one, of its last digit.
fn hex_digit(n: u8) -> u8
    ensures { result ≡ hex_digit n }
{
    let d = n % 16;
    if d < 10 { d + b'0' } else { d - 10 + b'A' }
}

/// The two digits of a byte.
pub fn hex_byte(n: u8) -> [u8; 2]
    ensures { result ≡ hex_byte n }
{
    [hex_digit(n / 16), hex_digit(n)]
}

// Kept: one function over the number of digits would need a loop, and these two are a line or three each.
/// The four digits of a number.
pub fn hex_word(n: u16) -> [u8; 4]
    ensures { result ≡ hex_word n }
{
    let [high, low] = n.to_be_bytes();
    let [a, b] = hex_byte(high);
    let [c, d] = hex_byte(low);
    [a, b, c, d]
}
