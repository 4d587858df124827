// Bytes, byte strings, decimal numbers and lines put into lent bytes at a position; each answers the position behind. What would lie past the end is
// left out and counted all the same, so that one function both measures a text, on no bytes, and writes it. Counting stands still at the largest
// position, which is past the end of all lent bytes.
ghost use Rattle.std.specs.Prelude.{◌≡◌, [], ◌∷◌, ◌+◌, ◌%◌};
ghost use Rattle.text.specs.Put.{Put};
ghost use Rattle.text.specs.Decimal.{zero_digit, decimal};
ghost use Rattle.text.specs.Lines.{field_of, line_of};

use sort::room::copy;

// Puts one byte.
pub fn put_byte(buf: &mut [u8], at: usize, x: u8) -> usize
    ensures { Put (x ∷ []) buf.old at buf.new result }
{
    if at < buf.len() {
        buf[at] = x;
    }
    at.saturating_add(1)
}

// Puts a byte string: as much of it as there is room for is copied.
pub fn put_text(buf: &mut [u8], at: usize, text: &[u8]) -> usize
    ensures { Put text.now buf.old at buf.new result }
{
    if at < buf.len() {
        let fitting = text.len().min(buf.len() - at);
        copy(&mut buf[at..at + fitting], &text[..fitting]);
    }
    at.saturating_add(text.len())
}

// The last digit of a number.
fn last_digit(n: u64) -> u8
    ensures { result ≡ zero_digit + n % 10 }
{
    b'0' + (n % 10) as u8
}

// Puts a number in decimal.
pub fn put_decimal(buf: &mut [u8], at: usize, n: u64) -> usize
    ensures { Put (decimal n) buf.old at buf.new result }
{
    if n < 10 {
        return put_byte(buf, at, last_digit(n));
    }
    let next = put_decimal(buf, at, n / 10);
    put_byte(buf, next, last_digit(n))
}

// Puts a key, such as b"size=", and a number: a part of a line.
pub fn put_field(buf: &mut [u8], at: usize, key: &[u8], n: u64) -> usize
    ensures { Put (field_of key.now n) buf.old at buf.new result }
{
    let next = put_text(buf, at, key);
    put_decimal(buf, next, n)
}

// Puts a key and a number, and ends the line.
pub fn put_line(buf: &mut [u8], at: usize, key: &[u8], n: u64) -> usize
    ensures { Put (line_of key.now n) buf.old at buf.new result }
{
    let next = put_field(buf, at, key, n);
    put_byte(buf, next, b'\n')
}
