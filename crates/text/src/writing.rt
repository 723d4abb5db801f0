// Words put into a lent output one after the other, as far as there is room.
ghost use Rattle.std.specs.Prelude.{◌≡◌, [], ◌∷◌, cond, ◌+◌, ◌%◌, ltb};
ghost use Rattle.text.specs.Text.{blank, shown, decimal, three};
ghost use Rattle.text.specs.Put.{Puts};

use super::BLANK;

// Puts as much of a word into out, from a place on, as there is room for, and answers the place past it.
pub fn put(out: &mut [u8], at: usize, word: &[u8]) -> usize
    ensures { Puts out.old at word.now out.new result }
{
    let mut k = at;
    let mut i = 0;
    while i < word.len() && k < out.len() {
        out[k] = word[i];
        k += 1;
        i += 1;
    }
    k
}

// Puts a byte.
pub fn put_byte(out: &mut [u8], at: usize, b: u8) -> usize
    ensures { Puts out.old at (b ∷ []) out.new result }
{
    if at < out.len() {
        out[at] = b;
        return at + 1;
    }
    at
}

fn last_digit(n: usize) -> u8
    ensures { result ≡ 48 + n % 10 }
{
    48 + (n % 10) as u8
}

// The last digit, or a blank where the number is below a bound.
fn digit_or_blank(n: usize, digits: usize, least: usize) -> u8
    ensures { result ≡ cond (ltb n least) blank (shown digits) }
{
    if n < least { BLANK } else { last_digit(digits) }
}

// Puts a number below 1000 in three characters; of a larger one its last three digits.
pub fn put_three(out: &mut [u8], at: usize, n: usize) -> usize
    ensures { Puts out.old at (three n) out.new result }
{
    let word = [
        digit_or_blank(n, n / 100, 100),
        digit_or_blank(n, n / 10, 10),
        last_digit(n),
    ];
    put(out, at, &word)
}

// Puts the decimal digits of a number that fits a byte, with no leading zero.
pub fn put_decimal(out: &mut [u8], at: usize, n: u8) -> usize
    ensures { Puts out.old at (decimal n) out.new result }
{
    let v = n as usize;
    if v < 10 {
        return put_byte(out, at, last_digit(v));
    }
    let tens = last_digit(v / 10);
    if v < 100 {
        return put(out, at, &[tens, last_digit(v)]);
    }
    put(out, at, &[last_digit(v / 100), tens, last_digit(v)])
}
