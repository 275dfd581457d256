// Lower-case hexadecimal: its digits, and lines of two characters a byte, the high digit first.
#![tactic(auto, unfolding(crate::specs::Digits::digit_of, crate::specs::Digits::char_of, crate::specs::Digits::byte_of, crate::specs::Lines::char_at))]

ghost use Rattle.std.specs.Prelude.{◌≡◌};
ghost use Rattle.hex_text.specs.Digits.{digit_of, char_of, byte_of};
ghost use Rattle.hex_text.specs.Lines.{all_hex, bytes_of, hex_of, char_at, over};

// How many digits there are. It is no digit's value, so it stands for a character that is none.
const RADIX: u8 = 16;

// How many of the digits are 0-9.
const TEN: u8 = 10;

// How many characters a byte has.
pub const CHARS: usize = 2;

// The value of a character 0-9 a-f, 16 for any other.
// Kept: a number and no Option, since `all_hex` takes the greatest of all characters and asks once: asked one by one, a line of 26 takes 325
// instructions for its 110.
pub fn digit(c: u8) -> u8
    ensures { result ≡ digit_of c }
{
    match c {
        b'0'..=b'9' => c - b'0',
        b'a'..=b'f' => c - b'a' + TEN,
        _ => RADIX,
    }
}

// The character of a number's last digit.
pub fn char_of(n: u8) -> u8
    ensures { result ≡ char_of n }
{
    let d = n % RADIX;
    if d < TEN { b'0' + d } else { b'a' + (d - TEN) }
}

// The byte of two characters; one that is no digit counts as 0.
pub fn byte_of(h: u8, l: u8) -> u8
    ensures { result ≡ byte_of h l }
{
    let x = digit(h);
    let y = digit(l);
    x % RADIX * RADIX + y % RADIX
}

// The character at place i of a line that has the byte b there: the high digit at even places.
fn char_at(b: u8, i: usize) -> u8
    ensures { result ≡ char_at b i }
{
    if i % CHARS == 0 {
        char_of(b / RADIX)
    } else {
        char_of(b % RADIX)
    }
}

// Whether every character is 0-9 a-f. It looks at all of them and asks once, which is quicker than to ask each.
pub fn all_hex(line: &[u8]) -> bool
    ensures { result ≡ all_hex line.now }
{
    line.iter()
        .fold(0, |greatest: u8, c| greatest.max(digit(*c)))
        < RADIX
}

// Puts the bytes of a line into out, as far as there are bytes and places.
pub fn unhex(line: &[u8], out: &mut [u8])
    ensures { out.new ≡ over (bytes_of line.now) out.old }
{
    let n = out.len().min(line.len() / CHARS);
    for i in 0..n {
        out[i] = byte_of(line[CHARS * i], line[CHARS * i + 1]);
    }
}

// Puts the characters of some bytes into out, as far as there are characters and places.
pub fn enhex(bytes: &[u8], out: &mut [u8])
    ensures { out.new ≡ over (hex_of bytes.now) out.old }
{
    let n = out.len().min(bytes.len().saturating_mul(CHARS));
    for i in 0..n {
        out[i] = char_at(bytes[i / CHARS], i);
    }
}
