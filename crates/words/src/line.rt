// Lines of so many bytes in lower-case hexadecimal, whatever the bytes are of.
ghost use Rattle.std.specs.Prelude.{◌≡◌, Some, None, replicate};
ghost use Rattle.hex_text.specs.Lines.{bytes_of, hex_of, over};
ghost use Rattle.words.specs.Words.{framed};

use hex_text::CHARS;

// The first bytes of a line, as many as are asked for; those that it lacks are 0, and a character that is no digit counts as 0.
pub fn first_bytes<const N: usize>(line: &[u8]) -> [u8; N]
    ensures { result ≡ over (bytes_of line.now) (replicate N 0) }
{
    let mut b = [0; N];
    hex_text::unhex(line, &mut b);
    b
}

// The bytes of a line that is so many bytes; any other line has none.
#[tactic(auto, unfolding(crate::specs::Words::framed))]
pub fn read_bytes<const N: usize>(line: &[u8]) -> Option<[u8; N]>
    ensures { result ≡ framed N Some None line.now }
{
    if line.len() % CHARS != 0 || line.len() / CHARS != N || !hex_text::all_hex(line) {
        return None;
    }
    Some(first_bytes(line))
}

// The characters of some bytes, as far as there is room, and then zeros: with two characters for a byte, their line.
pub fn write_bytes<const N: usize, const M: usize>(b: [u8; N]) -> [u8; M]
    ensures { result ≡ over (hex_of b.entry) (replicate M 0) }
{
    let mut line = [0; M];
    hex_text::enhex(&b, &mut line);
    line
}
