// The numbers of a line, after its word.

// The number with one digit more; the greatest where that doesn't fit or is no digit.
fn longer(n: usize, c: u8) -> usize {
    if !c.is_ascii_digit() {
        return usize::MAX;
    }
    n.saturating_mul(10).saturating_add(usize::from(c - b'0'))
}

// The numbers of a line, parted by single blanks; none where they are not N.
pub(crate) fn read<const N: usize>(line: &[u8]) -> Option<[usize; N]> {
    let mut numbers = [0; N];
    let mut words = line.split(|c| *c == b' ').skip(1);
    for number in &mut numbers {
        *number = words.next()?.iter().fold(0, |n, c| longer(n, *c));
    }
    if words.next().is_some() {
        return None;
    }
    Some(numbers)
}

// The number as a word, the greatest where it doesn't fit.
pub(crate) fn word(n: usize) -> u16 {
    u16::try_from(n).unwrap_or(u16::MAX)
}

// The number as a byte, the greatest where it doesn't fit.
pub(crate) fn byte(n: usize) -> u8 {
    u8::try_from(n).unwrap_or(u8::MAX)
}
