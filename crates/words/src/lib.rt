// Numbers of two bytes, the high one first.
#![tactic(auto, unfolding(crate::specs::Words::high_of, crate::specs::Words::low_of, crate::specs::Words::word_of))]

ghost use Rattle.std.specs.Prelude.{◌≡◌};
ghost use Rattle.words.specs.Words.{high_of, low_of, word_of};

pub mod line;

pub fn word(h: u8, l: u8) -> u16
    ensures { result ≡ word_of h l }
{
    u16::from_be_bytes([h, l])
}

pub fn high(n: u16) -> u8
    ensures { result ≡ high_of n }
{
    let [h, _] = n.to_be_bytes();
    h
}

pub fn low(n: u16) -> u8
    ensures { result ≡ low_of n }
{
    let [_, l] = n.to_be_bytes();
    l
}
