// Which bytes of a step frame must be zero.
ghost use Rattle.std.specs.Prelude.{◌≡◌, true, ◌<◌};
ghost use Rattle.frames.specs.Layout.{step_bytes};
ghost use Rattle.frames.specs.Kinds.{kinds, must_be_zero, is_table, byte_ok, is_clean};

use crate::STEP_BYTES;

pub(crate) const KINDS: usize = 17;

// For each kind, which bytes must be zero: bit i is byte i.
const MUST_BE_ZERO: [u16; KINDS] = [
    0x1ff4, 0x1ff4, 0x1ffc, 0x1ff8, 0x1ff8, 0x1ff8, 0x018c, 0x1ffc, 0x1ffc, 0x1ffc, 0x01ec, 0x01ec,
    0x1e14, 0x1ffe, 0x1ffc, 0x1e0c, 0x1ffc,
];

// Whether byte i of a frame of this kind must be zero, by a table that keeps the rule.
fn must_be_zero(masks: [u16; KINDS], kind: usize, i: usize) -> bool
    requires { (is_table masks ≡ true) × (kind < kinds) × (i < step_bytes) }
    ensures { result ≡ must_be_zero kind i }
{
    let m = masks[kind];
    (m >> i) % 2 == 1
}

// Whether byte i of a frame of this kind may be b.
fn byte_ok(kind: usize, i: usize, b: u8) -> bool
    requires { (kind < kinds) × (i < step_bytes) }
    ensures { result ≡ byte_ok kind i b }
{
    !must_be_zero(MUST_BE_ZERO, kind, i) || b == 0
}

// Whether every byte that the kind doesn't use is zero.
pub(crate) fn is_clean(kind: usize, b: [u8; STEP_BYTES]) -> bool
    requires { kind < kinds }
    ensures { result ≡ is_clean kind b }
{
    (0..STEP_BYTES).all(|i| byte_ok(kind, i, b[i]))
}
