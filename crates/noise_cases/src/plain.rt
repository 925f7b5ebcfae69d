// Noise as a plain array of bits, by the rules word for word.
ghost use Rattle.std.specs.Prelude.{◌<◌};

// Every bit moved up one, and the new bit 0.
pub(crate) fn stepped(bits: &[bool; 144]) -> [bool; 144] {
    let mut after = [false; 144];
    after[0] = bits[143] ^ bits[141] ^ bits[139] ^ bits[136];
    after[1..].copy_from_slice(&bits[..143]);
    after
}

// Byte j holds bits 8j to 8j + 7.
pub(crate) fn seeded(bytes: &[u8; 18]) -> [bool; 144] {
    let mut bits = [false; 144];
    for (j, bit) in bits.iter_mut().enumerate() {
        *bit = (bytes[j / 8] >> (j % 8)) % 2 == 1;
    }
    bits
}

// The three bits of a channel of a lane, the lowest first.
pub(crate) fn three(bits: &[bool; 144], lane: usize, channel: usize) -> u16
    requires { (lane < 16) × (channel < 3) }
{
    let start = 9 * lane + 3 * channel;
    u16::from(bits[start]) + u16::from(bits[start + 1]) * 2 + u16::from(bits[start + 2]) * 4
}
