// The 144 bits, nine for each of sixteen lanes.
ghost use Rattle.std.specs.Prelude.{◌≡◌, ◌+◌, ◌*◌, ◌/◌, ◌%◌, ◌^◌, ◌<◌};
ghost use Rattle.noise.specs.Noise.{value, number_of, tapped, stepped, Stepped, seeded, Seeded, bits_of};

// Entry i holds bits 9i to 9i + 8, the lowest first; what an entry has above its nine bits is not looked at.
#[derive(Clone, Copy, Drop)]
pub struct Noise {
    lanes: [u16; 16],
}

impl Noise {
    // Noise with only bit 0 set.
    pub fn new() -> Noise
        ensures { value result ≡ 1 }
    {
        let mut lanes = [0; 16];
        lanes[0] = 1;
        Noise { lanes }
    }

    // The noise whose bits 8j to 8j + 7 are byte j.
    pub fn seeded(bytes: &[u8; 18]) -> Noise
        ensures number { value result ≡ seeded bytes.now }
        ensures bits { Seeded bytes.now (value result) }
    {
        let mut lanes = [0; 16];
        for (lane, nine) in lanes.iter_mut().enumerate() {
            *nine = nine_bits(bytes, lane);
        }
        Noise { lanes }
    }

    // Moves every bit up one, and sets bit 0 by the taps.
    pub fn step(&mut self)
        ensures number { value self.new ≡ stepped (value self.old) }
        ensures bits { Stepped (value self.old) (value self.new) }
    {
        let fresh = taps(&self.lanes);
        self.lanes = moved_up(&self.lanes, fresh);
    }

    // The three bits of a channel of a lane, or 0 where there is no such lane or channel.
    pub fn bits(&self, lane: usize, channel: usize) -> u16
        ensures { result ≡ bits_of (value self.now) lane channel }
    {
        if lane < 16 && channel < 3 {
            (self.lanes[lane] >> (3 * channel)) % 8
        } else {
            0
        }
    }
}

// Bits 9 * lane to 9 * lane + 8 of the bytes, which two bytes hold.
fn nine_bits(bytes: &[u8; 18], lane: usize) -> u16
    requires { lane < 16 }
    ensures { result ≡ seeded bytes.now / 2 ^ (9 * lane) % 512 }
{
    let start = lane + lane / 8;
    let pair = u16::from(bytes[start]) + u16::from(bytes[start + 1]) * 256;
    (pair >> (lane % 8)) % 512
}

// The exclusive or of bits 143, 141, 139 and 136.
fn taps(lanes: &[u16; 16]) -> u16
    ensures { result ≡ tapped (number_of 9 lanes.now) }
{
    let last = lanes[15];
    ((last >> 8) ^ (last >> 6) ^ (last >> 4) ^ (last >> 1)) % 2
}

// The nine bits of a lane after every bit moved up one: the lowest is the highest of the lane below, or the new bit 0.
fn moved_lane(lanes: &[u16; 16], fresh: u16, lane: usize) -> u16
    requires { (fresh < 2) × (lane < 16) }
    ensures { result ≡ (number_of 9 lanes.now * 2 + fresh) / 2 ^ (9 * lane) % 512 }
{
    let carry = if lane == 0 {
        fresh
    } else {
        lanes[lane - 1] / 256 % 2
    };
    (lanes[lane] % 256) * 2 + carry
}

// Every bit moved up one, with a new bit 0.
fn moved_up(lanes: &[u16; 16], fresh: u16) -> [u16; 16]
    requires { fresh < 2 }
    ensures { number_of 9 result ≡ (number_of 9 lanes.now * 2 + fresh) % 2 ^ 144 }
{
    let mut moved = [0; 16];
    for (lane, nine) in moved.iter_mut().enumerate() {
        *nine = moved_lane(lanes, fresh, lane);
    }
    moved
}
