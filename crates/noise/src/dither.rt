// Colours from levels and noise.
ghost use Rattle.std.specs.Prelude.{◌≡◌, ◌<◌, pos, slice_index_or};
ghost use Rattle.noise.specs.Noise.{value, channel_of, colour_of, bits_of};

use crate::register::Noise;

// A level above this one gives the highest channel.
const FULL: i8 = 120;

// A level in eighths as a channel of four bits: the noise, 0 to 7, decides which eighths round up.
pub fn channel(level: i8, noise: u16) -> u16
    ensures number { result ≡ channel_of level noise }
    ensures small { result < 16 }
{
    if level < 0 {
        return 0;
    }
    if level > FULL {
        return 15;
    }
    let eighths = level as u16;
    if eighths % 8 > noise % 8 {
        eighths / 8 + 1
    } else {
        eighths / 8
    }
}

// The colour of red, green and blue levels at a lane.
pub fn colour(levels: [i8; 3], noise: &Noise, lane: usize) -> u16
    ensures number { result ≡ colour_of (channel_of (slice_index_or levels 0 (pos 0)) (bits_of (value noise.now) lane 0)) (channel_of (slice_index_or levels 1 (pos 0)) (bits_of (value noise.now) lane 1)) (channel_of (slice_index_or levels 2 (pos 0)) (bits_of (value noise.now) lane 2)) }
    ensures small { result < 4096 }
{
    let red = channel(levels[0], noise.bits(lane, 0));
    let green = channel(levels[1], noise.bits(lane, 1));
    let blue = channel(levels[2], noise.bits(lane, 2));
    red * 256 + green * 16 + blue
}
