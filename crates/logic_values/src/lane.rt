// One lane of 64: a vector is put into it, and a bit is read there. What is computed in all lanes at once stands in lanes.rt.
ghost use Rattle.std.specs.Prelude.{◌≡◌, ◌≢◌, ◌≤◌, ◌<◌, ℕ, length, if◌then◌else◌};
ghost use Rattle.logic_values.specs.Lanes.{lane_of, lane_bit, IsInLane};

/// Puts a vector into a lane, from 0: its bits stand there afterwards, each in the word of its source, and all other bits stay.
/// Takes no memory.
pub fn put_into_lane(vector: &[bool], lane: u32, words: &mut [u64])
    requires lane { lane < 64 }
    requires places { length vector.now ≤ length words.old }
    ensures there { IsInLane words.new lane vector.now }
    ensures others { (other line : ℕ) → other < 64 → other ≢ lane → lane_bit words.new other line ≡ lane_bit words.old other line }
{
    for (source, bit) in vector.iter().enumerate() {
        words[source] = with_lane(words[source], lane, *bit);
    }
}

/// The bit of a word in a lane, from 0.
pub fn bit_in_lane(word: u64, lane: u32) -> bool
    requires { lane < 64 }
    ensures { result ≡ lane_of word lane }
{
    (word >> lane) & 1 == 1
}

// The word with this bit in the lane.
fn with_lane(word: u64, lane: u32, bit: bool) -> u64
    requires { lane < 64 }
    ensures this { lane_of result lane ≡ bit }
    ensures others { (other : ℕ) → other < 64 → other ≢ lane → lane_of result other ≡ lane_of word other }
{
    if bit {
        word | (1 << lane)
    } else {
        word & !(1 << lane)
    }
}
