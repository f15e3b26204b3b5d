// The longest name, the greatest level, and the first line whose level is over the limit.
ghost use Rattle.std.specs.Prelude.{◌≡◌, ◌<◌, ◌≤◌, length, map, slice_index, All, MatchOption};
ghost use Rattle.netlist.specs.declared.limits.TheConstants.{MOST_LEVELS};
ghost use Rattle.netlist.specs.Greatest.{greatest};
ghost use Rattle.netlist.specs.Names.{IsName};
ghost use Rattle.net_builder.specs.Depth.{IsFirstOver};

use netlist::MOST_LEVELS;
use pd_base::FlatLists;

/// The length of the longest name.
pub(crate) fn longest_of(names: &FlatLists<u8>) -> u32
    requires { All IsName names.now }
    ensures { result ≡ greatest (map length names.now) }
{
    let mut longest: u32 = 0;
    for line in 0..names.len() {
        longest = longest.max(names.list(line).len() as u32);
    }
    longest
}

/// The greatest number.
pub(crate) fn greatest_of(numbers: &[u32]) -> u32
    ensures { result ≡ greatest numbers.now }
{
    let mut most: u32 = 0;
    for number in numbers {
        most = most.max(*number);
    }
    most
}

/// The first line whose level is over the limit.
pub(crate) fn first_over(levels: &[u32]) -> Option<usize>
    ensures { MatchOption result (greatest levels.now ≤ MOST_LEVELS) (IsFirstOver levels.now) }
{
    for line in 0..levels.len() {
        if levels[line] > MOST_LEVELS {
            return Some(line);
        }
    }
    None
}
