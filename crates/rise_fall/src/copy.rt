// What a pin with a rise and a fall delay shows of its line: each rise of the line moved by the one, each fall by the other, and
// what is swallowed taken out.
ghost use Rattle.std.specs.Prelude.{◌≡◌, ◌+◌, ◌<◌, ◌≤◌, IfOk, vec_capacity, vec_len};
ghost use Rattle.rise_fall.specs.Waves.{risen_fallen};
ghost use Rattle.delay_replay.specs.Changes.{AreChangesOf, AreTimesRising, IsBounded, wave_at};
ghost use Rattle.rise_fall.specs.Inside.Moving.{IsPut};

use delay_replay::Wave;
use pd_base::OutOfMemory;
use std::alloc::Global;

/// What a pin with these delays shows of a line with this wave. A pulse no longer than the difference of the delays is swallowed,
/// where its start takes longer than its end. No change may be after `LATEST_CHANGE`. It fails only where memory runs out.
pub fn rise_fall_copy(alloc: Global, wave: &Wave, rise: u32, fall: u32) -> Result<Wave, OutOfMemory>
    requires { IsBounded wave.now }
    ensures { IfOk result (AreChangesOf (risen_fallen rise fall (wave_at wave.now))) }
{
    let before = wave.earliest();
    let changes = wave.changes();
    let mut times = Vec::with_capacity(alloc, changes.len())?;
    let mut value = before;
    for change in changes {
        value = !value;
        let delay = if value { rise } else { fall };
        put(&mut times, *change + i64::from(delay));
    }
    Ok(Wave::new(before, times))
}

// Puts a change behind those that are kept. If it would come no later than the last of them, both go.
fn put(times: &mut Vec<i64>, time: i64)
    requires rising { AreTimesRising times.old.items }
    requires room { vec_len times.old < vec_capacity times.old }
    ensures rising { AreTimesRising times.new.items }
    ensures put { IsPut times.old.items times.new.items time }
    ensures len { vec_len times.new ≤ vec_len times.old + 1 }
    ensures capacity { vec_capacity times.new ≡ vec_capacity times.old }
{
    let kept = times.len();
    if kept > 0 && time <= times[kept - 1] {
        times.pop();
    } else {
        times.push_reserved(time);
    }
}
