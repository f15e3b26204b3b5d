// What the pins of a gate see of the waves of their lines, change by change; and what they see where each has one delay.
ghost use Rattle.std.specs.Prelude.{◌≡◌, ◌<◌, ◌≤◌, ℕ, List, length};
ghost use Rattle.delay_replay.specs.Changes.{Changes, IsBounded};
ghost use Rattle.delay_replay.specs.PinCopies.{CanRead, IsTimeAt, copies_of_lines};
ghost use Rattle.delay_replay.specs.PinChanges.{copy_at};

use crate::Wave;
use crate::wave::later;
use pd_base::LineId;

/// What the pins of a gate see: for each pin a wave. A delay model gives them.
pub trait PinCopies {
    /// When they can be read.
    ghost can_read: { Self → Type 0 };

    /// What the pins see, by pin.
    ghost copies: { Self → List Changes };

    /// How many pins there are.
    fn pins(&self) -> usize
        requires { can_read self.now }
        ensures { result ≡ length (copies self.now) };

    /// The value that a pin sees before all changes.
    fn earliest(&self, pin: usize) -> bool
        requires can { can_read self.now }
        requires pin { pin < length (copies self.now) }
        ensures { result ≡ (copy_at (copies self.now) pin).before };

    /// When a pin sees the change at this place. None behind the last one.
    fn change(&self, pin: usize, place: usize) -> Option<i64>
        requires can { can_read self.now }
        requires pin { pin < length (copies self.now) }
        ensures { IsTimeAt (copy_at (copies self.now) pin) place result };
}

/// What the pins of a gate see of the waves of all lines, where each pin has one delay.
#[derive(Clone, Copy)]
pub struct LaterWaves<'n> {
    /// The delays of its pins, from pin 0 on.
    pub delays: &'n [u32],
    /// The lines that its pins read.
    pub lines: &'n [LineId],
    /// The waves of all lines.
    pub waves: &'n [Wave],
}

impl PinCopies for LaterWaves<'_> {
    ghost can_read = { λ s. CanRead s.delays.now s.lines.now s.waves.now };

    ghost copies = { λ s. copies_of_lines s.delays.now s.lines.now s.waves.now };

    fn pins(&self) -> usize {
        self.lines.len()
    }

    fn earliest(&self, pin: usize) -> bool {
        self.waves[self.lines[pin].0 as usize].earliest()
    }

    fn change(&self, pin: usize, place: usize) -> Option<i64> {
        let changes = self.waves[self.lines[pin].0 as usize].changes();
        if changes.len() <= place {
            return None;
        }
        Some(later(changes[place], self.delays[pin]))
    }
}
