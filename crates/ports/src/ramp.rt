ghost use Rattle.std.specs.Prelude.{◌≡◌, true, false, Ok, Err};
ghost use Rattle.vocabulary.specs.declared.refusal.Cause.TheVariants.{RampRange};
ghost use Rattle.vocabulary.specs.Refusals.{refusal};
ghost use Rattle.ports.specs.Laws.{ramp_lawful};
ghost use Rattle.ports.specs.Ramps.{ramp_items, ramp_fits};

use crate::feed::Feed;
use vocabulary::item::Item;
use vocabulary::refusal::{Cause, Refusal};

// The readings `at`, `at + step`, `at + 2 * step` and so on, `left` of them, each within 32 bits.
#[derive(Drop)]
pub struct Ramp {
    at: i32,
    step: i32,
    left: u16,
    ghost fits: { ramp_fits at step left ≡ true },
}

// Whether each reading of the ramp is within 32 bits.
fn fits(start: i32, step: i32, count: u16) -> bool
    ensures { result ≡ ramp_fits start step count }
{
    // All readings lie between the first, which is within 32 bits, and the last.
    let steps = count.saturating_sub(1);
    let last = i64::from(start) + i64::from(steps) * i64::from(step);
    i32::try_from(last).is_ok()
}

impl Ramp {
    // Refused exactly where a reading would leave 32 bits.
    pub fn new(start: i32, step: i32, count: u16) -> Result<Ramp, Refusal>
        ensures { elim result [ Ok ramp ↦ (ramp_fits start step count ≡ true) × (ramp_items ramp.at ramp.step ramp.left ≡ ramp_items start step count) | Err e ↦ (ramp_fits start step count ≡ false) × (e ≡ refusal RampRange 0) ] }
    {
        if fits(start, step, count) {
            Ok(Ramp {
                at: start,
                step,
                left: count,
            })
        } else {
            Err(Cause::RampRange.into())
        }
    }
}

impl Feed for Ramp {
    ghost waiting = { λ ramp. ramp_items ramp.at ramp.step ramp.left };

    ghost lawful = { λ ramp. ramp_lawful ramp.at ramp.step ramp.left };

    fn take(&mut self) -> Option<Item> {
        let left = self.left.checked_sub(1)?;
        let reading = self.at;
        // The step after the last reading may leave 32 bits: it is not taken.
        if left > 0 {
            self.at = reading + self.step;
        }
        self.left = left;
        Some(Item::Reading(reading))
    }
}
