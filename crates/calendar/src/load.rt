ghost use Rattle.std.specs.Prelude.{◌≡◌, ◌^◌, ◌<◌, Ok};
ghost use Rattle.calendar.specs.declared.load.Load.TheVariants.{Base, Peak};
ghost use Rattle.calendar.specs.Loads.{load_of, load_letter, load_mask, mask_of, last_sunday_of, HourByHour};

use crate::profile::Profile;
use days::{Day, Weekday};
use terms::Refusal;

// The load profiles that go by a letter.
#[derive(Clone, Copy, PartialEq, Eq, Debug)]
pub enum Load {
    // All hours: 24, and 23 or 25 on the days of the clock changes.
    Base,
    // Hours 9 to 20, Monday to Friday.
    Peak,
    // The gas day, as hour 1.
    Gas,
}

impl TryFrom<u8> for Load {
    type Error = Refusal;

    ghost try_from_gives = { λ letter r. r ≡ load_of letter };

    fn try_from(letter: u8) -> Result<Load, Refusal> {
        match letter {
            b'B' => Ok(Load::Base),
            b'P' => Ok(Load::Peak),
            b'G' => Ok(Load::Gas),
            _ => Err(Refusal::Form),
        }
    }
}

impl From<Load> for u8 {
    ghost from_gives = { λ load letter. (letter ≡ load_letter load) × (load_of letter ≡ Ok load) };

    fn from(load: Load) -> u8 {
        match load {
            Load::Base => b'B',
            Load::Peak => b'P',
            Load::Gas => b'G',
        }
    }
}

impl Profile for Load {
    ghost mask = { load_mask };

    #[tactic(auto, using(crate::proofs::Masks::mask_is, crate::proofs::Masks::hour_by_hour))]
    fn mask(&self, day: Day) -> u32
        ensures value { result ≡ load_mask self.now day.number }
        ensures bound { result < 2 ^ 25 }
        ensures law { HourByHour self.now day.number }
    {
        match self {
            Load::Base => base_mask(day),
            Load::Peak => peak_mask(day),
            Load::Gas => 1,
        }
    }
}

// Hours 1 to 24, to 23 where the clock goes forward and to 25 where it goes back.
fn base_mask(day: Day) -> u32
    ensures value { result ≡ mask_of Base day.number }
    ensures bound { result < 2 ^ 25 }
{
    if is_last_sunday_of(day, 2) {
        0x7f_ffff
    } else if is_last_sunday_of(day, 9) {
        0x1ff_ffff
    } else {
        0xff_ffff
    }
}

// Hours 9 to 20, Monday to Friday.
fn peak_mask(day: Day) -> u32
    ensures value { result ≡ mask_of Peak day.number }
    ensures bound { result < 2 ^ 25 }
{
    match day.weekday() {
        Weekday::Saturday | Weekday::Sunday => 0,
        _ => 0xf_ff00,
    }
}

// Whether a day is the last Sunday of a month of the year, of which January is 0.
#[tactic(auto, using(crate::proofs::Parts::last_week_is), unfolding(crate::specs::Loads::last_sunday_of))]
fn is_last_sunday_of(day: Day, month: u16) -> bool
    ensures { result ≡ last_sunday_of month day.number }
{
    day.weekday() == Weekday::Sunday
        && day.month() % 12 == month
        && day.last_of_month().number - day.number < 7
}
