ghost use Rattle.std.specs.Prelude.{◌≡◌, ◌+◌, ◌-◌, ◌*◌, ◌≤◌, true, length, count_ones};
ghost use Rattle.calendar.specs.Examples.{published, every};
ghost use Rattle.calendar.specs.Hours.{hours_between};

use crate::period::Period;
use crate::profile::Profile;
use days::Day;

// The delivery hours of a day: the ones in its mask.
pub fn hours_of_day<P: Profile>(profile: &P, day: Day) -> u32
    ensures value { result ≡ count_ones (P.Profile.mask profile.now day.number) }
    ensures bound { result ≤ 25 }
{
    profile.mask(day).count_ones()
}

// The delivery hours of all days of a period.
#[tactic(auto, unfolding(crate::specs::Hours::hours_from))]
pub fn hours_of_period<P: Profile>(profile: &P, period: Period) -> u32
    ensures value { result ≡ hours_between (P.Profile.mask profile.now) period.first.number period.last.number }
    ensures bound { result ≤ 25 * (period.last.number - period.first.number + 1) }
{
    let mut sum = 0;
    for number in period.first.number..=period.last.number {
        sum += hours_of_day(profile, Day { number });
    }
    sum
}

// How many published figures these rules were held to: each comes out as it was published.
pub fn published_hours() -> u8
    ensures count { result ≡ length published }
    ensures stand { every published ≡ true }
{
    6
}
