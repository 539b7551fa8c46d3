ghost use Rattle.std.specs.Prelude.{◌≡◌, ◌<◌, ◌≤◌};
ghost use Rattle.days.specs.Months.{lengths, month_from, start_from, month_of, month_start, month_length};

// The days of four years, after which months repeat.
const CYCLE: u16 = 1461;

// The months of those years, of which the first has a leap day.
const LENGTHS: [u16; 48] = [
    31, 29, 31, 30, 31, 30, 31, 31, 30, 31, 30, 31, 31, 28, 31, 30, 31, 30, 31, 31, 30, 31, 30, 31,
    31, 28, 31, 30, 31, 30, 31, 31, 30, 31, 30, 31, 31, 28, 31, 30, 31, 30, 31, 31, 30, 31, 30, 31,
];

// The days of a month.
pub(crate) fn length_of(month: u16) -> u16
    ensures value { result ≡ month_length month }
    ensures bound { result ≤ 31 }
{
    LENGTHS[usize::from(month) % 48]
}

// Which of the 48 months has a day of the four years.
fn month_in_cycle(day: u16) -> u16
    ensures value { result ≡ month_from lengths day }
    ensures bound { result ≤ 48 }
{
    let mut left = day;
    for (month, length) in LENGTHS.iter().enumerate() {
        if left < *length {
            return month as u16;
        }
        left -= *length;
    }
    48
}

// The first day of one of the 48 months.
fn start_in_cycle(month: u16) -> u16
    requires { month < 48 }
    ensures value { result ≡ start_from lengths month }
    ensures bound { result ≤ 1488 }
{
    LENGTHS[..usize::from(month)].iter().sum()
}

// The month in which a day lies.
pub(crate) fn month_of(day: u16) -> u16
    ensures { result ≡ month_of day }
{
    48 * (day / CYCLE) + month_in_cycle(day % CYCLE)
}

// The first day of a month, past the end of 2099 too.
pub(crate) fn start_of(month: u16) -> u16
    requires { month < 1300 }
    ensures { result ≡ month_start month }
{
    CYCLE * (month / 48) + start_in_cycle(month % 48)
}
