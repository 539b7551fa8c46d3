ghost use Rattle.std.specs.Prelude.{◌≡◌};
ghost use Rattle.std.specs.Option.{option_map};
ghost use Rattle.text.specs.Numbers.{digits, capped, plain, number_of, OneSpelling};
ghost use Rattle.text.specs.Fields.{piece_of, see};

// A number of greater size is read as this size, which is past every range of numbers.
const LIMIT: u64 = 1_000_000_000_000_000_000;

// A field of a line. A word borrows its bytes from the line.
#[derive(Clone, Copy, PartialEq, Eq, Debug)]
pub enum Field<'a> {
    Word(&'a [u8]),
    Number(i64),
}

// What the digits write, or nothing where a byte is no digit.
fn magnitude(ds: &[u8]) -> Option<i64>
    ensures { result ≡ option_map capped (digits 0 ds.now) }
{
    let mut v: u64 = 0;
    for d in ds {
        if !d.is_ascii_digit() {
            return None;
        }
        v = (v * 10 + u64::from(*d - b'0')).min(LIMIT);
    }
    Some(v as i64)
}

// Digits of which the first is not 0.
fn unsigned(ds: &[u8]) -> Option<i64>
    ensures { result ≡ plain ds.now }
{
    match ds {
        [] | [b'0', ..] => None,
        _ => magnitude(ds),
    }
}

// `0`, or an optional `-` and digits of which the first is not 0. Each number has one spelling, so `-0`, `+5` and
// `007` are none.
#[tactic(auto, using(crate::proofs::Spellings::one_spelling))]
pub fn number(word: &[u8]) -> Option<i64>
    ensures value { result ≡ number_of word.now }
    ensures law { OneSpelling word.now result }
{
    match word {
        [b'0'] => Some(0),
        [b'-', ds @ ..] => Some(-unsigned(ds)?),
        _ => unsigned(word),
    }
}

// A number, or else a word.
impl<'a> From<&'a [u8]> for Field<'a> {
    ghost from_gives = { λ word field. see field ≡ piece_of word.now };

    fn from(word: &'a [u8]) -> Field<'a> {
        match number(word) {
            Some(n) => Field::Number(n),
            None => Field::Word(word),
        }
    }
}
