ghost use Rattle.std.specs.Prelude.{◌≡◌, map, OnOk};
ghost use Rattle.text.specs.Fields.{see};
ghost use Rattle.text.specs.Lines.{bytes_in, line_of, CutAtLineEnd, words_of, fields_of, Spaced};

use crate::field::Field;
use std::alloc::AllocError;

const LINE_END: u8 = b'\n';

const SPACE: u8 = b' ';

// The first line, without its end, and what follows it. Bytes with no line's end behind them are no line.
pub fn next_line<'a>(bytes: &'a [u8]) -> Option<(&'a [u8], &'a [u8])>
    ensures value { bytes_in result ≡ line_of bytes.now }
    ensures law { CutAtLineEnd bytes.now (bytes_in result) }
{
    let end = bytes.iter().position(|b| *b == LINE_END)?;
    Some((&bytes[..end], &bytes[end + 1..]))
}

// Puts the fields of the line in place of what the list held, so that one list serves every line of a file.
// Nothing is trimmed: two spaces in a row, or one at either end, make an empty word.
pub fn split_into<'a>(line: &'a [u8], fields: &mut Vec<Field<'a>>) -> Result<(), AllocError>
    ensures value { OnOk result (map see fields.new.items ≡ fields_of line.now) }
    ensures law { Spaced line.now (words_of line.now) }
{
    fields.clear();
    for word in line.split(|b| *b == SPACE) {
        fields.push(Field::from(word))?;
    }
    Ok(())
}
