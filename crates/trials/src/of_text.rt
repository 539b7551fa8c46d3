use std::test::Fail;
use terms::Refusal;
use text::{
    Field, at_end, letter_in, next_line, number, number_in, split_into, take_letter, take_number,
};

#[test]
fn numbers(rt: HostRuntime) {
    let some = [
        ("0", Some(0)),
        ("7", Some(7)),
        ("10", Some(10)),
        ("-12", Some(-12)),
        ("20140301", Some(20140301)),
        ("999999999999999999", Some(999_999_999_999_999_999)),
        (
            "1234567890123456789012345678901234567890",
            Some(1_000_000_000_000_000_000),
        ),
        (
            "-1234567890123456789012345678901234567890",
            Some(-1_000_000_000_000_000_000),
        ),
        ("-0", None),
        ("+5", None),
        ("007", None),
        ("-", None),
        ("--5", None),
        ("", None),
        ("00", None),
        ("-012", None),
        ("5a", None),
        ("5 ", None),
        ("1.5", None),
    ];
    for (text, value) in some {
        assert_eq!(rt; number(text.as_bytes()), value);
    }
}

#[test]
fn lines(rt: HostRuntime) -> Result<(), Fail> {
    let some = [
        ("a b\nc\n", "a b", "c\n"),
        ("a\n", "a", ""),
        ("\n", "", ""),
        ("\n\na", "", "\na"),
        ("a\r\nb", "a\r", "b"),
    ];
    for (text, line, rest) in some {
        let (first, others) = next_line(text.as_bytes()).ok_or("no line")?;
        assert_eq!(rt; first, line.as_bytes());
        assert_eq!(rt; others, rest.as_bytes());
    }
    assert_eq!(rt; next_line(b""), None);
    assert_eq!(rt; next_line(b"a b"), None);
    Ok(())
}

#[test]
fn fields(rt: HostRuntime) -> Result<(), Fail> {
    let some: [(&[u8], &[Field]); 5] = [
        (
            b"a  b",
            &[Field::Word(b"a"), Field::Word(b""), Field::Word(b"b")],
        ),
        (b" a", &[Field::Word(b""), Field::Word(b"a")]),
        (b"a ", &[Field::Word(b"a"), Field::Word(b"")]),
        (b"", &[Field::Word(b"")]),
        (
            b"12 -3 07",
            &[Field::Number(12), Field::Number(-3), Field::Word(b"07")],
        ),
    ];
    let mut fields = Vec::new(rt.alloc());
    for (line, cut) in some {
        split_into(line, &mut fields)?;
        assert_eq!(rt; fields.as_slice(), cut);
    }
    Ok(())
}

#[test]
fn fields_one_after_another(rt: HostRuntime) -> Result<(), Fail> {
    assert_eq!(rt; letter_in(Field::Word(b"B")), Ok(b'B'));
    assert_eq!(rt; letter_in(Field::Word(b"BB")), Err(Refusal::Form));
    assert_eq!(rt; letter_in(Field::Word(b"")), Err(Refusal::Form));
    assert_eq!(rt; letter_in(Field::Number(5)), Err(Refusal::Form));
    assert_eq!(rt; number_in(Field::Number(-5)), Ok(-5));
    assert_eq!(rt; number_in(Field::Word(b"5a")), Err(Refusal::Form));
    let fields = [Field::Word(b"B"), Field::Number(7)];
    let (letter, rest) = take_letter(&fields)?;
    assert_eq!(rt; letter, b'B');
    assert_eq!(rt; at_end(rest), Err(Refusal::Form));
    assert!(rt; take_letter(rest).is_err());
    let (number, rest) = take_number(rest)?;
    assert_eq!(rt; number, 7);
    assert_eq!(rt; at_end(rest), Ok(()));
    assert!(rt; take_letter(rest).is_err());
    assert!(rt; take_number(rest).is_err());
    Ok(())
}
