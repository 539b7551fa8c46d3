use books::Call;
use file::Calls;
use std::test::Fail;
use terms::Refusal;

// Whoever puts calls together himself may have more than a file may: one more is refused, and they stay.
#[test]
fn calls_past_the_most(rt: HostRuntime) -> Result<(), Fail> {
    let rows = vec![in rt.alloc(); Call::Cancel(1); 4_097]?;
    let mut calls = Calls { rows };
    assert_eq!(rt; calls.add(Call::Cancel(2)), Err(Refusal::TooLong));
    assert_eq!(rt; calls.rows.len(), 4_097);
    Ok(())
}

// Up to the most they are taken, in order, and the one after that is refused.
#[test]
fn calls_up_to_the_most(rt: HostRuntime) -> Result<(), Fail> {
    let mut calls = Calls::none(rt.alloc())?;
    for number in 1..=4_096 {
        assert_eq!(rt; calls.add(Call::Cancel(number)), Ok(()));
    }
    assert_eq!(rt; calls.add(Call::Cancel(1)), Err(Refusal::TooLong));
    assert_eq!(rt; calls.rows.len(), 4_096);
    assert_eq!(rt; calls.rows.last().copied(), Some(Call::Cancel(4_096)));
    Ok(())
}
