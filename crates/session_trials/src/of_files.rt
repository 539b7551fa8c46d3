use session::printed;
use std::test::Fail;

// Each test is its file and what is printed of it: a frame would be no shorter than the two lines that read and compare.

// One forward on base load, two accounts of one agent, one opening position.
#[test]
fn calls_are_answered(rt: HostRuntime) -> Result<(), Fail> {
    let file =
        "MARGIN 10\nH 1\nI 1\nC 1\nA 2\nO 1\nL 0\nR 4\nK 0\nX 0\nE 4\n20140204 20140205 P\n1 W B 4000\n7 1 M 20140401 20140328 4400 4390\n11 1\n12 1\n11 7 2 9000\nD 1 1 1 2400 4400\nM 1 0 1 0 4400\nM 1 1 1 0 4400\nC 7 1 72000 4400 -100 100\nN 12 7 1 4450\nX 1\nX 1\nN 11 8 1 4450\n";
    let text = printed(rt.alloc(), file.as_bytes())?;
    assert_eq!(rt; text.as_str(), "0 1\n0 1\n12 0\n9 0\n");
    Ok(())
}

// The member may hold 3 of contract 7, each agent 2, and account 11 opens with 2.
#[test]
fn limits_of_the_file_hold(rt: HostRuntime) -> Result<(), Fail> {
    let file =
        "MARGIN 10\nH 1\nI 1\nC 1\nA 3\nO 1\nL 1\nR 4\nK 0\nX 0\nE 4\n20140204 20140205 P\n1 W B 4000\n7 1 M 20140401 20140328 4400 4390\n11 1\n12 1\n13 2\n11 7 2 9000\n7 3 2\nD 1 1 1 2400 4400\nM 1 0 1 0 4400\nM 1 1 1 0 4400\nC 7 1 72000 4400 -100 100\nN 12 7 1 4450\nN 13 7 1 4450\nN 13 7 1 4450\nN 12 7 -1 4450\n";
    let text = printed(rt.alloc(), file.as_bytes())?;
    assert_eq!(rt; text.as_str(), "16 0\n0 1\n16 0\n0 2\n");
    Ok(())
}

#[test]
fn files_are_refused_by_number_and_line(rt: HostRuntime) -> Result<(), Fail> {
    let some = [
        // No line at all, and another first line.
        ("", "1 1\n"),
        ("MARGIN 11\n", "1 1\n"),
        // The last contents line lacks its end.
        (
            "MARGIN 10\nH 1\nI 0\nC 0\nA 0\nO 0\nL 0\nR 0\nK 0\nX 0\nE 0",
            "1 11\n",
        ),
        // Nine instruments.
        ("MARGIN 10\nH 1\nI 9\n", "7 3\n"),
        // A horizon 15 days after the date.
        (
            "MARGIN 10\nH 1\nI 0\nC 0\nA 0\nO 0\nL 0\nR 0\nK 0\nX 0\nE 0\n20140204 20140219 P\n",
            "2 12\n",
        ),
        // A line left over.
        (
            "MARGIN 10\nH 1\nI 0\nC 0\nA 0\nO 0\nL 0\nR 0\nK 0\nX 0\nE 0\n20140204 20140205 P\n\n",
            "1 13\n",
        ),
        // Account 0 is out of range, and 12 comes a second time later on: the first line at fault is told.
        (
            "MARGIN 10\nH 1\nI 0\nC 0\nA 3\nO 0\nL 0\nR 0\nK 0\nX 0\nE 0\n20140204 20140205 P\n12 1\n0 1\n12 1\n",
            "2 14\n",
        ),
        // An instrument has three lines here, and none is given a risk.
        (
            "MARGIN 10\nH 1\nI 1\nC 0\nA 0\nO 0\nL 0\nR 0\nK 0\nX 0\nE 0\n20140204 20140205 P\n1 W B 4000\n",
            "6 8\n",
        ),
        // Nothing is wrong, and nothing is asked.
        (
            "MARGIN 10\nH 1\nI 0\nC 0\nA 0\nO 0\nL 0\nR 0\nK 0\nX 0\nE 0\n20140204 20140205 P\n",
            "",
        ),
    ];
    for (file, said) in some {
        let text = printed(rt.alloc(), file.as_bytes())?;
        assert_eq!(rt; text.as_str(), said);
    }
    Ok(())
}
