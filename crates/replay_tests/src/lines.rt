//! Lines that are not calls, calls that the docket's state does not allow, and lines without an
//! answer.
use crate::asking::*;
use std::test::Fail;

#[test]
fn no_lines_have_no_answers(rt: HostRuntime) -> Result<(), Fail> {
    answers(&rt, "", "")?;
    answers(&rt, "\n\n# close\n#\n", "")
}

// A comment begins with `#`, and one space separates words.
#[test]
fn lines_that_are_no_call(rt: HostRuntime) -> Result<(), Fail> {
    answers(
        &rt,
        "\
good bye
 close
close 
strike
strike  0
strike 0 0
Strike 0
strike -1
strike 18446744073709551616
strike 1a # no remark",
        "\
line 1 is no call
line 2 is no call
line 3 is no call
line 4 is no call
line 5 is no call
line 6 is no call
line 7 is no call
line 8 is no call
line 9 is no call
line 10 is no call
",
    )
}

// Whole fields of 32 bits, floats of 32 bits, and whole bytes.
#[test]
fn figures_that_are_none(rt: HostRuntime) -> Result<(), Fail> {
    answers(
        &rt,
        "\
put-whole 4294967296 50000 0
put-whole 0 50000 2147483648
put-floating 0 142480000 0
put-floating 0 50.0 0
load-whole 0
load-whole 0g
load-whole 00 00
deliver R6 9223372036854775808
settings rate 125
settings 125 500 150 200 20000 8000",
        "\
line 1 is no call
line 2 is no call
line 3 is no call
line 4 is no call
line 5 is no call
line 6 is no call
line 7 is no call
line 8 is no call
line 9 is no call
line 10 is no call
",
    )
}

// A number may begin with a plus.
#[test]
fn figures_with_a_sign(rt: HostRuntime) -> Result<(), Fail> {
    answers(
        &rt,
        "put-whole +100 050000 -0\nstrike +0",
        "count 1\ncount 0\n",
    )
}

// An open docket does not allow deliver and reopen, a closed one allows nothing else. The run goes
// on.
#[test]
fn calls_that_are_not_offered(rt: HostRuntime) -> Result<(), Fail> {
    answers(
        &rt,
        "deliver R6 0\nreopen\nstrike 0",
        "line 1 is not offered\nline 2 is not offered\nrefused 2 layer docket place 0 position 0 field 0\n",
    )?;
    answers_after_fall(
        &rt,
        "\
put-whole 30000 50000 0
amend-whole 0 5000 50000 0
load-whole
strike 0
close
reopen
",
        "\
line 6 is not offered
line 7 is not offered
line 8 is not offered
line 9 is not offered
line 10 is not offered
reopened
",
    )
}
