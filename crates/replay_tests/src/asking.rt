//! How the examples replay a script.
use replay::replay::replay;
use std::process::Abort;
use std::test::Fail;

// A fall by 2 mHz a ms from 49,850 mHz at 20,000 ms, so that the disturbance is at 20,001, and a
// rise by 10 mHz a ms from 49,750 at 20,050: on 50,000 at 20,075, recovered at 20,076. Then the
// docket is closed.
pub(crate) const FALL: &str = "\
put-whole 5000 50000 0
put-whole 20000 49850 0
put-whole 20050 49750 1000
put-whole 20100 50250 1000
close
";

// The answers to the fall.
pub(crate) const FALLEN: &str = "\
count 1
count 2
count 3
count 4
closed 20001 low
";

// A script has this text of answers.
pub(crate) fn answers<R: Abort + AllocGlobal>(
    rt: &R,
    script: &str,
    expected: &str,
) -> Result<(), Fail> {
    let text = replay(rt.alloc(), script)?;
    assert_eq!(rt; text.as_str(), expected);
    Ok(())
}

// After the fall, a script has this text of answers.
pub(crate) fn answers_after_fall<R: Abort + AllocGlobal>(
    rt: &R,
    script: &str,
    expected: &str,
) -> Result<(), Fail> {
    let script = format!(in rt.alloc(); "{FALL}{script}")?;
    let expected = format!(in rt.alloc(); "{FALLEN}{expected}")?;
    answers(rt, script.as_str(), expected.as_str())
}
