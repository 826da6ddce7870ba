//! Each refusal by its number, from 1 to 18.
use crate::asking::*;
use std::test::Fail;

// Another table: one with fewer places than the docket's count, for an open and a closed docket.
#[test]
fn number_1(rt: HostRuntime) -> Result<(), Fail> {
    answers(
        &rt,
        "\
put-whole 100 50000 0
places 0
put-whole 200 50000 0
amend-whole 3 200 50000 0
strike 0
load-whole
close
",
        "\
count 1
done
refused 1 layer docket place 1 position 0 field 0
refused 1 layer docket place 3 position 0 field 0
refused 1 layer docket place 0 position 0 field 0
refused 1 layer docket place 0 position 0 field 0
refused 1 layer docket place 0 position 0 field 0
",
    )?;
    answers_after_fall(
        &rt,
        "places 3\ndeliver R6 0",
        "done\nrefused 1 layer docket place 0 position 0 field 0\n",
    )
}

// Beyond the count, of samples and of targets.
#[test]
fn number_2(rt: HostRuntime) -> Result<(), Fail> {
    answers(
        &rt,
        "\
put-whole 100 50000 0
amend-whole 1 200 50000 0
strike 7
target-strike 0
target-amend 2 0 0
",
        "\
count 1
refused 2 layer docket place 1 position 0 field 0
refused 2 layer docket place 7 position 0 field 0
refused 2 layer docket place 0 position 0 field 0
refused 2 layer docket place 2 position 0 field 0
",
    )
}

// A cut record, alone and after one whole record, which is 12 bytes; nothing is loaded.
#[test]
fn number_3(rt: HostRuntime) -> Result<(), Fail> {
    answers(
        &rt,
        "\
load-whole 00
load-floating 000000644248000000000000ffff
put-whole 0 50000 0
",
        "\
refused 3 layer recording place 0 position 0 field 0
refused 3 layer recording place 1 position 12 field 0
count 1
",
    )
}

// A field outside its limits: time, frequency, power. 7fc00000 is a NaN, and 447a0001 the float
// above 1,000 MW. In a recording the place is the member's, and the position that of its first
// byte.
#[test]
fn number_4(rt: HostRuntime) -> Result<(), Fail> {
    answers(
        &rt,
        "\
put-whole 0 50000 0
put-whole 1200001 0 2000000000
put-whole 100 46999 0
put-whole 100 52001 0
put-whole 100 50000 -1000000001
put-floating 100 7fc00000 0
put-floating 100 42480000 447a0001
amend-whole 0 100 0 0
load-whole 0000006400000000000000000000006400000000
load-whole 000000640000c350000000000000000000000000000000000000
target-put 1200001 0
target-put 0 1000000001
",
        "\
count 1
refused 4 layer reading place 1 position 0 field 1
refused 4 layer reading place 1 position 0 field 2
refused 4 layer reading place 1 position 0 field 2
refused 4 layer reading place 1 position 0 field 3
refused 4 layer reading place 1 position 0 field 2
refused 4 layer reading place 1 position 0 field 3
refused 4 layer reading place 0 position 0 field 2
refused 4 layer reading place 0 position 0 field 2
refused 4 layer reading place 1 position 12 field 2
refused 4 layer reading place 0 position 0 field 1
refused 4 layer reading place 0 position 0 field 3
",
    )
}

// A full table, of samples and of targets: there may be 16.
#[test]
fn number_5(rt: HostRuntime) -> Result<(), Fail> {
    answers(
        &rt,
        "\
places 1
put-whole 100 50000 0
put-whole 200 50000 0
load-whole 000000c80000c35000000000
",
        "\
done
count 1
refused 5 layer docket place 1 position 0 field 0
refused 5 layer docket place 0 position 0 field 0
",
    )?;
    answers(
        &rt,
        "\
target-put 0 0
target-put 1 0
target-put 2 0
target-put 3 0
target-put 4 0
target-put 5 0
target-put 6 0
target-put 7 0
target-put 8 0
target-put 9 0
target-put 10 0
target-put 11 0
target-put 12 0
target-put 13 0
target-put 14 0
target-put 15 0
target-put 16 0
",
        "\
count 1
count 2
count 3
count 4
count 5
count 6
count 7
count 8
count 9
count 10
count 11
count 12
count 13
count 14
count 15
count 16
refused 5 layer docket place 16 position 0 field 0
",
    )
}

// A time that is not later than the one before, or not earlier than the one after.
#[test]
fn number_6(rt: HostRuntime) -> Result<(), Fail> {
    answers(
        &rt,
        "\
put-whole 100 50000 0
put-whole 100 50000 0
put-whole 200 50000 0
amend-whole 0 200 50000 0
load-whole 000000640000c35000000000
target-put 5 0
target-put 5 0
",
        "\
count 1
refused 6 layer docket place 1 position 0 field 0
count 2
refused 6 layer docket place 0 position 0 field 0
refused 6 layer docket place 0 position 0 field 0
count 1
refused 6 layer docket place 1 position 0 field 0
",
    )
}

// No disturbance: no samples, and samples that stay inside.
#[test]
fn number_7(rt: HostRuntime) -> Result<(), Fail> {
    answers(
        &rt,
        "close\nput-whole 100 50000 0\nput-whole 200 49850 0\nclose\n",
        "\
refused 7 layer docket place 0 position 0 field 0
count 1
count 2
refused 7 layer docket place 0 position 0 field 0
",
    )
}

// An amount below 0, and one above 1,000,000,000 W.
#[test]
fn number_8(rt: HostRuntime) -> Result<(), Fail> {
    answers_after_fall(
        &rt,
        "deliver R6 -1\ndeliver L60 1000000001",
        "\
refused 8 layer delivery place 0 position 0 field 0
refused 8 layer delivery place 0 position 0 field 0
",
    )
}

// Lower services, while the frequency fell.
#[test]
fn number_9(rt: HostRuntime) -> Result<(), Fail> {
    answers_after_fall(
        &rt,
        "deliver L6 0\ndeliver L60 0\ndeliver L5 0",
        "\
refused 9 layer delivery place 0 position 0 field 0
refused 9 layer delivery place 0 position 0 field 0
refused 9 layer delivery place 0 position 0 field 0
",
    )
}

// A new targets' table under the count of the old one: two blank targets at one time.
#[test]
fn number_10(rt: HostRuntime) -> Result<(), Fail> {
    answers_after_fall(
        &rt,
        "\
target-put 0 0
target-put 20001 0
target-table
deliver R6 0
target-put 20002 0
target-strike 5
",
        "\
count 1
count 2
done
refused 10 layer delivery place 0 position 0 field 0
refused 1 layer docket place 2 position 0 field 0
refused 1 layer docket place 5 position 0 field 0
",
    )
}

// No base sample: the sample at 5,000 is 15,001 ms before the disturbance.
#[test]
fn number_11(rt: HostRuntime) -> Result<(), Fail> {
    answers_after_fall(
        &rt,
        "\
settings rate 125 reference 500 dead-band 150 switch 200 begin 10000 end 8000
deliver R6 0
",
        "done\nrefused 11 layer delivery place 0 position 0 field 0\n",
    )
}

// Targets that end 1 ms before the disturbance.
#[test]
fn number_12(rt: HostRuntime) -> Result<(), Fail> {
    answers_after_fall(
        &rt,
        "target-put 0 0\ntarget-put 20000 0\ndeliver R6 0",
        "count 1\ncount 2\nrefused 12 layer delivery place 0 position 0 field 0\n",
    )
}

// The greatest dip is 250 mHz.
#[test]
fn number_13(rt: HostRuntime) -> Result<(), Fail> {
    answers_after_fall(
        &rt,
        "\
rule-switching
settings rate 125 reference 500 dead-band 150 switch 300 begin 20000 end 8000
deliver R6 0
",
        "done\ndone\nrefused 13 layer delivery place 0 position 0 field 0\n",
    )
}

// It recovers before the slow and the delayed services' first window begins.
#[test]
fn number_14(rt: HostRuntime) -> Result<(), Fail> {
    answers_after_fall(
        &rt,
        "deliver R60 0\ndeliver R5 0",
        "\
refused 14 layer delivery place 0 position 0 field 0
refused 14 layer delivery place 0 position 0 field 0
",
    )
}

// It stays low, and the record ends inside the window.
#[test]
fn number_15(rt: HostRuntime) -> Result<(), Fail> {
    answers_after_fall(
        &rt,
        "reopen\namend-whole 3 20100 49750 1000\nclose\ndeliver R6 0",
        "\
reopened
count 4
closed 20001 low
refused 15 layer delivery place 0 position 0 field 0
",
    )
}

// The switching rule's slow ramp moves the window before the dense samples.
#[test]
fn number_16(rt: HostRuntime) -> Result<(), Fail> {
    answers_after_fall(
        &rt,
        "rule-switching\ndeliver R6 0",
        "done\nrefused 16 layer delivery place 0 position 0 field 0\n",
    )
}

// Each of the six settings below or above its limits, and a trial's window.
#[test]
fn number_17(rt: HostRuntime) -> Result<(), Fail> {
    answers(
        &rt,
        "\
settings rate 0 reference 500 dead-band 150 switch 200 begin 20000 end 8000
settings rate 125 reference 159 dead-band 150 switch 200 begin 20000 end 8000
settings rate 125 reference 500 dead-band 151 switch 200 begin 20000 end 8000
settings rate 125 reference 500 dead-band 150 switch 2001 begin 20000 end 8000
settings rate 125 reference 500 dead-band 150 switch 200 begin 60001 end 8000
settings rate 125 reference 500 dead-band 150 switch 200 begin 8000 end 8000
trial 60001 0
",
        "\
refused 17 layer setup place 0 position 0 field 0
refused 17 layer setup place 0 position 0 field 0
refused 17 layer setup place 0 position 0 field 0
refused 17 layer setup place 0 position 0 field 0
refused 17 layer setup place 0 position 0 field 0
refused 17 layer setup place 0 position 0 field 0
refused 17 layer setup place 0 position 0 field 0
",
    )
}

// A code is read before the docket is called, so a wrong one is refused on an open docket too.
#[test]
fn number_18(rt: HostRuntime) -> Result<(), Fail> {
    answers(
        &rt,
        "deliver R7 0",
        "refused 18 layer setup place 0 position 0 field 0\n",
    )?;
    answers_after_fall(
        &rt,
        "deliver r6 0\ndeliver  0",
        "\
refused 18 layer setup place 0 position 0 field 0
refused 18 layer setup place 0 position 0 field 0
",
    )
}
