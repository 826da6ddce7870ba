//! Each call that a script can make.
use crate::asking::*;
use std::test::Fail;

#[test]
fn put_amend_and_strike_of_samples(rt: HostRuntime) -> Result<(), Fail> {
    answers(
        &rt,
        "\
put-whole 100 50000 -5
put-whole 200 50000 1000000000
amend-whole 0 150 49000 7
strike 1
strike 0
put-whole 0 47000 -1000000000",
        "\
count 1
count 2
count 2
count 1
count 0
count 1
",
    )
}

// 50 Hz is 42480000, 52.0 Hz is 42500000, 47 Hz is 423c0000, and -1,000 MW is c47a0000.
#[test]
fn readings_in_floats(rt: HostRuntime) -> Result<(), Fail> {
    answers(
        &rt,
        "\
put-floating 100 42480000 00000000
put-floating 200 42500000 C47A0000
amend-floating 1 300 423c0000 0
",
        "\
count 1
count 2
count 2
",
    )
}

// The recordings are those of the samples of the fall from the second on: 20,000 is 4e20, 49,850 is
// c2ba, 20,050 is 4e52, 49.75 Hz is 42470000, 20,100 is 4e84, 50.25 Hz is 42490000, and the float
// next to 0.001 MW is 3a83126f.
#[test]
fn recordings_of_both_makes(rt: HostRuntime) -> Result<(), Fail> {
    answers(
        &rt,
        "\
put-whole 5000 50000 0
load-whole 00004e200000C2BA00000000
load-floating 00004e52424700003a83126f00004e84424900003a83126f
load-whole
load-floating
close
deliver R6 1359",
        "\
count 1
count 2
count 4
count 4
count 4
closed 20001 low
report disturbance 20001 recovery 20076 first 1360 second none delivery 1360 verdict met
",
    )
}

#[test]
fn the_enabled_amount_decides_the_verdict(rt: HostRuntime) -> Result<(), Fail> {
    answers_after_fall(
        &rt,
        "\
deliver R6 1359
deliver R6 1360
deliver R6 1361
",
        "\
report disturbance 20001 recovery 20076 first 1360 second none delivery 1360 verdict met
report disturbance 20001 recovery 20076 first 1360 second none delivery 1360 verdict level
report disturbance 20001 recovery 20076 first 1360 second none delivery 1360 verdict short
",
    )
}

// The switching rule delivers only with a fast ramp. What is amended after recovery changes no
// figure. Without the third sample the line rises from 49,850 at 20,000 by 4 mHz a ms, above 50,150
// at 20,076.
#[test]
fn rules_settings_and_reopen(rt: HostRuntime) -> Result<(), Fail> {
    answers_after_fall(
        &rt,
        "\
rule-switching
settings rate 10000 reference 500 dead-band 150 switch 200 begin 20000 end 8000
deliver R6 0
reopen
amend-whole 3 20100 50250 3000
close
deliver R6 0
rule-variable
settings rate 125 reference 500 dead-band 150 switch 200 begin 20000 end 8000
deliver R6 0
reopen
strike 2
close
",
        "\
done
done
report disturbance 20001 recovery 20076 first 1679 second none delivery 1679 verdict met
reopened
count 4
closed 20001 low
report disturbance 20001 recovery 20076 first 1679 second none delivery 1679 verdict met
done
done
report disturbance 20001 recovery 20076 first 1360 second none delivery 1360 verdict met
reopened
count 3
closed 20076 high
",
    )
}

// From 10,000 to 8,000 ms before the disturbance there is no sample. The settings are what they
// were after the trial; a refused trial leaves the window that is tried.
#[test]
fn a_trial_window_for_the_deliveries_in_it(rt: HostRuntime) -> Result<(), Fail> {
    answers_after_fall(
        &rt,
        "\
trial 10000 8000
deliver R6 0
trial 0 0
deliver R6 0
trial 20000 8000
deliver R6 0
trial 10000 8000
trial-end
deliver R6 0
",
        "\
done
refused 11 layer delivery place 0 position 0 field 0
refused 17 layer setup place 0 position 0 field 0
refused 11 layer delivery place 0 position 0 field 0
done
report disturbance 20001 recovery 20076 first 1360 second none delivery 1360 verdict met
done
done
report disturbance 20001 recovery 20076 first 1360 second none delivery 1360 verdict met
",
    )
}

// Targets that are level at 0 do not change the figure.
#[test]
fn targets_put_amended_and_struck(rt: HostRuntime) -> Result<(), Fail> {
    answers_after_fall(
        &rt,
        "\
target-put 0 0
target-put 20000 0
deliver R6 0
target-amend 1 20001 0
deliver R6 0
target-strike 1
deliver R6 0
target-strike 0
deliver R6 0
",
        "\
count 1
count 2
refused 12 layer delivery place 0 position 0 field 0
count 2
report disturbance 20001 recovery 20076 first 1360 second none delivery 1360 verdict met
count 1
refused 12 layer delivery place 0 position 0 field 0
count 0
report disturbance 20001 recovery 20076 first 1360 second none delivery 1360 verdict met
",
    )
}

// A new docket does not count the table's samples; a new table does not hold the docket's.
#[test]
fn a_new_docket_and_a_new_table(rt: HostRuntime) -> Result<(), Fail> {
    answers(
        &rt,
        "\
put-whole 100 50000 0
new
put-whole 50 50000 0
places 1
new
put-whole 50 50000 0
put-whole 60 50000 0
",
        "\
count 1
done
count 1
done
done
count 1
refused 5 layer docket place 1 position 0 field 0
",
    )
}

// A table may have a place for each sample that a docket may hold.
#[test]
fn as_many_places_as_samples(rt: HostRuntime) -> Result<(), Fail> {
    answers(
        &rt,
        "places 4096\nplaces 4097\nplaces 0",
        "done\nline 2 is no call\ndone\n",
    )
}
