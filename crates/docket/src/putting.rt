//! A reading put at the end of the counted samples of a table, or in the place of one. Table and
//! count are two parameters, since the prover does not cover passing a `Timeline` on.
ghost use Rattle.docket.specs.Dockets.{PutsReading, AmendsReading};

use recording::reading::Reading;
use recording::refusal::{Reason, Refusal};
use recording::sample::Sample;
use timeline::fault::{check_strike, check_table};
use timeline::timeline::Timeline;

// Adds the sample of a reading at the end, and answers the new count. The table is checked before
// the fields.
pub(crate) fn put_reading(
    table: &mut [Sample],
    count: usize,
    reading: Reading,
) -> Result<usize, Refusal>
    ensures { PutsReading count table.old reading result table.new }
{
    match reading.sample() {
        Ok(sample) => Timeline { table, count }.put(sample),
        Err(field) => {
            let refused = check_table(table, count).and(Err(Reason::OutsideLimits(field)));
            refused.map_err(|reason| reason.at(count))
        }
    }
}

// Replaces the sample at a place by that of a reading, and answers the count. Table and place are
// checked before the fields.
pub(crate) fn amend_reading(
    table: &mut [Sample],
    count: usize,
    place: usize,
    reading: Reading,
) -> Result<usize, Refusal>
    ensures { AmendsReading count table.old place reading result table.new }
{
    match reading.sample() {
        Ok(sample) => Timeline { table, count }.amend(place, sample),
        Err(field) => {
            let refused = check_strike(table, count, place).and(Err(Reason::OutsideLimits(field)));
            refused.map_err(|reason| reason.at(place))
        }
    }
}
