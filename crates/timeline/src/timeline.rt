//! A timeline: a count and the caller's table.
ghost use Rattle.std.specs.Prelude.{◌≡◌, ◌+◌, ◌<◌, length, slice_set};
ghost use Rattle.timeline.specs.Timelines.{Appends, Puts, Amends, Strikes};

use crate::end::End;
use crate::entry::Entry;
use crate::fault::{check_amend, check_put, check_strike};
use recording::refusal::{Reason, Refusal};

/// The entries are at the places below the count, in order of their times. The places from the
/// count on belong to the caller. A refused call writes nothing.
#[derive(Drop)]
pub struct Timeline<'a, E> {
    /// The caller's table. It may have more places than entries.
    pub table: &'a mut [E],
    /// The number of entries.
    pub count: usize,
}

impl<'a, E: Entry + Copy> Timeline<'a, E> {
    /// Adds an entry at the end and answers the new count. Refusal 1, 4, 5 or 6, at the count.
    pub fn put(self, e: E) -> Result<usize, Refusal>
        ensures added_at_the_end_or_refused { Puts E.kind
            self.entry.count self.entry.table.now e result self.exit.0.now }
    {
        let Timeline { table, count } = self;
        check_put(table, count, &e).map_err(|reason| reason.at(count))?;
        Ok(add_last(table, count, e))
    }

    /// Replaces the entry at a place and answers the count. Refusal 1, 2, 4 or 6, at the place.
    pub fn amend(self, place: usize, e: E) -> Result<usize, Refusal>
        ensures replaced_at_the_place_or_refused { Amends E.kind
            self.entry.count self.entry.table.now place e result self.exit.0.now }
    {
        let Timeline { table, count } = self;
        check_amend(table, count, place, &e).map_err(|reason| reason.at(place))?;
        table[place] = e;
        Ok(count)
    }

    /// Removes the entry at a place, moves the later ones down by one, and answers the new count.
    /// Refusal 1 or 2, at the place.
    pub fn strike(self, place: usize) -> Result<usize, Refusal>
        ensures taken_out_or_refused { Strikes E.kind
            self.entry.count self.entry.table.now place result self.exit.0.now }
    {
        let Timeline { table, count } = self;
        check_strike(table, count, place).map_err(|reason| reason.at(place))?;
        table.copy_within(place + 1..count, place);
        Ok(count - 1)
    }
}

/// Adds an entry at the end of a table that is known to be sound, and answers the new count. Looks
/// at the last entry only. Refusal 4, 5 or 6.
pub fn append<E: Entry + Copy>(table: &mut [E], count: usize, e: E) -> Result<usize, Reason>
    ensures added_at_the_end_or_refused { Appends E.kind count table.old e result table.new }
{
    End::of(table, count).after(&e)?;
    Ok(add_last(table, count, e))
}

// Writes an entry at the place after the counted ones, and answers the count with it.
fn add_last<E: Copy>(table: &mut [E], count: usize, e: E) -> usize
    requires { count < length table.old }
    ensures count { result ≡ count + 1 }
    ensures table { table.new ≡ slice_set table.old count e }
{
    table[count] = e;
    count + 1
}
