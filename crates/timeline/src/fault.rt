//! The checks of a timeline's calls: the first reason that applies. They take table and count as
//! two parameters, since a closed docket and a delivery only read their tables.
ghost use Rattle.std.specs.Prelude.{[], ◌∷◌};
ghost use Rattle.timeline.specs.Checks.{Allows};
ghost use Rattle.timeline.specs.Faults.{other_table, put_checks, amend_checks, strike_checks};

use crate::end::End;
use crate::entry::{Entry, check_fields};
use crate::order::{is_misplaced, is_sound, time_after, time_before};
use recording::refusal::Reason;

/// Checks that a table has the counted entries, within their limits and in order: refusal 1.
pub fn check_table<E: Entry>(table: &[E], count: usize) -> Result<(), Reason>
    ensures allowed_or_other_table { Allows (other_table E.kind count table.now ∷ []) tt result }
{
    if is_sound(table, count) {
        Ok(())
    } else {
        Err(Reason::OtherTable)
    }
}

/// Checks whether an entry may be put at the end: refusal 1, 4, 5 or 6.
pub fn check_put<E: Entry>(table: &[E], count: usize, e: &E) -> Result<(), Reason>
    ensures allowed_or_the_first_fault_of_put { Allows (put_checks E.kind count table.now e.now) tt result }
{
    let end = End::of(table, count);
    check_table(table, count)?;
    end.after(e)?;
    Ok(())
}

/// Checks whether another entry may replace the one at a place: refusal 1, 2, 4 or 6.
pub fn check_amend<E: Entry>(table: &[E], count: usize, place: usize, e: &E) -> Result<(), Reason>
    ensures allowed_or_the_first_fault_of_amend { Allows (amend_checks E.kind count table.now place e.now) tt result }
{
    check_strike(table, count, place)?;
    check_fields(e)?;
    let counted = &table[..count];
    let before = time_before(counted, place);
    let after = time_after(counted, place);
    if is_misplaced(before, after, e.time()) {
        return Err(Reason::OutOfOrder);
    }
    Ok(())
}

/// Checks whether the entry at a place may be removed: refusal 1 or 2.
pub fn check_strike<E: Entry>(table: &[E], count: usize, place: usize) -> Result<(), Reason>
    ensures allowed_or_the_first_fault_of_strike { Allows (strike_checks E.kind count table.now place) tt result }
{
    check_table(table, count)?;
    if place < count {
        Ok(())
    } else {
        Err(Reason::BeyondCount)
    }
}
