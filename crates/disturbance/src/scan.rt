//! One pass over the stretches of a trace.
ghost use Rattle.disturbance.specs.Stretches.{FirstFound};

use crate::stretch::Stretch;
use crate::trace::Trace;

// What `find` finds on the first stretch where it finds something, or none.
pub(crate) fn first_found<T, F: Fn(Stretch) -> Option<T>>(trace: Trace, find: F) -> Option<T>
    requires { F.IsAlwaysCallable find }
    ensures { FirstFound (F.post find) trace.entry.samples.now result }
{
    // A loop, since the closure of `find_map` could not know that the pair is in order.
    for pair in trace.samples.windows(2) {
        let stretch = Stretch {
            before: pair[0],
            after: pair[1],
        };
        if let Some(found) = find(stretch) {
            return Some(found);
        }
    }
    None
}
