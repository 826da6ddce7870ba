//! A call on a docket, as an entry of a list.
use figure::request::Request;
use recording::reading::Reading;

/// One of the seven calls with its arguments, apart from the docket and its table.
#[derive_where(Clone, Copy)]
pub enum Call<'a, R, P> {
    /// On an open docket.
    Put(Reading),
    /// On an open docket.
    Load(&'a R),
    /// The place and the new reading, on an open docket.
    Amend(usize, Reading),
    /// The place, on an open docket.
    Strike(usize),
    /// On an open docket.
    Close,
    /// On a closed docket.
    Deliver(Request<'a, P>),
    /// On a closed docket.
    Reopen,
}
