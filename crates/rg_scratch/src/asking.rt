use rg_metric::{Agg, Condition, Window};

/// An aggregator of a query, with all that it is asked over.
#[derive(Drop)]
pub(crate) struct Asking<'a> {
    pub(crate) agg: Agg,
    /// The columns of the key, each counted from 1.
    pub(crate) columns: &'a [u32],
    pub(crate) condition: &'a Option<Condition>,
    pub(crate) window: Window,
}
