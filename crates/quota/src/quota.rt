use crate::limit::Limit;
use rolled::rolled::Rolled;

// Hushes notes, in an order of its own, so that no more sound than its limit, which is its item 0.
#[derive(Drop)]
pub struct Quota<S, O> {
    rolled: Rolled<S>,
    limit: Limit,
    order: O,
}

pub mod calls;
mod hushing;
