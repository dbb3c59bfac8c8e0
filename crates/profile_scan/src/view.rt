//! What a scan keeps, as one source sees it.

use criteria::Criterion;
use scan_state::Origin;

/// What a scan keeps of all trips and stops, and for one source.
#[derive(Clone, Copy)]
pub struct ScanView<'a, C: Criterion, K> {
    pub keeping: &'a K,
    pub origin: &'a Origin<C>,
}
