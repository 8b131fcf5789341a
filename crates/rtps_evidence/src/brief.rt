use crate::exchange::Exchange;
use rtps_audit::Verdict;

/// What a pair said to each other, and the verdict on it.
#[derive(Drop)]
pub(crate) struct Brief<'s, 'a> {
    pub(crate) exchange: Exchange<'s, 'a>,
    pub(crate) verdict: Verdict,
}
