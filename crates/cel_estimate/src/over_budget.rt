use thiserror::Error;

/// An expression may charge more than 10,000,000; the estimate is reported up to the greatest number of 64 bits.
#[derive(Clone, Copy, Debug, PartialEq, Eq, Error)]
#[error("the expression may charge {estimate}, more than 10000000")]
pub struct OverBudget {
    pub estimate: u64,
}
