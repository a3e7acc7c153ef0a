//! The certificate of an auction as a value: it is gathered from the orders, and checked against them alone: whether its outcome is that of
//! the attempt, and whether the prices that it rules out are the nearer ones, with their sums.
#![tactic(auto)]

mod certificate;
mod checking;
mod gathering;
mod law;

pub use certificate::Certificate;
pub use checking::check;
pub use gathering::{CertificateFault, gather};
pub use law::true_certificate_decides;
