//! The request for a delivery, beside a record and its disturbance.
use response::service::Service;
use response::settings::Settings;
use timeline::target::Target;

/// A service and the amount enabled for it.
#[derive(Clone, Copy)]
pub struct Enablement {
    /// The service to deliver.
    pub service: Service,
    /// The enabled amount in W, from 0 to 1,000,000,000; a delivery checks it.
    pub watts: i64,
}

/// Settings and response rule, dispatch targets, and the enablement.
#[derive_where(Clone, Copy)]
pub struct Request<'a, R> {
    /// The settings, of which a delivery reads the ramp rate and the base window.
    pub settings: &'a Settings,
    /// The response rule.
    pub rule: &'a R,
    /// The targets' table, with a place for each counted target or more.
    pub targets: &'a [Target],
    /// The number of targets; with 0 the base is not raised.
    pub count: usize,
    /// The service and its enabled amount.
    pub enablement: Enablement,
}
