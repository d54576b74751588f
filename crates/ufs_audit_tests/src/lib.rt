//! Tests of the audit of a volume, over images of volumes in which bytes are changed. They stand apart
//! from the audit, so that both are proved side by side.
#![tactic(auto)]

#[cfg(test)]
mod audit_tests;
#[cfg(test)]
mod volumes;
