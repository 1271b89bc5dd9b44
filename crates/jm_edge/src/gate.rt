// Places where a test can hold a worker.

use std::sync::Wait;

/// Workers call a gate before and after each call on what they share, with their number and the number of the call among
/// their own, counted from 0 modulo 2^32. A test holds them there, so that calls meet in an order that it wants.
pub trait Gate {
    /// Called before the call.
    fn before<R: Wait>(&self, rt: &R, worker: u8, call: u32);

    /// Called after it.
    fn after<R: Wait>(&self, rt: &R, worker: u8, call: u32);
}

/// A gate that holds nobody.
#[derive(Clone, Copy, Debug, Drop)]
pub struct FreeGate;

impl Gate for FreeGate {
    fn before<R: Wait>(&self, _rt: &R, _worker: u8, _call: u32) {}

    fn after<R: Wait>(&self, _rt: &R, _worker: u8, _call: u32) {}
}
