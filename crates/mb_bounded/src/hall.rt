//! What the ends of a channel share.
use crate::office::Office;
use mb_ring::Ring;
use std::alloc::Global;
use std::sync::Arc;

/// The ring, and the desk that issues its passes.
#[derive(Drop)]
pub struct Hall<T: Drop> {
    pub(crate) ring: Ring<T, Global>,
    pub(crate) office: Office<T>,
}

pub type Shared<T> = Arc<Hall<T>, Global>;
