//! A zone as it is looked up in.

use crate::features::Features;
use hickory_base::zone_store::RecordSet;
use hickory_wire::{LowerName, RrKey};
use std::collections::BTreeMap;
use std::rc::Rc;

/// A zone, with what may be in it.
#[derive(Clone, Copy)]
pub struct ZoneView<'z> {
    /// The name of its apex.
    pub origin: &'z LowerName,
    /// Its record sets.
    pub sets: &'z BTreeMap<RrKey, Rc<RecordSet>>,
    /// What may be in it.
    pub has: Features,
}
