//! What goes of a zone and what comes, as the records of update sections (RFC 2136 section 2.5).
//!
//! No clauses: `import` writes requests only if they make the other zone of a copy.

use crate::places::{Places, place_of, places_of};
use crate::sameness::{Sets, are_same};
use hickory_wire::{DNSClass, RData, Record, RecordType};
use std::alloc::{AllocError, Global};

/// What turns a zone into another one, but for the SOA record, by the forms of RFC 2136 section 2.5.
///
/// What goes stands before what comes, since a CNAME and other data of its name are not added beside one another
/// (section 3.4.2.2). NS records go last, since the only one of a name stays (section 3.4.2.4), and where a set of them
/// goes as a whole, first and at once (section 2.5.2).
#[derive(Drop)]
pub(crate) struct Changes {
    /// Deletions.
    going: Vec<Record>,
    /// Additions.
    coming: Vec<Record>,
    /// Deletions from sets of NS records that stay.
    going_last: Vec<Record>,
    /// How many records go.
    pub(crate) deleted: usize,
    /// How many records come, or have another TTL.
    pub(crate) added: usize,
}

/// The record of an update section that deletes this one (RFC 2136 section 2.5.4).
fn deletion(record: &Record) -> Result<Record, AllocError> {
    let mut deletion = record.clone()?;
    deletion.dns_class = DNSClass::NONE;
    deletion.ttl = 0;
    Ok(deletion)
}

/// The record of an update section that deletes the set of this one (RFC 2136 section 2.5.2).
fn set_deletion(record: &Record) -> Result<Record, AllocError> {
    let mut deletion = record.clone()?;
    deletion.dns_class = DNSClass::ANY;
    deletion.ttl = 0;
    deletion.rdata = RData::Update0(record.rdata.record_type());
    Ok(deletion)
}

/// The record among others that is the same as this one, if one is. The places are those of the others.
fn same_among<'r>(
    alloc: Global,
    others: &'r [Record],
    places: &Places,
    record: &Record,
) -> Result<Option<&'r Record>, AllocError> {
    let Some(place) = place_of(alloc, places, record)? else {
        return Ok(None);
    };
    match others.get(place) {
        Some(other) if record == other => Ok(Some(other)),
        _ => Ok(None),
    }
}

impl Changes {
    fn new(alloc: Global) -> Changes {
        Changes {
            going: Vec::new(alloc),
            coming: Vec::new(alloc),
            going_last: Vec::new(alloc),
            deleted: 0,
            added: 0,
        }
    }

    /// A record goes, of a set that stays.
    fn delete(&mut self, record: &Record) -> Result<(), AllocError> {
        self.deleted = self.deleted.saturating_add(1);
        if record.rdata.record_type() == RecordType::NS {
            self.going_last.push(deletion(record)?)?;
        } else {
            self.going.push(deletion(record)?)?;
        }
        Ok(())
    }

    /// A record comes.
    fn add(&mut self, record: &Record) -> Result<(), AllocError> {
        self.added = self.added.saturating_add(1);
        self.coming.push(record.clone()?)?;
        Ok(())
    }

    /// A set of NS records goes.
    fn delete_servers(&mut self, records: &[Record]) -> Result<(), AllocError> {
        let Some(first) = records.first() else {
            return Ok(());
        };
        self.deleted = self.deleted.saturating_add(records.len());
        self.going.push(set_deletion(first)?)?;
        Ok(())
    }

    /// All records of a set go.
    fn delete_set(
        &mut self,
        records: &[Record],
        record_type: RecordType,
    ) -> Result<(), AllocError> {
        if record_type == RecordType::NS {
            return self.delete_servers(records);
        }
        for record in records {
            self.delete(record)?;
        }
        Ok(())
    }

    /// All records of a set come.
    fn add_set(&mut self, records: &[Record]) -> Result<(), AllocError> {
        for record in records {
            self.add(record)?;
        }
        Ok(())
    }

    /// Those of the records go that are not among the others.
    fn delete_others(
        &mut self,
        alloc: Global,
        records: &[Record],
        others: &[Record],
    ) -> Result<(), AllocError> {
        let places = places_of(alloc, others)?;
        for record in records {
            if same_among(alloc, others, &places, record)?.is_none() {
                self.delete(record)?;
            }
        }
        Ok(())
    }

    /// Those of the records come that are not among the others with the same TTL.
    fn add_others(
        &mut self,
        alloc: Global,
        records: &[Record],
        others: &[Record],
    ) -> Result<(), AllocError> {
        let places = places_of(alloc, others)?;
        for record in records {
            match same_among(alloc, others, &places, record)? {
                Some(other) if other.ttl == record.ttl => {}
                _ => self.add(record)?,
            }
        }
        Ok(())
    }

    /// One set takes the place of another one.
    fn change_set(
        &mut self,
        alloc: Global,
        old: &[Record],
        new: &[Record],
    ) -> Result<(), AllocError> {
        if are_same(old, new) {
            return Ok(());
        }
        self.delete_others(alloc, old, new)?;
        self.add_others(alloc, new, old)
    }

    /// What the old sets become among the new ones.
    fn change_sets(&mut self, alloc: Global, old: &Sets, new: &Sets) -> Result<(), AllocError> {
        for (key, set) in old {
            if key.record_type == RecordType::SOA {
                continue;
            }
            match new.get(key) {
                Some(other) => self.change_set(alloc, set.records(), other.records())?,
                None => self.delete_set(set.records(), key.record_type)?,
            }
        }
        Ok(())
    }

    /// The sets that are not among the old ones come.
    fn add_sets(&mut self, old: &Sets, new: &Sets) -> Result<(), AllocError> {
        for (key, set) in new {
            if !old.contains_key(key) {
                self.add_set(set.records())?;
            }
        }
        Ok(())
    }

    /// What turns the old sets into the new ones, but for the SOA record.
    pub(crate) fn between(alloc: Global, old: &Sets, new: &Sets) -> Result<Changes, AllocError> {
        let mut changes = Changes::new(alloc);
        changes.change_sets(alloc, old, new)?;
        changes.add_sets(old, new)?;
        Ok(changes)
    }

    /// The records of update sections, in the order in which they are done.
    pub(crate) fn into_updates(self) -> Result<Vec<Record>, AllocError> {
        let Changes {
            mut going,
            mut coming,
            mut going_last,
            deleted: _,
            added: _,
        } = self;
        going.append(&mut coming)?;
        going.append(&mut going_last)?;
        Ok(going)
    }
}
