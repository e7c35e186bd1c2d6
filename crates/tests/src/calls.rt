//! The calls that scripted handlers get, as they are printed.

use crate::output::Output;
use hickory_base::errors::LookupError;
use hickory_base::zone_store::LookupOptions;
use hickory_wire::{LowerName, RecordType};
use std::alloc::{AllocError, Global};
use std::cell::RefCell;
use std::mem;
use std::rc::Rc;

/// The calls since they were last printed, one a line.
#[derive(Drop)]
pub struct Calls {
    /// Their lines.
    pub lines: String,
    /// Whether a scripted handler, verifier or signer answered as if memory was refused.
    pub wants_memory: bool,
}

/// The calls of all scripted handlers. Each handler has a share of it.
#[derive(Drop)]
pub struct CallLog {
    calls: Rc<RefCell<Calls>>,
}

impl CallLog {
    /// No calls.
    pub fn new(alloc: Global) -> Result<CallLog, AllocError> {
        let calls = Calls {
            lines: String::new(alloc),
            wants_memory: false,
        };
        Ok(CallLog {
            calls: Rc::new(alloc, RefCell::new(calls))?,
        })
    }

    /// A share of this log.
    pub fn share(&self) -> Result<CallLog, AllocError> {
        Ok(CallLog {
            calls: self.calls.clone()?,
        })
    }

    /// Adds the line of a call of the handler at this place of its chain.
    pub fn note(&self, alloc: Global, place: usize, asked: &Asked<'_>) -> Result<(), LookupError> {
        let line = asked.line(alloc, place)?;
        match self.calls.try_borrow_mut() {
            Ok(mut calls) => Ok(calls.lines.push_str(line.as_str())?),
            Err(_) => Err(LookupError::Io),
        }
    }

    /// Notes that a call is answered as if memory was refused.
    pub fn want_memory(&self) {
        if let Ok(mut calls) = self.calls.try_borrow_mut() {
            calls.wants_memory = true;
        }
    }

    /// The calls so far, after which there are none.
    pub fn take(&self, alloc: Global) -> Calls {
        let none = Calls {
            lines: String::new(alloc),
            wants_memory: false,
        };
        match self.calls.try_borrow_mut() {
            Ok(mut calls) => mem::replace(&mut *calls, none),
            Err(_) => none,
        }
    }
}

/// A call of a scripted handler with its arguments.
#[derive(Clone, Copy)]
pub struct Asked<'a> {
    /// The name of the call.
    pub call: &'static str,
    /// The name that it is about.
    pub name: &'a LowerName,
    /// The type that it is about.
    pub record_type: Option<RecordType>,
    /// How many answers there are so far, or how often a hash is taken again: a word and the number.
    pub count: Option<(&'static str, usize)>,
    /// The id of the request that the call names.
    pub id: Option<u16>,
    /// Whether the answer comes from a wildcard.
    pub from_wildcard: bool,
    /// What the call asks for.
    pub options: LookupOptions,
}

impl<'a> Asked<'a> {
    /// A call without a count.
    pub fn new(
        call: &'static str,
        name: &'a LowerName,
        record_type: Option<RecordType>,
        id: Option<u16>,
        options: LookupOptions,
    ) -> Asked<'a> {
        Asked {
            call,
            name,
            record_type,
            count: None,
            id,
            from_wildcard: false,
            options,
        }
    }

    /// The line of the call of the handler at this place of its chain.
    fn line(&self, alloc: Global, place: usize) -> Result<String, AllocError> {
        let mut line = Output::new(alloc);
        line.put("  ");
        line.put_value(&place);
        line.put(" ");
        line.put(self.call);
        line.put(" ");
        line.put_value(self.name);
        if let Some(record_type) = self.record_type {
            line.put(" ");
            line.put_value(&record_type);
        }
        if let Some((word, count)) = self.count {
            line.put(word);
            line.put_value(&count);
        }
        if let Some(id) = self.id {
            line.put(" id=");
            line.put_value(&id);
        }
        line.put(if self.from_wildcard { " wildcard" } else { "" });
        line.put(if self.options.dnssec_ok {
            " do\n"
        } else {
            "\n"
        });
        line.into_text()
    }
}
