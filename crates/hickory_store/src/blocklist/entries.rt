//! The names on a list.

ghost use Rattle.std.specs.Prelude.{◌≡◌, ◌≤◌, ◌↔◌, [], ◌∷◌, length, true, IfOk, OnOk, OnErr, IsTrue};
ghost use Rattle.std.specs.Str.Lines.{lines};
ghost use Rattle.wire_names.specs.rr.domain.NameOrder.{is_wildcard};
ghost use Rattle.hickory_store.specs.blocklist.Entries.{HasEntry, IsEntry, AreEntries, AddsEntry, AddsLines, AddsFirstLines};
ghost use Rattle.hickory_store.specs.blocklist.Blocked.{IsUnderWildcard};

use crate::blocklist::lines::{Listed, read_line};
use hickory_wire::LowerName;
use std::alloc::{AllocError, AllocFailed, Global};
use std::collections::HashSet;
use std::marker::Model;

/// The names on a list, each of them once.
#[derive(Drop)]
pub(crate) struct Entries {
    names: HashSet<LowerName>,
    // For each name `*.s` the name s, so that a name asked is only shortened to find a wildcard above it.
    wildcard_bases: HashSet<LowerName>,
}

impl Model for Entries {
    ghost use Rattle.std.specs.Prelude.{List};
    ghost use Rattle.wire_names.specs.rr.domain.DomainName.{DomainName};
    ghost use Rattle.hickory_store.specs.blocklist.Entries.{AreKept};

    ghost Value = { List DomainName };

    ghost view = { λ entries. entries.names.keys };

    ghost invariant = { λ entries. AreKept entries.names.keys entries.wildcard_bases.keys };
}

/// How many labels a name has.
fn label_count(name: &LowerName) -> usize
    ensures { result ≡ length name.now.labels }
{
    let wire = name.as_name().as_wire();
    let mut count = 0;
    let mut place = 0;
    while place < wire.len() {
        place += 1 + usize::from(wire[place]);
        count += 1;
    }
    count
}

impl Entries {
    /// No names. It takes no memory.
    pub(crate) fn new(alloc: Global) -> Entries
        ensures { result ≡ [] }
    {
        Entries {
            names: HashSet::new(alloc),
            wildcard_bases: HashSet::new(alloc),
        }
    }

    /// How many names there are.
    pub(crate) fn len(&self) -> usize
        ensures len { result ≡ length self.now }
        ensures entries { AreEntries self.now }
    {
        self.names.len()
    }

    /// Whether the name is one of them.
    pub(crate) fn contains(&self, name: &LowerName) -> bool
        ensures { IsTrue result ↔ HasEntry self.now name.now }
    {
        self.names.contains(name)
    }

    /// Whether the name is below some wildcard, of whose labels at least `depth` stand behind the `*`.
    pub(crate) fn is_under_wildcard(&self, name: &LowerName, depth: u8) -> Result<bool, AllocError>
        requires { name.now.is_fqdn ≡ true }
        ensures { IfOk result (λ under. IsTrue under ↔ IsUnderWildcard self.now depth name.now) }
    {
        if self.wildcard_bases.is_empty() {
            return Ok(false);
        }
        let shortest = usize::from(depth);
        let count = label_count(name);
        if count <= shortest {
            return Ok(false);
        }
        let mut base = name.clone()?;
        // speed: served, an address past a block list. Shorter names have too few labels.
        for _ in shortest..count {
            base.remove_first_label();
            if self.wildcard_bases.contains(&base) {
                return Ok(true);
            }
        }
        Ok(false)
    }

    /// Adds a wildcard. Where memory is refused, nothing changes.
    fn insert_wildcard(&mut self, name: LowerName) -> Result<(), AllocError>
        requires entry { IsEntry name }
        requires wildcard { is_wildcard name.labels ≡ true }
        ensures ok { OnOk result (AddsEntry self.old name self.new) }
        ensures err { OnErr result (self.new ≡ self.old) }
    {
        let mut base = name.clone()?;
        base.remove_first_label();
        self.wildcard_bases.insert(base)?;
        match self.names.insert(name) {
            Ok(_) => Ok(()),
            Err(AllocFailed { value: mut base }) => {
                base.remove_first_label();
                self.wildcard_bases.remove(&base);
                Err(AllocError)
            }
        }
    }

    /// Adds a name. Where memory is refused, nothing changes.
    fn insert(&mut self, listed: Listed) -> Result<(), AllocError>
        requires entry { IsEntry listed.name }
        requires marked { listed.is_wildcard ≡ is_wildcard listed.name.labels }
        ensures ok { OnOk result (AddsEntry self.old listed.name self.new) }
        ensures err { OnErr result (self.new ≡ self.old) }
    {
        if listed.is_wildcard {
            return self.insert_wildcard(listed.name);
        }
        self.names.insert(listed.name)?;
        Ok(())
    }

    /// Adds the name that a line lists, if there is one. Where memory is refused, nothing changes.
    fn add_line(&mut self, alloc: Global, line: &str) -> Result<(), AllocError>
        ensures ok { OnOk result (AddsLines self.old (line.now ∷ []) self.new) }
        ensures err { OnErr result (self.new ≡ self.old) }
    {
        match read_line(alloc, line)? {
            Some(listed) => self.insert(listed),
            None => Ok(()),
        }
    }

    /// Adds the names that the lines of a text list. Where memory is refused, those of a front of the lines are added.
    pub(crate) fn add_lines(&mut self, alloc: Global, text: &str) -> Result<(), AllocError>
        ensures ok { OnOk result (AddsLines self.old (lines text.now) self.new) }
        ensures err { OnErr result (AddsFirstLines self.old (lines text.now) self.new) }
    {
        for line in text.lines() {
            self.add_line(alloc, line)?;
        }
        Ok(())
    }
}
