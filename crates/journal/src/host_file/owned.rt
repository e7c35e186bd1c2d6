//! A disk whose owner does what it notes.

ghost use Rattle.std.specs.Prelude.{◌≡◌, [], List, ℕ};
ghost use Rattle.journal.specs.host_file.Calls.{HostCall, calls_of};

use crate::host_file::operation::Operation;
use sqlite_disk::Disk;

/// A disk that notes what is to be done, and leaves it to its owner.
pub trait OwnedDisk: Disk {
    /// The calls that are owed, of which the first comes first.
    ghost owed: { Self → List HostCall };

    /// By which its owner knows the file.
    ghost name_of: { Self → ℕ };

    fn name(&self) -> u64
        ensures { result ≡ name_of self.now };

    /// What its owner is to do, the first first.
    fn operations(&self) -> &[Operation]
        ensures { calls_of result.now ≡ owed self.now };

    /// All operations are done: none is owed. What a read returns and what a crash leaves stays as it was.
    fn operations_done(&mut self)
        ensures owed { owed self.new ≡ [] }
        ensures name { name_of self.new ≡ name_of self.old }
        ensures seen { Self.Disk.seen self.new ≡ Self.Disk.seen self.old }
        ensures leaves { (c : List ℕ) → Self.Disk.may_leave self.old c → Self.Disk.may_leave self.new c }
        ensures crash { (c : List ℕ) → Self.Disk.may_leave self.new c → Self.Disk.may_leave self.old c }
        ensures usable { Self.Disk.is_usable self.new ≡ Self.Disk.is_usable self.old }
        ensures faults { Self.Disk.faults self.new ≡ Self.Disk.faults self.old }
        ensures clean { Self.Disk.is_clean self.new ≡ Self.Disk.is_clean self.old };
}
