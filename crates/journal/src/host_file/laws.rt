//! Laws of the definitions, each the contract of a function with nothing to do.

ghost use Rattle.std.specs.Prelude.{◌≡◌, ◌++◌, ◌∷◌, [], List, ℕ};
ghost use Rattle.journal.specs.host_file.Calls.{HostCall, after};
ghost use Rattle.journal.specs.host_file.Calls.HostCall.{fdatasync};
ghost use Rattle.journal.specs.host_file.Crashes.{CrashLeaves, Midst};
ghost use Rattle.journal.specs.host_file.FileState.{FileState, IsSound, may_leave, owed};
ghost use Rattle.journal.specs.host_file.Steps.{IsReached};

/// Whatever is asked of a file of which nothing was owed, the calls that it owes then make of what it held what a read
/// returns; and what a crash leaves once they were made is among what the file says.
pub fn operations_give_seen()
    ensures seen { (first f : FileState) → IsSound first → owed first ≡ [] → IsReached first f →
        f.seen ≡ after first.seen (owed f) }
    ensures crash { (first f : FileState) → IsSound first → owed first ≡ [] → IsReached first f → (c : List ℕ) →
        CrashLeaves (may_leave first) first.seen (owed f) c → may_leave f c }
{}

/// While its owner makes the calls, in order, a crash at any moment, within one of them too, leaves what the file said
/// at one of the moments on the way.
pub fn crashes_are_told()
    ensures { (first f : FileState) (front rest : List HostCall) (call : HostCall) (c : List ℕ) → IsSound first →
        owed first ≡ [] → IsReached first f → owed f ≡ front ++ call ∷ rest →
        Midst call (CrashLeaves (may_leave first) first.seen front) c → (way : FileState) × IsReached first way ×
        IsReached way f × may_leave way c }
{}

/// Once calls were made of which a sync is the last, a crash leaves what the file holds, and nothing else.
pub fn synced_calls_stay()
    ensures { (first : FileState) (calls : List HostCall) (c : List ℕ) →
        CrashLeaves (may_leave first) first.seen (calls ++ fdatasync ∷ []) c → c ≡ after first.seen calls }
{}
