//! Laws of the definitions, each the contract of a function with nothing to do.

ghost use Rattle.std.specs.Prelude.{◌≡◌, ◌⊎◌, ◌<◌, ◌≤◌, ◌^◌, ◌∷◌, [], List, ℕ};
ghost use Rattle.journal.specs.Frames.{StandsFor};
ghost use Rattle.journal.specs.Generations.{IsBeingReplaced, StandFor, generation_of, header};
ghost use Rattle.journal.specs.JournalFile.{IsJournal};
ghost use Rattle.journal.specs.Settled.{SettledEntriesStand, SettledIsJournal};

use sqlite_disk::Disk;

/// A file stands for one list of entries at most.
pub fn one_reading()
    ensures { (file : List ℕ) (entries others : List (List ℕ)) → StandsFor file entries → StandsFor file others →
        entries ≡ others }
{}

/// What a journal has at rest stands in each file that a crash may leave: what `append` answers `Ok` is there from then
/// on.
pub fn settled_entries_stand<D: Disk>()
    ensures { SettledEntriesStand D.seen D.may_leave }
{}

/// What a crash leaves of a journal at rest is a journal's file, as the empty file is.
pub fn settled_is_journal<D: Disk>()
    ensures empty { IsJournal [] }
    ensures settled { SettledIsJournal D.seen D.may_leave }
{}

/// Two files stand for one list of entries at most.
pub fn one_reading_of_two()
    ensures { (file other : List ℕ) (entries others : List (List ℕ)) → StandFor file other entries →
        StandFor file other others → entries ≡ others }
{}

/// Where the file that does not count is replaced by a higher generation than that of the other, a crash at any moment
/// leaves the entries from before or the new ones, whole; and the new ones once the file has them. `second` says it of
/// the second file, `first` of the first.
pub fn compaction_leaves_old_or_new()
    ensures second { (now old new : List (List ℕ)) (generation : ℕ) (file spare : List ℕ) → StandsFor file now →
        generation_of old ≤ generation_of now → generation_of now < generation → generation < 2 ^ 64 →
        IsBeingReplaced old (header generation ∷ new) spare → StandFor file spare now ⊎
        StandFor file spare (header generation ∷ new) }
    ensures second_done { (now new : List (List ℕ)) (generation : ℕ) (file spare : List ℕ) → StandsFor file now →
        generation_of now < generation → generation < 2 ^ 64 →
        StandsFor spare (header generation ∷ new) → StandFor file spare (header generation ∷ new) }
    ensures first { (now old new : List (List ℕ)) (generation : ℕ) (file spare : List ℕ) → StandsFor file now →
        generation_of old < generation_of now → generation_of now < generation → generation < 2 ^ 64 →
        IsBeingReplaced old (header generation ∷ new) spare → StandFor spare file now ⊎
        StandFor spare file (header generation ∷ new) }
    ensures first_done { (now new : List (List ℕ)) (generation : ℕ) (file spare : List ℕ) → StandsFor file now →
        generation_of now < generation → generation < 2 ^ 64 →
        StandsFor spare (header generation ∷ new) → StandFor spare file (header generation ∷ new) }
{}
