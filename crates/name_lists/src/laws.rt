//! Laws of what lines give, each the contract of a function with nothing to do.

ghost use Rattle.std.specs.Prelude.{◌≡◌, ℕ, List, length};
ghost use Rattle.wire_names.specs.rr.domain.DomainName.{DomainName};
ghost use Rattle.name_lists.specs.Counts.{Counts, IsAdapted, lines_in};
ghost use Rattle.name_lists.specs.Gives.{Gives};
ghost use Rattle.name_lists.specs.Words.{lines_of, without_mark};

/// A line gives one list of names, if it gives any.
pub fn a_line_gives_one_list()
    ensures { (line : List ℕ) (names others : List DomainName) → Gives line names → Gives line others → names ≡ others }
{}

/// A text is adapted in one way.
pub fn a_text_is_adapted_in_one_way()
    ensures { (text plain other : List ℕ) (counts others : Counts) → IsAdapted text plain counts →
        IsAdapted text other others → (plain ≡ other) × (counts ≡ others) }
{}

/// The counts of a text add up to the number of its lines.
pub fn counts_add_up()
    ensures { (text plain : List ℕ) (counts : Counts) → IsAdapted text plain counts →
        lines_in counts ≡ length (lines_of (without_mark text)) }
{}
