//! The name of a question whose bytes are repeated, noted where it stands in full behind the header (RFC 1035 sections
//! 4.1.2 and 4.1.4).

ghost use Rattle.std.specs.Prelude.{◌≡◌, ℕ, ◌+◌, ◌++◌, [], length, replicate, IfSome};
ghost use Rattle.wire_names.specs.rr.domain.DomainName.{IsWire, cut};
ghost use Rattle.wire_writing.specs.representation.Noted.{AreNotes};
ghost use Rattle.wire_writing.specs.representation.QuestionNames.{StandsInFull};

use crate::serialize::writing::compression_table::CompressionTable;

// A name has fewer bytes than this before its end byte (RFC 1035 section 2.3.4).
const MAX_WIRE_LEN: usize = 255;

// A name in wire form, without the end byte, and how many labels it has.
#[derive(Clone, Copy)]
struct FullName<'n> {
    wire: &'n [u8],
    count: usize,
}

/// The name at the front, if it stands there in full.
// speed: served, an address of 120 labels
fn full_name(question: &[u8]) -> Option<FullName<'_>>
    ensures { IfSome result (λ name. StandsInFull question.now name.wire.now name.count) }
{
    let limit = question.len().min(MAX_WIRE_LEN);
    let mut place = 0;
    let mut count = 0;
    while place < limit {
        let len = question[place];
        // One test for both, since nearly all bytes that it sees begin a label.
        if (len == 0) | (len >= 64) {
            if len > 0 {
                return None;
            }
            let wire = &question[..place];
            return Some(FullName { wire, count });
        }
        place += 1 + usize::from(len);
        count += 1;
    }
    None
}

/// Notes the name of the first question, where it stands in full, and each of its ends. The whole name is kept, since
/// most replies begin with a record of it. It takes no memory, and a step for each label.
#[inline(always)]
pub fn note_question<'n>(table: &mut CompressionTable<'n>, question: &'n [u8])
    requires { table.old ≡ [] }
    ensures { AreNotes (replicate 12 0 ++ question.now) (12 + length question.now) table.new }
{
    if let Some(name) = full_name(question) {
        table.begin(name.wire, name.count);
    }
}
