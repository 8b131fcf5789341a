//! Laws of the definitions, as contracts of functions that do nothing.

ghost use Rattle.std.specs.Prelude.{◌≡◌, ◌<◌, ℕ, List, All, None};
ghost use Rattle.rtps_wire.specs.Reading as reading;
ghost use Rattle.rtps_wire.specs.Values as values;
ghost use Rattle.rtps_wire.specs.declared.header.Header.{Header};
ghost use Rattle.rtps_write.specs.Held as held;
ghost use Rattle.rtps_write.specs.Spelling as spelling;
ghost use Rattle.rtps_write.specs.Writable as writable;
ghost use Rattle.rtps_write.specs.Written as written;

/// What is written reads back: if a header and items can be written, their octets are read as this header and these
/// items, each at its place, without a refusal.
#[tactic(auto, using(crate::proofs::WrittenMessage::written_reads))]
pub fn written_reads_back()
    ensures { (header : Header) (items : List values.ItemValue) → held.IsHeldHeader header → All held.IsHeldItem items → writable.write_fault header items ≡ None
        → reading.reading_of (written.message_octets header items) ≡ written.clean_reading header items }
{}

/// A message is read as what it spells, and as nothing else. So each octet of a message without a refusal is a part of
/// its header or of an item, at its place, or it is ignored.
pub fn a_message_is_read_as_it_is_spelled()
    ensures spelled { (header : Header) (items : List values.ItemValue) (message : List ℕ) → All (λ octet. octet < 256) message
        → spelling.IsReadAs header items (reading.reading_of message) → spelling.Spells header items message }
    ensures read { (header : Header) (items : List values.ItemValue) (message : List ℕ) → held.IsHeldHeader header → All held.IsHeldItem items
        → spelling.Spells header items message → spelling.IsReadAs header items (reading.reading_of message) }
{}

/// What is written spells the same items. So if a message is read and written again, only these can differ: flags that
/// have no name here, octetsToNextHeader 0 of the last submessage, extraFlags, flag N of a DATA, octets that
/// octetsToInlineQos skips, octets of a DATA without a payload and of an INFO_TS without a time, the unused octets of
/// an INFO_SRC, bits of a set past its count, and octets after the last field. If such octets are left out,
/// octetsToNextHeader and octetsToInlineQos are smaller.
#[tactic(auto, using(crate::proofs::SpelledAgain::written_spelled, crate::proofs::SpelledAgain::written_alike))]
pub fn what_is_written_is_spelled()
    ensures written { (header : Header) (items : List values.ItemValue) → All held.IsHeldItem items → writable.write_fault header items ≡ None
        → spelling.Spells header items (written.message_octets header items) }
    ensures again { (header : Header) (items : List values.ItemValue) (message : List ℕ) → All (λ octet. octet < 256) message
        → spelling.IsReadAs header items (reading.reading_of message) → writable.write_fault header items ≡ None → spelling.AreAlike message (written.message_octets header items) }
{}
