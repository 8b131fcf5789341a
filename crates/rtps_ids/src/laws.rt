//! Laws of the definitions, as contracts of functions that do nothing.

ghost use Rattle.std.specs.Prelude.{◌≡◌, ◌↔◌, ◌<◌, ◌+◌, ◌/◌, ◌%◌, ◌-◌, ◌^◌, ◌++◌, ℕ, ℤ, List, FitsSigned, None, length, pos, true};
ghost use Rattle.std.specs.Int.{bit_at, w64};
ghost use Rattle.rtps_ids.specs.Layout as layout;
ghost use Rattle.rtps_ids.specs.NumberSet as number_set;
ghost use Rattle.rtps_ids.specs.Octets as octets;
ghost use Rattle.rtps_ids.specs.declared.layout.set.TheConstants.{MOST_BITS, WORD_BITS};
ghost use Rattle.rtps_ids.specs.declared.order.Order.{Order};

/// Up to its count, a set has the bits of the words that it was made from. Later bits are clear.
#[tactic(auto, using(crate::proofs::SetBits::kept_bit, crate::proofs::SetBits::clear_bit))]
pub fn bits_up_to_the_count_are_kept()
    ensures kept { (count i : ℕ) (word : ℕ → ℕ) → i < count → i < MOST_BITS → number_set.bit_of (number_set.cleared_words count word) i ≡ bit_at (word (i / WORD_BITS)) (WORD_BITS - 1 - i % WORD_BITS) }
    ensures clear { (count i : ℕ) (word : ℕ → ℕ) → i < MOST_BITS → (i < count → ⊥) → number_set.bit_of (number_set.cleared_words count word) i ≡ 0 }
{}

/// `is_member` is true if and only if `IsMember` holds.
#[tactic(auto, using(crate::proofs::Offered::member_decides))]
pub fn test_of_members_says_what_the_relation_says()
    ensures { (set : number_set.NumberSetValue) (n : ℕ) → (number_set.is_member set n ≡ true) ↔ number_set.IsMember set (pos n) }
{}

/// If octets spell a set, the number base + i is in the set if and only if i is below the count and bit i is set. Bits
/// are counted from the highest of the first word.
#[tactic(auto, using(crate::proofs::SetBits::member_of_bit))]
pub fn members_are_the_bits_that_are_set()
    ensures { (order : Order) (octets : List ℕ) (i : ℕ) → number_set.set_fault order octets ≡ None
        → number_set.IsMember (number_set.spelled_set order octets) (pos ((number_set.spelled_set order octets).base + i))
        ↔ ((i < number_set.spelled_count order octets) × (bit_at (number_set.spelled_word order octets (i / WORD_BITS)) (WORD_BITS - 1 - i % WORD_BITS) ≡ 1)) }
{}

/// `octets_of` gives as many octets as were asked for. They are read as the same number, whatever follows them.
#[tactic(auto, using(crate::proofs::Offered::octets_read_back))]
pub fn octets_of_a_number_are_read_as_it()
    ensures length { (order : Order) (width value : ℕ) → length (octets.octets_of order width value) ≡ width }
    ensures number { (order : Order) (width value : ℕ) (rest : List ℕ) → value < 256 ^ width
        → octets.number_of order width (octets.octets_of order width value ++ rest) ≡ value }
{}

/// `sequence_number_octets` gives eight octets. They are read as the same number, whatever follows them.
#[tactic(auto, using(crate::proofs::Offered::octets_read_back))]
pub fn octets_of_a_sequence_number_are_read_as_it()
    ensures length { (order : Order) (value : ℤ) → length (octets.sequence_number_octets order value) ≡ 8 }
    ensures number { (order : Order) (value : ℤ) (rest : List ℕ) → FitsSigned w64 value
        → octets.sequence_number_of order (octets.sequence_number_octets order value ++ rest) ≡ value }
{}

/// The sizes and offsets that the code and the definitions use are those of the standard.
pub fn layout_is_that_of_the_standard()
    ensures { layout.set_is }
{}
