//! Laws of the definitions. Each is the contract of a function that does nothing.

ghost use Rattle.std.specs.Prelude.{◌≡◌, ◌<◌, ◌≤◌, ◌⊎◌, ◌↔◌, ◌^◌, ◌++◌, ℕ, List, All, Some, None, Ok, Err, length, take};
ghost use Rattle.rtps_ids.specs.declared.order.Order.{Order};
ghost use Rattle.rtps_params.specs.Grammar as grammar;
ghost use Rattle.rtps_params.specs.Layout as layout;
ghost use Rattle.rtps_params.specs.Reading as reading;
ghost use Rattle.rtps_params.specs.Values as values;
ghost use Rattle.rtps_params.specs.Writing as writing;
ghost use Rattle.rtps_params.specs.declared.fault.ParamFault.{ParamFault};

/// At most one beginning of the octets is a list, and a list has one list of pairs. So what follows a list does not
/// change how it is read.
pub fn one_beginning()
    ensures { (order : Order) (pairs : grammar.Pairs) (others : grammar.Pairs)
        (list : List ℕ) (other : List ℕ) (rest : List ℕ) (more : List ℕ)
        → grammar.IsList order pairs list → grammar.IsList order others other → list ++ rest ≡ other ++ more
        → (list ≡ other) × (pairs ≡ others) × (rest ≡ more) }
{}

/// In each order, octets begin with a list or have exactly one fault, and not both.
pub fn list_or_fault()
    ensures some { (order : Order) (octets : List ℕ)
        → grammar.BeginsWithList order octets ⊎ ((fault : ParamFault) × grammar.HasFault order fault octets) }
    ensures not_both { (order : Order) (octets : List ℕ) (fault : ParamFault)
        → grammar.BeginsWithList order octets → grammar.HasFault order fault octets → ⊥ }
    ensures one_fault { (order : Order) (octets : List ℕ) (fault : ParamFault) (other : ParamFault)
        → grammar.HasFault order fault octets → grammar.HasFault order other octets → fault ≡ other }
{}

/// `list_end` gives the length of the list at the beginning of octets, or their fault. `pairs_of` gives the pairs of
/// the list.
pub fn ends()
    ensures list { (order : Order) (octets : List ℕ) (used : ℕ) → (reading.list_end order octets ≡ Ok used)
        ↔ ((used ≤ length octets) × ((pairs : grammar.Pairs) × grammar.IsList order pairs (take used octets))) }
    ensures fault { (order : Order) (octets : List ℕ) (fault : ParamFault)
        → (reading.list_end order octets ≡ Err fault) ↔ grammar.HasFault order fault octets }
    ensures pairs { (order : Order) (pairs : grammar.Pairs) (list : List ℕ) (rest : List ℕ)
        → grammar.IsList order pairs list → reading.pairs_of order (list ++ rest) ≡ pairs }
{}

/// `text_of` gives the name that a value spells: no value spells two.
pub fn texts()
    ensures { (order : Order) (name : List ℕ) (value : List ℕ)
        → (values.text_of order value ≡ Some name) ↔ values.SpellsText order name value }
{}

/// If parameters have no fault, their written octets are a list. It is read as the same parameters in the same order,
/// whatever follows it. Ids are numbers of two octets.
pub fn written_lists_are_read_as_they_are()
    ensures list { (order : Order) (pairs : grammar.Pairs) → writing.list_fault pairs ≡ None → All (λ pair. pair.0 < 2 ^ 16) pairs
        → grammar.IsList order pairs (writing.written_list order pairs) }
    ensures pairs { (order : Order) (pairs : grammar.Pairs) (rest : List ℕ) → writing.list_fault pairs ≡ None → All (λ pair. pair.0 < 2 ^ 16) pairs
        → reading.pairs_of order (writing.written_list order pairs ++ rest) ≡ pairs }
    ensures used { (order : Order) (pairs : grammar.Pairs) (rest : List ℕ) → writing.list_fault pairs ≡ None → All (λ pair. pair.0 < 2 ^ 16) pairs
        → reading.list_end order (writing.written_list order pairs ++ rest) ≡ Ok (length (writing.written_list order pairs)) }
{}

/// The ids, sizes and offsets that the code and the definitions use are those of the standard.
pub fn layout_is_that_of_the_standard()
    ensures pid { layout.pid_is }
    ensures parameter { layout.parameter_is }
    ensures value { layout.value_is }
{}
