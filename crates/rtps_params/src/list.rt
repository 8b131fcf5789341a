ghost use Rattle.std.specs.Prelude.{◌≡◌};
ghost use Rattle.rtps_params.specs.Grammar as grammar;

use crate::fault::ParamFault;
use crate::pairs::Params;
use crate::parameter::list_size;
use rtps_ids::Order;

/// A parameter list: its octets, sentinel included, and the order of its numbers (DDSI-RTPS 2.5, 9.4.2.11
/// "ParameterList"). Its octets are always a list. Two lists are equal if their orders and octets are.
#[derive(Clone, Copy, Eq, Debug)]
pub struct ParamList<'a> {
    octets: &'a [u8],
    order: Order,
    ghost is_list: { ∥ ((pairs : grammar.Pairs) × grammar.IsList order pairs octets.now) ∥₁ },
}

impl<'a> PartialEq for ParamList<'a> {
    ghost use Rattle.std.specs.Prelude.{◌↔◌, IsTrue};
    ghost use Rattle.std.specs.Cmp.Rules.{comparing};
    ghost use Rattle.std.proofs.Common.{rules};
    ghost use Rattle.rtps_params.specs.Lists as lists;

    ghost eq = { lists.is_same_list };

    ghost laws = { Prim.search (comparing, rules) };

    fn eq(&self, other: &ParamList<'a>) -> bool
        ensures value { IsTrue result ↔ (lists.list_value self.now ≡ lists.list_value other.now) }
        ensures test { result ≡ lists.is_same_list self.now other.now }
    {
        (self.order, self.octets) == (other.order, other.octets)
    }
}

impl<'a> ParamList<'a> {
    ghost use Rattle.std.specs.Prelude.{◌≤◌, ◌<◌, ℕ, length, take};
    ghost use Rattle.std.specs.Prelude.{Ok, Err, IfOk, IfErr, OnErr, IsNone, option_copied};
    ghost use Rattle.rtps_params.specs.Reading as reading;
    ghost use Rattle.rtps_params.specs.Lists as lists;

    /// Reads the list at the beginning of the octets, and says how many octets it takes, sentinel included. What
    /// follows is ignored, and so is the length of the sentinel. A length that is no multiple of 4 is allowed. The
    /// fault says why no beginning of the octets is a list.
    pub fn read(bytes: &'a [u8], order: Order) -> Result<(ParamList<'a>, usize), ParamFault>
        // It is the list that the octets begin with.
        ensures list { IfOk result (λ found. grammar.IsList order (reading.pairs_of order bytes.now) (take found.1 bytes.now)) }
        ensures used { IfOk result (λ found. found.1 ≤ length bytes.now) }
        ensures octets { IfOk result (λ found. lists.list_octets found.0 ≡ take found.1 bytes.now) }
        ensures order { IfOk result (λ found. lists.list_order found.0 ≡ order) }
        // Otherwise no beginning of the octets is a list, and the fault is the one that holds.
        ensures none { OnErr result ((pairs : grammar.Pairs) (used : ℕ)
            → grammar.IsList order pairs (take used bytes.now) → ⊥) }
        ensures fault { IfErr result (λ fault. grammar.HasFault order fault bytes.now) }
        // The same two, as functions of the octets.
        ensures found { IfOk result (λ found. reading.list_end order bytes.now ≡ Ok found.1) }
        ensures refused { IfErr result (λ fault. reading.list_end order bytes.now ≡ Err fault) }
    {
        let used = list_size(bytes, order)?;
        let octets = &bytes[..used];
        Ok((ParamList { octets, order }, used))
    }

    /// All its octets, the four of the sentinel included.
    pub fn octets(&self) -> &'a [u8]
        ensures octets { result.now ≡ lists.list_octets self.now }
        ensures list { grammar.IsList (lists.list_order self.now) (lists.list_pairs self.now) (lists.list_octets self.now) }
    {
        self.octets
    }

    /// The order of its numbers.
    pub fn order(&self) -> Order
        ensures { result ≡ lists.list_order self.now }
    {
        self.order
    }

    /// Its parameters in order, without pads.
    pub fn params(&self) -> Params<'a>
        ensures { result ≡ lists.list_pairs self.now }
    {
        Params::new(self.octets, self.order)
    }

    /// The value of the first parameter with this id, or None if there is none. If several parameters have one id, the
    /// first one counts. Always None for id 0, a pad, and id 1, the sentinel.
    #[tactic(auto, using(crate::proofs::Agreement::no_reserved_value))]
    pub fn first(&self, pid: u16) -> Option<&'a [u8]>
        ensures value { option_copied result ≡ reading.first_value pid (lists.list_pairs self.now) }
        ensures reserved { pid < 2 → IsNone result }
    {
        for (found, value) in self.params() {
            if found == pid {
                return Some(value);
            }
        }
        None
    }
}
