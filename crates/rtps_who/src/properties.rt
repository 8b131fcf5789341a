ghost use Rattle.std.specs.Prelude.{◌≡◌, option_copied};
ghost use Rattle.std.specs.Option.{is_some, option_map};
ghost use Rattle.rtps_who.specs.Items as items;
ghost use Rattle.rtps_who.specs.Texts as texts;
ghost use Rattle.rtps_who.specs.Views as views;

use crate::layout::sequence::COUNT_SIZE;
use crate::texts::front_text;
use rtps_ids::Order;
use rtps_params::read_u32;

/// A property: a name, and a value.
#[derive(Clone, Copy)]
pub(crate) struct Property<'a> {
    pub(crate) name: &'a [u8],
    pub(crate) value: &'a [u8],
}

/// The properties that a participant announces. They are parts of the payload that announces it.
#[derive(Clone, Copy)]
pub(crate) struct Properties<'a> {
    pub(crate) count: u32,
    pub(crate) octets: &'a [u8],
    pub(crate) order: Order,
}

/// The property at the beginning of octets, and what is from the next one on. None if it cannot be read.
fn front_property(octets: &[u8], order: Order) -> Option<(Property<'_>, &[u8])>
    ensures { option_map (λ found. (views.property_value found.0, found.1.now)) result ≡ texts.front_property order octets.now }
{
    let (name, behind) = front_text(octets, order)?;
    let (value, rest) = front_text(behind, order)?;
    Some((Property { name, value }, rest))
}

/// Whether so many properties are at the beginning of octets.
fn are_properties(octets: &[u8], order: Order, count: u32) -> bool
    ensures { result ≡ is_some (items.rest_behind (texts.front_property order) count octets.now) }
{
    let mut rest = octets;
    for _ in 0..count {
        let Some((_, behind)) = front_property(rest, order) else {
            return false;
        };
        rest = behind;
    }
    true
}

impl<'a> Properties<'a> {
    /// Those of a participant that announces none.
    pub(crate) const NONE: Properties<'static> = Properties {
        count: 0,
        octets: &[],
        order: Order::Big,
    };

    /// The properties in a value, or None if one of them cannot be read. What is behind them is ignored.
    pub(crate) fn read(value: &'a [u8], order: Order) -> Option<Properties<'a>>
        ensures { option_map views.properties_value result ≡ texts.properties_of order value.now }
    {
        let count = read_u32(value, order)?;
        let octets = &value[COUNT_SIZE..];
        if !are_properties(octets, order, count) {
            return None;
        }
        Some(Properties {
            count,
            octets,
            order,
        })
    }

    /// The value of the first property of a name.
    pub(crate) fn get(&self, name: &[u8]) -> Option<&'a [u8]>
        ensures { option_copied result ≡ texts.value_among name.now (views.properties_value self.now) }
    {
        let mut rest = self.octets;
        for _ in 0..self.count {
            let (property, behind) = front_property(rest, self.order)?;
            if property.name == name {
                return Some(property.value);
            }
            rest = behind;
        }
        None
    }
}
