ghost use Rattle.std.specs.Prelude.{◌≡◌, ◌++◌, OnOk, codes, decimal, string_bytes};
ghost use Rattle.std.specs.List.{join_by};
ghost use Rattle.rtps_check.specs.ArrivedText as arrived_text;

use rtps_lines::{push_decimal, push_field, push_more};
use std::alloc::AllocError;

/// Appends numbers, with a comma between each two.
fn push_numbers(text: &mut String, numbers: &[u64]) -> Result<(), AllocError>
    ensures { OnOk result (string_bytes text.new ≡ string_bytes text.old ++ join_by decimal (codes ", ") numbers.now) }
{
    let Some((first, others)) = numbers.split_first() else {
        return Ok(());
    };
    push_decimal(text, *first)?;
    for other in others {
        push_field(text, ", ", *other)?;
    }
    Ok(())
}

/// Appends the first of so many numbers, and how many more there are.
pub(crate) fn push_listed(text: &mut String, first: &[u64], count: u128) -> Result<(), AllocError>
    ensures { OnOk result (string_bytes text.new ≡ string_bytes text.old ++ arrived_text.listed first.now count) }
{
    push_numbers(text, first)?;
    push_more(text, count.saturating_sub(first.len() as u128))
}
