// Numbers behind their names, each appended to a text.
ghost use Rattle.std.specs.Prelude.{◌≡◌, ◌++◌, OnOk, string_bytes};
ghost use Rattle.watch_trace.specs.Words.{field};

use base_digits::push_decimal;
use std::alloc::AllocError;

/// Appends a decimal number behind its name. After want of memory a part of it may stand there.
#[tactic(auto, unfolding(crate::specs::Words::field))]
pub fn push_field(text: &mut String, name: &str, number: u64) -> Result<(), AllocError>
    ensures { OnOk result (string_bytes text.new ≡ string_bytes text.old ++ field name.now number) }
{
    text.push_str(name)?;
    push_decimal(text, number)
}

/// Appends two decimal numbers, each behind its name. After want of memory a part of them may stand there.
pub fn push_fields(
    text: &mut String,
    name: &str,
    number: u64,
    second_name: &str,
    second: u64,
) -> Result<(), AllocError>
    ensures { OnOk result (string_bytes text.new
        ≡ string_bytes text.old ++ (field name.now number ++ field second_name.now second)) }
{
    push_field(text, name, number)?;
    push_field(text, second_name, second)
}
