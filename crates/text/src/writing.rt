// Whole numbers, written after what a text holds already.
ghost use Rattle.std.specs.Prelude.{◌≡◌, ◌++◌, map, OnOk, OnErr, string_bytes, decimal};
ghost use Rattle.std.specs.List.{flat_map};
ghost use Rattle.text.specs.Canonical.{spaced};
ghost use Rattle.text.specs.Writing.{after_blank};

use std::alloc::AllocError;

// Writes numbers after the text, with a blank between each two. Where memory runs out the text stays as it was.
pub fn push_numbers(text: &mut String, numbers: &[u32]) -> Result<(), AllocError>
    ensures ok { OnOk result (string_bytes text.new ≡ string_bytes text.old ++ spaced (map decimal numbers.now)) }
    ensures err { OnErr result (string_bytes text.new ≡ string_bytes text.old) }
{
    let Some((first, others)) = numbers.split_first() else {
        return Ok(());
    };
    let mut line = format!(in *text.allocator(); "{first}")?;
    write_after_blanks(&mut line, others)?;
    text.push_str(line.as_str())
}

// Writes more numbers after the text, each with a blank before it. Where memory runs out the text stays as it was.
pub fn push_more_numbers(text: &mut String, numbers: &[u32]) -> Result<(), AllocError>
    ensures ok { OnOk result (string_bytes text.new ≡ string_bytes text.old ++ flat_map after_blank numbers.now) }
    ensures err { OnErr result (string_bytes text.new ≡ string_bytes text.old) }
{
    let mut line = String::new(*text.allocator());
    write_after_blanks(&mut line, numbers)?;
    text.push_str(line.as_str())
}

fn write_after_blanks(line: &mut String, numbers: &[u32]) -> Result<(), AllocError>
    ensures { OnOk result (string_bytes line.new ≡ string_bytes line.old ++ flat_map after_blank numbers.now) }
{
    for number in numbers {
        write!(line, " {number}")?;
    }
    Ok(())
}
