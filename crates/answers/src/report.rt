// The report on the symbols of a block, for a person.
ghost use Rattle.std.specs.Prelude.{◌≡◌, ◌++◌, IfOk, OnOk, string_bytes};
ghost use Rattle.answers.specs.ReportText.{advice_text, open_count, report_text, status_text, status_texts};

use crate::plural::{noun_ending, to_be};
use logs::answer::Symbol;
use std::alloc::{AllocError, Global};

// How many symbols are open.
pub fn count_open(symbols: &[Symbol]) -> usize
    ensures { result ≡ open_count symbols.now }
{
    symbols
        .iter()
        .filter(|symbol| matches!(symbol, Symbol::Open(_)))
        .count()
}

// A heading with the counts, a line for each symbol, and whether to book the antenna once more.
pub fn report(heap: Global, symbols: &[Symbol]) -> Result<String, AllocError>
    ensures { IfOk result (λ s. string_bytes s ≡ report_text symbols.now) }
{
    let count = symbols.len();
    let of_symbol = noun_ending(count);
    let open = count_open(symbols);
    let mut text = format!(in heap; "report: {count} symbol{of_symbol}, {open} open\n")?;
    push_statuses(&mut text, symbols)?;
    push_advice(&mut text, open)?;
    Ok(text)
}

// A line for each symbol.
fn push_statuses(text: &mut String, symbols: &[Symbol]) -> Result<(), AllocError>
    ensures { OnOk result (string_bytes text.new ≡ string_bytes text.old ++ status_texts 0 symbols.now) }
{
    for (j, symbol) in symbols.iter().enumerate() {
        push_status(text, j, symbol)?;
    }
    Ok(())
}

fn push_status(text: &mut String, j: usize, symbol: &Symbol) -> Result<(), AllocError>
    ensures { OnOk result (string_bytes text.new ≡ string_bytes text.old ++ status_text j symbol.now) }
{
    match symbol {
        Symbol::Known(code) => writeln!(text, "  symbol {j}: {code}"),
        Symbol::Open(k) => writeln!(text, "  symbol {j}: open, kernel vector {k} moves it"),
    }
}

fn push_advice(text: &mut String, open: usize) -> Result<(), AllocError>
    ensures { OnOk result (string_bytes text.new ≡ string_bytes text.old ++ advice_text «open») }
{
    if open == 0 {
        text.push_str("do not book the antenna: every symbol is known\n")
    } else {
        let of_symbol = noun_ending(open);
        let are = to_be(open);
        write!(
            text,
            "book the antenna: {open} symbol{of_symbol} {are} open\n"
        )
    }
}
