// Lines and reports of small collections.
use crate::calls::{kernel_line, offer_line};
use crate::passes::agree_line;
use crate::report::report;
use logs::answer::{Answer, Symbol};
use logs::refusal::Refusal;
use std::test::Fail;

#[test]
fn answers_calls(rt: HostRuntime) -> Result<(), Fail> {
    let implied = offer_line(rt.alloc(), Ok(Answer::Implied), &[3, 0])?;
    assert_eq!(rt; implied.as_str(), "implied weights 3 0\n");
    let refused = offer_line(rt.alloc(), Err(Refusal::Code { position: 2 }), &[])?;
    assert_eq!(rt; refused.as_str(), "refused 4 position 2\n");
    let kernel = kernel_line(rt.alloc(), 0, Ok(()), &[1, 5])?;
    assert_eq!(rt; kernel.as_str(), "kernel 0: 1 5\n");
    Ok(())
}

#[test]
fn reports_open_symbols(rt: HostRuntime) -> Result<(), Fail> {
    let text = report(rt.alloc(), &[Symbol::Known(7), Symbol::Open(0)])?;
    assert_eq!(rt;
        text.as_str(),
        "report: 2 symbols, 1 open\n  symbol 0: 7\n  symbol 1: open, kernel vector 0 moves it\nbook the antenna: 1 symbol is open\n"
    );
    Ok(())
}

#[test]
fn counts_in_words(rt: HostRuntime) -> Result<(), Fail> {
    let text = agree_line(rt.alloc(), 1, 12)?;
    assert_eq!(rt;
        text.as_str(),
        "agree: 1 block, 12 published answers are equal\n"
    );
    Ok(())
}
