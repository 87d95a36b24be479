// What an account prints by parts that the stored runs leave out.
use crate::reading::account;
use std::test::Fail;
use words::faults::LetterFault;

#[test]
fn tells_comparisons_and_cells(rt: HostRuntime) -> Result<(), Fail> {
    let text = account(
        rt.alloc(),
        b"r @ a(X) ==> X =< 3, b(#2,X-1) ; 7 : X = X. s @ b(X,Y) \\ a(Y) <=> X \\= Y | fail.",
    )?;
    let expected =
        "book: 2 rules, 2 predicates, 3 alternatives\npredicate 0 a/1: r.1 s.2\npredicate 1 b/2: s.1\nrule r: 1 variables (X)\n  kept a(X)\n  alternative 0: X =< 3, b(#2,X-1)\n  alternative 7: X = X\nrule s: 2 variables (X Y)\n  kept b(X,Y)\n  removed a(Y)\n  asks X \\= Y\n  alternative 0: fail\n";
    assert!(rt; text.as_slice() == expected.as_bytes());
    Ok(())
}

#[test]
fn prints_faults_of_letters(rt: HostRuntime) -> Result<(), Fail> {
    let long = format!(in rt.alloc(); "{}", LetterFault::TextTooLong(8192))?;
    let none = format!(in rt.alloc(); "{}", LetterFault::NoWord(3))?;
    let word = format!(in rt.alloc(); "{}", LetterFault::WordTooLong(12))?;
    assert!(rt; long.as_str() == "the text is longer than 8192 bytes");
    assert!(rt; none.as_str() == "no word begins at 3");
    assert!(rt; word.as_str() == "the word at 12 is too long");
    Ok(())
}
