use span_names::{Piece, fold_name, make_base, numbered_name};
use std::alloc::AllocError;
use std::process::Abort;
use trace_types::Text;

const SECOND: Option<Piece> = Some(Piece {
    number: 2,
    gap: None,
});

const THIRD: Option<Piece> = Some(Piece {
    number: 3,
    gap: Some(2),
});

/// Expects this name.
fn expect<R: Abort>(rt: &R, made: Text, name: &str) {
    assert_eq!(rt; made.as_str(), name);
}

#[test]
fn a_name_has_its_number_and_its_piece(rt: HostRuntime) -> Result<(), AllocError> {
    let table: [(&str, u64, Option<Piece>, &str); 10] = [
        ("s GET", 1, None, "s GET"),
        ("s GET", 2, None, "s GET#2"),
        ("s GET", 1, SECOND, "s GET#1/2"),
        ("s GET", 12, THIRD, "s GET#12/3.2"),
        ("a#2", 1, None, "a#2#1"),
        ("a#1/2.3", 1, None, "a#1/2.3#1"),
        ("a#1.", 1, None, "a#1."),
        ("#", 1, None, "#"),
        ("Users#show", 1, None, "Users#show"),
        ("", 1, None, ""),
    ];
    for (base, number, piece, name) in table {
        expect(&rt, numbered_name(rt.alloc(), base, number, piece)?, name);
    }
    Ok(())
}

#[test]
fn a_base_is_escaped_and_cut(rt: HostRuntime) -> Result<(), AllocError> {
    let table: [(&str, usize, &str); 7] = [
        ("a@b%", 40, "a%40b%25"),
        ("\u{1}\u{7f}", 48, "%01%7F"),
        ("\u{e9}\u{e9}\u{e9}", 5, "\u{e9}\u{e9}"),
        ("\u{65e5}\u{672c}", 5, "\u{65e5}"),
        ("abcdef", 6, "abcdef"),
        ("abcdef", 5, "abcde"),
        ("\u{10348}x", 5, "\u{10348}x"),
    ];
    for (text, most, base) in table {
        let made = make_base(rt.alloc(), text, most.max(1))?;
        assert_eq!(rt; made.as_str(), base);
    }
    Ok(())
}

#[test]
fn ids_are_folded(rt: HostRuntime) -> Result<(), AllocError> {
    for (name, folded) in [
        ("GET /user/17", "GET /user/{}"),
        ("GET /o/DeadBeef/x 1", "GET /o/{}/x {}"),
        ("deadbee", "deadbee"),
        ("v2/17a", "v2/17a"),
        ("0123456789abcdef", "{}"),
        ("//", "//"),
        ("", ""),
        ("\u{e9}17/17", "\u{e9}17/{}"),
    ] {
        let made = fold_name(rt.alloc(), name)?;
        assert_eq!(rt; made.as_str(), folded);
    }
    Ok(())
}
