//! Lines with their tokens and expressions with their values, written by hand; an independent model gives the same.
use std::alloc::{AllocError, Global};
use std::fmt::Write;
use std::test::Fail;
use z_text::{ExprFault, Labels, TextFault, Token, TokenKind, expression, expression_end, tokens};

/// Lines with their tokens, each by a letter or mark of its kind, its first place and its end, or with their
/// fault.
static LINES: [(&str, &str); 105] = [
    ("", ""),
    ("   ", ""),
    ("*", ""),
    ("* LGHI 1,\t;", ""),
    (" *", "BadToken"),
    (" *x", "BadToken"),
    (" TEND", "N1-5"),
    ("A TEND", "N0-1 N2-6"),
    ("A", "BadToken"),
    ("A   ", "BadToken"),
    (" tend", "N1-5"),
    ("abc lghi", "N0-3 N4-8"),
    (" TEND ;x", "BadToken"),
    (" TEND remark", "N1-5 N6-12"),
    (" LGHI 1,2 a;\tb", "N1-5 D6-7 ,7-8 D8-9"),
    (" LGHI 1,2 ", "N1-5 D6-7 ,7-8 D8-9"),
    ("   LGHI    1", "N3-7 D11-12"),
    ("\tTEND", "BadToken"),
    ("A\tTEND", "BadToken"),
    (" LGHI\t1", "BadToken"),
    (" LGHI 1,\t2", "BadToken"),
    ("ABCDEFGHIJKLMNOP TEND", "N0-16 N17-21"),
    ("ABCDEFGHIJKLMNOPQ TEND", "BadToken"),
    ("1A TEND", "BadToken"),
    ("A1 TEND", "N0-2 N3-7"),
    ("A_B TEND", "BadToken"),
    ("A. TEND", "BadToken"),
    (" 1TEND", "BadToken"),
    (" TE-ND", "BadToken"),
    (" ABCDEFGHIJKLMNOPQ", "BadToken"),
    ("LGHI LGHI", "N0-4 N5-9"),
    ("X X X", "N0-1 N2-3 N4-5"),
    ("X'1' TEND", "BadToken"),
    (" B A", "N1-2 N3-4"),
    (" B a", "N1-2 N3-4"),
    (" B A1B2", "N1-2 N3-7"),
    (" B ABCDEFGHIJKLMNOP", "N1-2 N3-19"),
    (" B ABCDEFGHIJKLMNOPQ", "BadToken"),
    (" B abcdefghijklmnopq", "BadToken"),
    (" B F'5'", "BadToken"),
    (" B A'", "BadToken"),
    (" B X", "N1-2 N3-4"),
    (" B XY", "N1-2 N3-5"),
    (" B X,X", "N1-2 N3-4 ,4-5 N5-6"),
    (" B +-(),*", "N1-2 S3-4 S4-5 (5-6 )6-7 ,7-8 *8-9"),
    (" B 2*3", "N1-2 D3-4 *4-5 D5-6"),
    (" B **", "N1-2 *3-4 *4-5"),
    (" B *+4", "N1-2 *3-4 S4-5 D5-6"),
    (
        " MVC 0(3,2),D(4)",
        "N1-4 D5-6 (6-7 D7-8 ,8-9 D9-10 )10-11 ,11-12 N12-13 (13-14 D14-15 )15-16",
    ),
    (" B ;", "BadToken"),
    (" B '", "BadToken"),
    (" B A.B", "BadToken"),
    (" B \u{7f}", "BadToken"),
    (" B é", "BadToken"),
    (" B A=B", "BadToken"),
    (" B A#1", "BadToken"),
    (" B A$", "BadToken"),
    ("A$ TEND", "BadToken"),
    (" TEND$", "BadToken"),
    (" B 0", "N1-2 D3-4"),
    (" B 00000000000000000000000000000012", "N1-2 D3-35"),
    (" B 18446744073709551615", "N1-2 D3-23"),
    (" B 18446744073709551616", "BadNumber"),
    (" B 12A", "BadNumber"),
    (" B 1'", "BadNumber"),
    (" B 1X'2'", "BadNumber"),
    (" B 9a", "BadNumber"),
    (" B X'0'", "N1-2 H3-7"),
    (" B x'fF'", "N1-2 H3-8"),
    (" B X'0123456789ABCDEF'", "N1-2 H3-22"),
    (" B X'00000000000000001'", "BadNumber"),
    (" B X''", "BadNumber"),
    (" B X'", "BadNumber"),
    (" B X'1", "BadNumber"),
    (" B X'G'", "BadNumber"),
    (" B X'1'2", "BadNumber"),
    (" B X'1'+1", "N1-2 H3-7 S7-8 D8-9"),
    (" B X'1''", "BadNumber"),
    (" B 12A,;", "BadToken"),
    (" B ;,12A", "BadToken"),
    (" B X'',ABCDEFGHIJKLMNOPQ", "BadToken"),
    (" DC X'00'", "N1-3"),
    (" DC H'5", "N1-3"),
    (" dc F'-1'", "N1-3"),
    (" DC X'00 00'", "N1-3"),
    (" DC ;!~", "N1-3"),
    (" DC \u{7f}", "BadToken"),
    (" DC \u{1f}", "BadToken"),
    (" DS ;", "BadToken"),
    ("A DC \t", "BadToken"),
    (" SCHED 0*5,X1", "N1-6"),
    (" Sched 12A", "N1-6"),
    (" SCHED é", "BadToken"),
    (" DCX 12A", "BadNumber"),
    ("DC DC ABCDEFGHIJKLMNOPQR", "N0-2 N3-5"),
    (" DC", "N1-3"),
    (" TEND\r", "BadToken"),
    (" LGHI 1 \r", "N1-5 D6-7"),
    ("\r", "BadToken"),
    (
        " B 1 xxxxxxxxxxxxxxxxxxxxxxxxxxxxxxxxxxxxxxxxxxxxxxxxxxxxxxxxxxxxxxxxxxxxxxxxxxxxxxxxxxxxxxxxxxxxxxxxxxxxxxxxxxxxxxxxxxx",
        "N1-2 D3-4",
    ),
    (
        " B 1 xxxxxxxxxxxxxxxxxxxxxxxxxxxxxxxxxxxxxxxxxxxxxxxxxxxxxxxxxxxxxxxxxxxxxxxxxxxxxxxxxxxxxxxxxxxxxxxxxxxxxxxxxxxxxxxxxxxx",
        "LineTooLong",
    ),
    (
        "*;;;;;;;;;;;;;;;;;;;;;;;;;;;;;;;;;;;;;;;;;;;;;;;;;;;;;;;;;;;;;;;;;;;;;;;;;;;;;;;;;;;;;;;;;;;;;;;;;;;;;;;;;;;;;;;;;;;;;;;",
        "",
    ),
    (
        "*;;;;;;;;;;;;;;;;;;;;;;;;;;;;;;;;;;;;;;;;;;;;;;;;;;;;;;;;;;;;;;;;;;;;;;;;;;;;;;;;;;;;;;;;;;;;;;;;;;;;;;;;;;;;;;;;;;;;;;;;",
        "LineTooLong",
    ),
    (
        "                                                                                                                        ",
        "",
    ),
    (
        "                                                                                                                         ",
        "LineTooLong",
    ),
];

fn mark(kind: TokenKind) -> char {
    match kind {
        TokenKind::Name => 'N',
        TokenKind::Number => 'D',
        TokenKind::Hex => 'H',
        TokenKind::Sign => 'S',
        TokenKind::Open => '(',
        TokenKind::Close => ')',
        TokenKind::Comma => ',',
        TokenKind::Star => '*',
    }
}

fn shown(alloc: Global, answer: Result<Vec<Token>, TextFault>) -> Result<String, AllocError> {
    let tokens = match answer {
        Ok(tokens) => tokens,
        Err(fault) => return format!(in alloc; "{fault:?}"),
    };
    let mut text = String::new(alloc);
    for token in &tokens {
        let separator = if text.is_empty() { "" } else { " " };
        let kind = mark(token.kind);
        let first = token.first;
        let end = token.end;
        write!(text, "{separator}{kind}{first}-{end}")?;
    }
    Ok(text)
}

#[test]
fn lines_and_their_tokens(rt: HostRuntime) -> Result<(), Fail> {
    for (line, wanted) in &LINES {
        let answer = shown(rt.alloc(), tokens(rt.alloc(), line.as_bytes()))?;
        assert_eq!(rt; answer.as_str(), *wanted, "at {line}");
    }
    Ok(())
}

/// Operands with a place among the line's tokens, the operation being the first, and the value of the
/// expression there with the place after it, or its fault; then the place after it by its form alone.
static EXPRESSIONS: [(&str, usize, &str); 25] = [
    (" B A", 1, "5 2, Some(2)"),
    (" B a", 1, "5 2, Some(2)"),
    (" B +A", 1, "5 3, Some(3)"),
    (" B -A", 1, "-5 3, Some(3)"),
    (" B *", 1, "16384 2, Some(2)"),
    (" B *+4", 1, "16388 4, Some(4)"),
    (" B -*-*", 1, "-32768 5, Some(5)"),
    (" B 2*3", 1, "2 2, Some(2)"),
    (
        " B X'FFFFFFFFFFFFFFFF'+1-1",
        1,
        "18446744073709551615 6, Some(6)",
    ),
    (" B 1+2-3+X'10'", 1, "16 8, Some(8)"),
    (" B 1-a", 1, "-4 4, Some(4)"),
    (" B BIG+BIG", 1, "36893488147419103230 4, Some(4)"),
    (" B SMALL-BIG", 1, "-27670116110564327423 4, Some(4)"),
    (" B --1", 1, "BadToken, None"),
    (" B 1--1", 1, "1 2, Some(2)"),
    (" B 1+", 1, "1 2, Some(2)"),
    (" B 1+,", 1, "1 2, Some(2)"),
    (" B A+C", 1, "UnknownLabel, Some(4)"),
    (" B C+", 1, "UnknownLabel, Some(2)"),
    (" B ,1", 1, "BadToken, None"),
    (" B ,1", 2, "1 3, Some(3)"),
    (" B (1)", 2, "1 3, Some(3)"),
    (" B 1", 2, "BadToken, None"),
    (" B -", 1, "BadToken, None"),
    (" B", 0, "UnknownLabel, Some(1)"),
];

fn valued(alloc: Global, line: &[u8], at: usize, labels: &Labels) -> Result<String, AllocError> {
    let Ok(tokens) = tokens(alloc, line) else {
        return format!(in alloc; "no tokens");
    };
    if at > tokens.len() {
        return format!(in alloc; "no such place");
    }
    let after = expression_end(&tokens, at);
    match expression(line, &tokens, at, labels, 0x4000) {
        Ok((value, end)) => format!(in alloc; "{value} {end}, {after:?}"),
        Err(fault) => format!(in alloc; "{fault:?}, {after:?}"),
    }
}

#[test]
fn expressions_and_their_values(rt: HostRuntime) -> Result<(), Fail> {
    let mut labels = Labels::new(rt.alloc());
    let added = [
        labels.add(b"A", 5)?,
        labels.add(b"BIG", 0xffff_ffff_ffff_ffff)?,
        labels.add(b"SMALL", -0x8000_0000_0000_0000)?,
        labels.add(b"A", 6)?,
    ];
    assert_eq!(rt; added, [true, true, true, false]);
    assert_eq!(rt; [labels.value(b"A"), labels.value(b"a")], [Some(5), None]);
    for (line, at, wanted) in &EXPRESSIONS {
        let answer = valued(rt.alloc(), line.as_bytes(), *at, &labels)?;
        assert_eq!(rt; answer.as_str(), *wanted, "at {line}");
    }
    Ok(())
}
