// Corners of the script language, with values worked out by hand.
use crate::checks::{holds, same, same_at};
use dss_script::{
    LineError, LineFault, NumberError, NumberFault, Pair, PairList, Row, Text, cells, matrix,
    number, pairs, postfix,
};
use std::alloc::{AllocError, Global};
use std::fmt::Write;

// Each pair as `name=value`, or `name=(value)` for a group, with a semicolon behind it.
fn shown(alloc: Global, line: &[u8]) -> Result<String, LineError> {
    let list = PairList::new(pairs(alloc, line)?);
    let mut text = String::new(alloc);
    for pair in list.as_slice() {
        write_pair(&mut text, pair)?;
    }
    let _: Vec<Pair> = list.into_vec();
    Ok(text)
}

fn write_pair(text: &mut String, pair: &Pair) -> Result<(), AllocError> {
    let (name, value) = (&pair.name, &pair.value);
    if pair.grouped {
        write!(text, "{name}=({value});")
    } else {
        write!(text, "{name}={value};")
    }
}

const LINES: [(&str, &str); 14] = [
    ("Solve! four", "=Solve;"),
    (" ,\tSolve", "=Solve;"),
    ("kvar=0//three (", "kvar=0;"),
    ("r1 \t= \t0.5 ,, x1=0", "r1=0.5;x1=0;"),
    ("kw=,pf=1", "kw=;pf=1;"),
    ("kw= kvar=0", "kw=kvar=0;"),
    ("mult=file=s.csv", "mult=file=s.csv;"),
    ("class=a(b numcust=x]y", "class=a(b;numcust=x]y;"),
    ("class=/  vminpu=1", "class=/;vminpu=1;"),
    ("bus1=(b.1)phases=[1]", "bus1=(b.1);phases=(1);"),
    ("(a (b) c)", "=(a (b);=c);"),
    ("\"a ! b\"=5", "=(a ! b);=5;"),
    ("kw", "=kw;"),
    ("", ""),
];

#[test]
fn cuts_lines(rt: HostRuntime) -> Result<(), LineError> {
    for (line, want) in &LINES {
        let found = shown(rt.alloc(), line.as_bytes())?;
        same_at(&rt, line, found.as_str(), *want);
    }
    Ok(())
}

fn fault(alloc: Global, line: &[u8]) -> Option<LineError> {
    pairs(alloc, line).err()
}

#[test]
fn refuses_lines(rt: HostRuntime) -> Result<(), LineError> {
    let alloc = rt.alloc();
    let blanks = vec![in alloc; b' '; 65_536]?;
    holds(&rt, pairs(alloc, &blanks)?.is_empty());
    let long = vec![in alloc; 255; 65_537]?;
    same(
        &rt,
        fault(alloc, &long),
        Some(LineError::Fault(LineFault::LineTooLong)),
    );
    same(
        &rt,
        fault(alloc, &[255]),
        Some(LineError::Fault(LineFault::NotText)),
    );
    same(
        &rt,
        fault(alloc, b"bus1='b.1"),
        Some(LineError::Fault(LineFault::UnclosedGroup)),
    );
    Ok(())
}

const NUMBERS: [(&str, Result<i128, NumberFault>); 18] = [
    ("+.5", Ok(500_000_000)),
    ("5.e-1", Ok(500_000_000)),
    ("0.05E+1", Ok(500_000_000)),
    ("-0", Ok(0)),
    ("0e99", Ok(0)),
    ("850000000000e-12", Ok(850_000_000)),
    ("0.1234567885", Ok(123_456_789)),
    ("-0.0000000005", Ok(-1)),
    ("0.00000000049999999999999999999999", Ok(0)),
    ("999999999.9999999994", Ok(999_999_999_999_999_999)),
    ("999999999.9999999999", Err(NumberFault::NumberTooLarge)),
    ("1e123", Err(NumberFault::BadNumber)),
    ("1e", Err(NumberFault::BadNumber)),
    ("--1", Err(NumberFault::BadNumber)),
    ("1.2.3", Err(NumberFault::BadNumber)),
    (".", Err(NumberFault::BadNumber)),
    ("", Err(NumberFault::BadNumber)),
    ("\u{663}", Err(NumberFault::BadNumber)),
];

#[test]
fn reads_numbers(rt: HostRuntime) {
    for (text, want) in &NUMBERS {
        same_at(&rt, text, number(text), *want);
    }
}

const EXPRESSIONS: [(&str, Result<i128, NumberError>); 10] = [
    ("8 1000 /", Ok(8_000_000)),
    ("100, 1 3 / 3 * 10 * -", Ok(90_000_000_010)),
    ("17 -20 / -1 *", Ok(850_000_000)),
    ("-5 +95 +", Ok(90_000_000_000)),
    ("+ 1 2", Err(NumberError::Fault(NumberFault::BadPostfix))),
    ("1 2", Err(NumberError::Fault(NumberFault::BadPostfix))),
    ("", Err(NumberError::Fault(NumberFault::BadPostfix))),
    (
        "1 0.0000000004 /",
        Err(NumberError::Fault(NumberFault::DivideByZero)),
    ),
    (
        "100000 100000 *",
        Err(NumberError::Fault(NumberFault::NumberTooLarge)),
    ),
    ("1 x +", Err(NumberError::Fault(NumberFault::BadNumber))),
];

#[test]
fn evaluates_expressions(rt: HostRuntime) {
    for (text, want) in &EXPRESSIONS {
        same_at(&rt, text, postfix(rt.alloc(), text), *want);
    }
}

const MATRIX: [&[i128]; 2] = [&[300_000_000], &[100_000_000, 400_000_000]];

#[test]
fn reads_matrices(rt: HostRuntime) -> Result<(), NumberError> {
    let rows = matrix(rt.alloc(), "0.3|0.1, 0.4")?;
    same(&rt, rows.len(), MATRIX.len());
    for (row, due) in rows.iter().zip(&MATRIX) {
        same(&rt, row.as_slice(), *due);
    }
    let none: Vec<Row> = matrix(rt.alloc(), "")?;
    same(&rt, none.len(), 1);
    Ok(())
}

#[test]
fn reads_cells(rt: HostRuntime) -> Result<(), NumberError> {
    let alloc = rt.alloc();
    let words: Vec<Text> = cells(alloc, " B.1,\tb.2 ")?;
    holds(&rt, words.len() == 2);
    same(&rt, words[0].lowered(alloc)?.as_str(), "b.1");
    holds(&rt, words[1] == words[1].clone()?);
    holds(&rt, !words[1].is_empty());
    same(&rt, words[1].characters(alloc)?.len(), 3);
    Ok(())
}
