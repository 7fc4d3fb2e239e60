//! How deep the parts of a module may be. These texts take more stack than the system gives a program of cases that Rattle's own compiler
//! built.
use core_ast::discard_module;
use core_parse::{ParseFault, lexed_weight, parse};
use core_scan::{end_place, scan};
use std::process::Abort;
use std::test::Fail;

const BEFORE_EXPRESSIONS: &str = "module 'm' [] attributes [] 'f'/0 = fun () ->\n";

const BEHIND_EXPRESSIONS: &str = " end";

const BEFORE_PATTERNS: &str = "module 'm' [] attributes [] 'f'/0 = fun () -> case 1 of\n";

const BEHIND_PATTERNS: &str = " when 'true' -> 1 end end";

const BEFORE_CONSTANTS: &str = "module 'm' [] attributes ['a' =\n";

const BEHIND_CONSTANTS: &str = "] end";

// Texts whose nodes stand in one another: what is repeated in front, the middle, and what is repeated as
// often behind. Before them stand how often at most, where the depth is 400 then; and the byte of the
// first node at depth 401 where it is once more, counted from the first repetition in front.
const DEEP_EXPRESSIONS: &str = "399;400;{;1;}
399;400;{;[];}
399;400;[;1;]
398;1597;[1|(;[2|3]; -| [])]
398;400;{;[1|[2|[3|[]]]];}
398;400;{;[1|[2|X]];}
399;800;{(;1; -| [])}
398;2796;(catch ;do 1 2; -| [])
398;399;{;\"a\";}
399;400;{;\"\";}
398;400;{;[1|\"a\"];}
399;1997;~{1=>;2;}~
399;1200;~{(;1; := 2 -| [])}~
399;1200;~{|;2;}~
399;1600;#{#<;1;>()}#
399;4000;fun () -> ;1;
399;10000;letrec 'g'/0 = fun () -> ;1; in 2
399;5590;try 1 of X -> ;2; catch <> -> 3
399;4000;let <X> = ;1; in 2
399;1200;do ;1; 2
399;8789;(let <X> = 1 in catch ;1; -| [])
399;2000;case ;1; of <X> when 'true' -> 2 end
399;7586;case 1 of <X> when ;'true'; -> 2 end
399;11576;case 1 of <X> when 'true' -> ;2; end
399;11975;case 1 of (<X> when 'true' -> ;2; -| []) end
399;10782;receive <X> when 'true' -> ;1; after 2 -> 3
399;5600;receive after ;1; -> 2
399;7595;receive after 1 -> ;2;";

const DEEP_PATTERNS: &str = "398;399;{;X;}
398;798;{(;1; -| [])}
398;1596;X = ;Y;
398;4788;(X -| []) = ;Y;
398;399;[;1;]
397;1593;[X|(;[1|2]; -| [])]
397;399;{;[X|[Y|[Z|[]]]];}
397;398;{;\"a\";}
398;2788;~{1 := ;2;}~
199;599;~{{;1;} := 2}~
398;1596;#{#<;X;>(8)}#";

const DEEP_CONSTANTS: &str = "399;400;{;1;}
399;400;[;1;]
398;400;{;[1|[2|[3|[]]]];}
398;399;{;\"a\";}
399;1997;~{1=>;2;}~
399;1600;#{#<;1;>()}#";

// Each form has room on the usual stack of 8 MiB at depth 400; docs/BENCHMARKS.md has what was measured.
#[test]
fn deep_texts(rt: HostRuntime) -> Result<(), Fail> {
    check_deep(
        &rt,
        &rt,
        DEEP_EXPRESSIONS,
        BEFORE_EXPRESSIONS,
        BEHIND_EXPRESSIONS,
    )?;
    check_deep(&rt, &rt, DEEP_PATTERNS, BEFORE_PATTERNS, BEHIND_PATTERNS)?;
    check_deep(&rt, &rt, DEEP_CONSTANTS, BEFORE_CONSTANTS, BEHIND_CONSTANTS)?;
    // At depth 401 a token that begins no node is no part of a module.
    let text = nested(
        &rt,
        &rt,
        BEFORE_EXPRESSIONS,
        "{;when;}",
        400,
        BEHIND_EXPRESSIONS,
    )?;
    assert_eq!(rt; first_fault(&rt, &rt, text.as_slice()), (5, 446, 2));
    Ok(())
}

// What follows a step, and a merged tail, stand no deeper.
#[test]
fn level_texts(rt: HostRuntime) -> Result<(), Fail> {
    check_level(&rt, &rt, "do 1 ;2;", BEFORE_EXPRESSIONS, BEHIND_EXPRESSIONS)?;
    check_level(
        &rt,
        &rt,
        "let X = 1 in ;X;",
        BEFORE_EXPRESSIONS,
        BEHIND_EXPRESSIONS,
    )?;
    check_level(&rt, &rt, "[1|;[];]", BEFORE_EXPRESSIONS, BEHIND_EXPRESSIONS)?;
    check_level(&rt, &rt, "[X|;[];]", BEFORE_PATTERNS, BEHIND_PATTERNS)?;
    check_level(&rt, &rt, "[1|;[];]", BEFORE_CONSTANTS, BEHIND_CONSTANTS)
}

fn check_deep(
    rt: &impl Abort,
    host: &HostRuntime,
    rows: &str,
    before: &str,
    behind: &str,
) -> Result<(), Fail> {
    for row in rows.split('\n') {
        let (most, parts) = cut(rt, row, ';');
        let (byte, parts) = cut(rt, parts, ';');
        let most = number(rt, most);
        let text = nested(rt, host, before, parts, most, behind)?;
        assert_eq!(rt; first_fault(rt, host, text.as_slice()), (0, 0, 0), "{row}");
        let text = nested(rt, host, before, parts, most.wrapping_add(1), behind)?;
        let want = (6, number(rt, byte).wrapping_add(before.len() as u64), 2);
        assert_eq!(rt; first_fault(rt, host, text.as_slice()), want, "{row}");
    }
    Ok(())
}

fn check_level(
    rt: &impl Abort,
    host: &HostRuntime,
    parts: &str,
    before: &str,
    behind: &str,
) -> Result<(), Fail> {
    let text = nested(rt, host, before, parts, 500, behind)?;
    assert_eq!(rt;
        first_fault(rt, host, text.as_slice()),
        (0, 0, 0),
        "{parts}"
    );
    Ok(())
}

// A text in which the first of the parts and the last are repeated.
fn nested(
    rt: &impl Abort,
    host: &HostRuntime,
    before: &str,
    parts: &str,
    times: u64,
    behind: &str,
) -> Result<Vec<u8>, Fail> {
    let (front, parts) = cut(rt, parts, ';');
    let (middle, back) = cut(rt, parts, ';');
    let mut text = Vec::new(host.alloc());
    text.extend_from_slice(before.as_bytes())?;
    for _ in 0..times {
        text.extend_from_slice(front.as_bytes())?;
    }
    text.extend_from_slice(middle.as_bytes())?;
    for _ in 0..times {
        text.extend_from_slice(back.as_bytes())?;
    }
    text.extend_from_slice(behind.as_bytes())?;
    Ok(text)
}

// The number, the byte and the line of a text's first fault; zeros, where it is a module.
fn first_fault(rt: &impl Abort, host: &HostRuntime, text: &[u8]) -> (u64, u64, u64) {
    lexed_weight();
    if text.len() >= 100_000 {
        panic!(rt; "a long text");
    }
    let tokens = match scan(host.alloc(), text) {
        Ok(tokens) => tokens,
        Err(fault) => panic!(rt; "{fault:?}"),
    };
    match parse(host.alloc(), tokens.as_slice(), end_place(text)) {
        Ok(module) => {
            discard_module(module);
            (0, 0, 0)
        }
        Err(ParseFault::Syntax(place)) => (5, place.byte, u64::from(place.line)),
        Err(ParseFault::TooDeep(place)) => (6, place.byte, u64::from(place.line)),
        Err(ParseFault::Memory) => panic!(rt; "no memory"),
    }
}

// What stands before the first such mark, and what stands behind it.
fn cut<'a>(rt: &impl Abort, row: &'a str, mark: char) -> (&'a str, &'a str) {
    match row.split_once(mark) {
        Some(parts) => parts,
        None => panic!(rt; "{row}"),
    }
}

fn number(rt: &impl Abort, digits: &str) -> u64 {
    match digits.parse::<u64>() {
        Ok(value) => value,
        Err(_) => panic!(rt; "{digits}"),
    }
}
