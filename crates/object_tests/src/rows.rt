// Where the lines of a file stand.
use p9_lex::{Dialect, lex};
use p9_rows::{lexemes_of, rows_of};
use std::test::Fail;

// Lines of the first function, of the second, and one that is none.
#[test]
fn lines_belong_to_the_function_above(rt: HostRuntime) -> Result<(), Fail> {
    let text = "TEXT f(SB), $8\nRET\n\nTEXT g(SB), $0\na: RET\nRET\nFOO";
    let tokens = lex(rt.alloc(), text.as_bytes(), Dialect::Asm)?;
    assert!(rt; tokens.list.len() < 1000);
    let lexemes = lexemes_of(rt.alloc(), &tokens.list).map_err(|_| "no memory")?;
    let rows = rows_of(rt.alloc(), &lexemes).map_err(|_| "no memory")?;
    let wanted = [
        (None, 0, 0, true),
        (Some(0), 8, 0, true),
        (Some(0), 8, 1, true),
        (Some(0), 8, 1, true),
        (Some(3), 0, 0, true),
        (Some(3), 0, 1, true),
        (Some(3), 0, 2, false),
    ];
    let mut rest = rows.as_slice();
    for (function, frame, number, is_line) in wanted {
        match rest {
            [row, after @ ..] => {
                assert_eq!(rt; row.place.function, function);
                assert_eq!(rt; row.place.frame, frame);
                assert_eq!(rt; row.place.number, number);
                assert_eq!(rt; row.content.is_some(), is_line);
                rest = after;
            }
            [] => assert!(rt; false),
        }
    }
    Ok(())
}
