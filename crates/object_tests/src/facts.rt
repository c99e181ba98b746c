// Facts and names of a small file.
use p9_facts::{Fact, Facts, Names};
use p9_lex::{Dialect, lex};
use p9_rows::{lexemes_of, rows_of};
use std::test::Fail;

const TEXT: &str =
    "TEXT f(SB), $0\na: MOVW $y(SB), R1\nJMP a\nGLOBL x<>(SB), $8\nDATA x<>+4(SB)/2, $1\n";

#[test]
fn rows_say_facts(rt: HostRuntime) -> Result<(), Fail> {
    let tokens = lex(rt.alloc(), TEXT.as_bytes(), Dialect::Asm)?;
    assert!(rt; tokens.list.len() < 1000);
    let lexemes = lexemes_of(rt.alloc(), &tokens.list).map_err(|_| "no memory")?;
    let rows = rows_of(rt.alloc(), &lexemes).map_err(|_| "no memory")?;
    let facts = Facts::new(rt.alloc(), &rows).map_err(|_| "no memory")?;
    let names = Names::new(rt.alloc(), &rows).map_err(|_| "no memory")?;
    assert_eq!(rt; names.list().len(), 3);
    let second = Fact::Instruction {
        function: 0,
        number: 1,
    };
    assert_eq!(rt; facts.first(second), Some(2));
    match names.list() {
        [f, y, x] => {
            assert_eq!(rt; facts.first(Fact::definition(*f)), Some(0));
            assert_eq!(rt; facts.first(Fact::use_of(*y)), Some(1));
            assert_eq!(rt; facts.first(Fact::value_of(*x)), Some(4));
            assert_eq!(rt; facts.first(Fact::byte_of(*x, 5)), Some(4));
            assert_eq!(rt; facts.first(Fact::byte_of(*x, 6)), None);
            assert_eq!(rt; facts.first(Fact::signature(*f)), None);
            assert_eq!(rt; names.number(*x), Some(2));
        }
        _ => assert!(rt; false),
    }
    Ok(())
}
