use p9_lang::Tree;
use p9_lex::{Dialect, lex};
use p9_parse::{ParseFault, parse};
use std::alloc::Global;
use std::test::Fail;

fn parsed(alloc: Global, text: &[u8]) -> Result<Result<Tree, ParseFault>, Fail> {
    let tokens = lex(alloc, text, Dialect::C)?;
    Ok(parse(alloc, &tokens))
}

#[test]
fn small_files(rt: HostRuntime) -> Result<(), Fail> {
    let alloc = rt.alloc();
    let Ok(tree) = parsed(alloc, b"typedef int T; T x = 'a'; int f(T y) { return y; }")? else {
        return Err(Fail::from("no tree"));
    };
    assert_eq!(rt; tree.items.len(), 3);
    assert!(rt; tree.marks.is_empty());
    for (text, place) in [
        (b"void main(void){ exits(0)".as_slice(), 10),
        (b"int T; T x;".as_slice(), 3),
    ] {
        match parsed(alloc, text)? {
            Ok(_) => assert!(rt; false),
            Err(fault) => assert!(rt; fault == ParseFault::Syntax(place)),
        }
    }
    Ok(())
}

#[test]
fn deep_file(rt: HostRuntime) -> Result<(), Fail> {
    let alloc = rt.alloc();
    for (pairs, is_read) in [(95, true), (96, false)] {
        let mut text = b"int x; void main(void){ x = ".to_vec(alloc)?;
        for _ in 0..pairs {
            text.push(b'(')?;
        }
        text.push(b'1')?;
        for _ in 0..pairs {
            text.push(b')')?;
        }
        text.extend_from_slice(b"; exits(0); }")?;
        match parsed(alloc, text.as_slice())? {
            Ok(_) => assert!(rt; is_read),
            Err(fault) => assert!(rt;
                !is_read
                    && fault
                        == ParseFault::TooDeep {
                            limit: 100,
                            item: 3
                        }
            ),
        }
    }
    Ok(())
}
