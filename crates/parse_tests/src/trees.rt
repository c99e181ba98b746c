// Programs that have a tree.
use crate::programs::{LIB, PROGRAMS, WC, WC_HEADER};
use crate::support::{read, read_text, store};
use p9_parse::ParseFault;
use std::test::Fail;

#[test]
fn programs_have_trees(rt: HostRuntime) -> Result<(), Fail> {
    let alloc = rt.alloc();
    for text in PROGRAMS {
        let mut files = store(alloc, &[("a.c", text), ("lib.h", LIB)])?;
        let tree = read(alloc, &mut files)?;
        assert!(rt; tree.is_ok(), "{text}");
    }
    Ok(())
}

#[test]
fn word_counter(rt: HostRuntime) -> Result<(), Fail> {
    let alloc = rt.alloc();
    let mut files = store(alloc, &[("a.c", WC), ("wc.h", WC_HEADER)])?;
    let Ok(tree) = read(alloc, &mut files)? else {
        return Err(Fail::from("no tree"));
    };
    // The five typedefs and three declarations of the built-in headers, and seven items.
    assert_eq!(rt; tree.items.len(), 14);
    assert!(rt; tree.marks.is_empty());
    Ok(())
}

// A function with so many empty statements: each is a node, and so are the function, its block, its
// parameter list and its name.
#[test]
fn many_nodes(rt: HostRuntime) -> Result<(), Fail> {
    let alloc = rt.alloc();
    for (statements, is_read) in [(99_996, true), (99_997, false)] {
        let mut text = String::new(alloc);
        text.push_str("void f(void){")?;
        for _ in 0..statements {
            text.push(';')?;
        }
        text.push('}')?;
        match read_text(alloc, text.as_str())? {
            Ok(_) => assert!(rt; is_read),
            Err(fault) => assert!(rt;
                !is_read
                    && fault
                        == ParseFault::TooManyNodes {
                            limit: 100_000,
                            item: 0,
                        }
            ),
        }
    }
    Ok(())
}
