// Files that are refused: at which token, counted from 0, no file goes on.
use crate::support::read_text;
use p9_parse::ParseFault;
use std::test::Fail;

#[test]
fn files_break(rt: HostRuntime) -> Result<(), Fail> {
    let alloc = rt.alloc();
    for (text, place) in [
        // No type, and types that there are not.
        ("x;", 0),
        ("float x;", 0),
        ("unsigned T x;", 2),
        ("void f(void){ int x; int; x T; }", 12),
        // Members.
        ("struct S { int a : 3; };", 5),
        ("struct S { };", 3),
        ("struct S { static int a; };", 3),
        ("int f(static int a);", 3),
        // Declarators.
        ("int x y;", 2),
        ("int (x;", 3),
        // Statements.
        ("void f(void){ case 1: ; }", 6),
        ("void f(int a){ do ; while(a) }", 13),
        ("void f(void){ break }", 7),
        ("int f(){}}", 6),
        ("int x; #", 3),
        // A cast is no place of an assignment, and a conditional ends in a conditional.
        ("void f(int a){ (int)a = 2; }", 11),
        ("void f(int a){ a ? a : a = 1; }", 12),
        // The end.
        ("int x;\n\nint y\nint z;", 5),
        ("int x", 2),
        ("void main(void){ exits(0)", 10),
    ] {
        match read_text(alloc, text)? {
            Ok(_) => assert!(rt; false, "{text}"),
            Err(fault) => assert!(rt; fault == ParseFault::Syntax(place), "{text}"),
        }
    }
    Ok(())
}

// Each star and each pair of parentheses is a node of its own.
#[test]
fn files_are_deep(rt: HostRuntime) -> Result<(), Fail> {
    let alloc = rt.alloc();
    for (stars, is_read) in [(98, true), (99, false)] {
        let mut text = String::new(alloc);
        text.push_str("int ")?;
        for _ in 0..stars {
            text.push('*')?;
        }
        text.push_str("p;")?;
        match read_text(alloc, text.as_str())? {
            Ok(_) => assert!(rt; is_read),
            Err(fault) => assert!(rt;
                !is_read
                    && fault
                        == ParseFault::TooDeep {
                            limit: 100,
                            item: 0,
                        }
            ),
        }
    }
    Ok(())
}
