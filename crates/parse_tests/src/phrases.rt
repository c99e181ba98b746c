// Expressions and declarations, read by themselves.
use p9_decl::{ParseFault, Parsed, parse_decl, parse_expr};
use p9_lang::Ident;
use p9_lex::{Dialect, Tokens, lex};
use p9_tree_build::{Level, Pile, Scope};
use std::alloc::{AllocError, Global};
use std::test::Fail;

// A level in which `T` is a typedef's name.
fn names(alloc: Global) -> Result<Scope, AllocError> {
    let mut scope = Scope {
        levels: Pile::new(alloc),
    };
    scope.enter(Level::new(alloc))?;
    let name = Ident {
        list: b"T".to_vec(alloc)?,
    };
    scope.declare(alloc, name, true)?;
    Ok(scope)
}

fn tokens(alloc: Global, text: &str) -> Result<Tokens, Fail> {
    Ok(lex(alloc, text.as_bytes(), Dialect::C)?)
}

fn place(read: Result<Parsed, ParseFault>) -> Result<usize, ParseFault> {
    let parsed = match read {
        Ok(parsed) => parsed,
        Err(fault) => return Err(fault),
    };
    Ok(parsed.next)
}

#[test]
fn expressions(rt: HostRuntime) -> Result<(), Fail> {
    let alloc = rt.alloc();
    for (text, at, wanted) in [
        ("a + b * c", 0, Ok(5)),
        ("a + b; c", 0, Ok(3)),
        ("x = (T)y)", 2, Ok(6)),
        ("f(a, b)[1].m }", 0, Ok(11)),
        ("a = b : c", 0, Ok(3)),
        // The greatest beginning is none by itself.
        ("a + ; b", 0, Err(ParseFault::Syntax(2))),
        ("T * 2", 0, Err(ParseFault::Syntax(0))),
        ("", 0, Err(ParseFault::Syntax(0))),
    ] {
        let mut scope = names(alloc)?;
        let tokens = tokens(alloc, text)?;
        assert!(rt; at <= tokens.list.len());
        let read = place(parse_expr(alloc, &tokens, at, &mut scope));
        assert!(rt; read == wanted, "{text}");
    }
    Ok(())
}

#[test]
fn declarations(rt: HostRuntime) -> Result<(), Fail> {
    let alloc = rt.alloc();
    // What is read, up to where, and then the levels of names, and whether `x` is a type.
    for (text, wanted, levels, is_type) in [
        ("T x, *y = &x; z", Ok(9), 1, false),
        ("typedef T *x;", Ok(5), 1, true),
        ("T f(int T, int x){ }", Ok(9), 2, false),
        ("struct S { T m; } x;", Ok(9), 1, false),
        ("T x = 1 }", Err(ParseFault::Syntax(4)), 1, false),
        ("T;", Ok(2), 1, false),
    ] {
        let mut scope = names(alloc)?;
        let read = place(parse_decl(alloc, &tokens(alloc, text)?, 0, &mut scope));
        assert!(rt; read == wanted, "{text}");
        assert_eq!(rt; scope.levels.as_slice().len(), levels, "{text}");
        assert_eq!(rt; scope.is_type(b"x"), is_type, "{text}");
    }
    Ok(())
}
