// Units of small files, as tables of their files and what they give.
use p9_base::{Bytes, Calls, Files, MemFiles, Name};
use p9_cpp::{CppFault, preprocess};
use p9_lex::{Token, TokenKind, Tokens};
use std::alloc::{AllocError, Global};
use std::test::Fail;

const MARKS: [&str; 46] = [
    "{", "}", "(", ")", "[", "]", ";", ",", ".", "->", "++", "--", "&", "*", "+", "-", "~", "!",
    "/", "%", "<<", ">>", "<", ">", "<=", ">=", "==", "!=", "^", "|", "&&", "||", "?", ":", "=",
    "*=", "/=", "%=", "+=", "-=", "<<=", ">>=", "&=", "^=", "|=", "#",
];

fn push_bytes(text: &mut String, bytes: &[u8]) -> Result<(), AllocError> {
    for b in bytes {
        text.push(char::from(*b))?;
    }
    Ok(())
}

fn kind_text(alloc: Global, kind: &TokenKind) -> Result<String, AllocError> {
    let mut text = String::new(alloc);
    match kind {
        TokenKind::Word(name) => push_bytes(&mut text, name.list.as_slice())?,
        TokenKind::Number {
            value,
            unsigned: _,
            long: _,
        } => return format!(in alloc; "{value}"),
        TokenKind::Char(value) => return format!(in alloc; "'{value}'"),
        TokenKind::Text(bytes) => {
            text.push('"')?;
            push_bytes(&mut text, bytes.list.as_slice())?;
            text.push('"')?;
        }
        TokenKind::Mark(number) => {
            if let Some(mark) = MARKS.get(usize::from(*number)) {
                text.push_str(mark)?;
            }
        }
        TokenKind::NewLine => text.push_str("newline")?,
        TokenKind::End => text.push_str("end")?,
    }
    Ok(text)
}

// The kinds of the tokens, and behind each the number of its file and its line where these change.
fn tokens_text(alloc: Global, tokens: &Tokens) -> Result<String, AllocError> {
    let mut text = String::new(alloc);
    let mut place = (0, 0);
    for token in &tokens.list {
        if !text.is_empty() {
            text.push(' ')?;
        }
        let kind = kind_text(alloc, &token.kind)?;
        text.push_str(kind.as_str())?;
        if place != (token.file, token.line) {
            place = (token.file, token.line);
            let file = token.file;
            let line = token.line;
            let at = format!(in alloc; "@{file}:{line}")?;
            text.push_str(at.as_str())?;
        }
    }
    names_text(alloc, " <", &tokens.sources, text)
}

// A text with names behind it.
fn names_text(
    alloc: Global,
    mark: &str,
    names: &[Name],
    text: String,
) -> Result<String, AllocError> {
    let mut text = text;
    for name in names {
        text.push_str(mark)?;
        push_bytes(&mut text, name.list.as_slice())?;
    }
    Ok(text)
}

fn placed(
    alloc: Global,
    file: &Name,
    line: u32,
    what: &str,
    name: &[u8],
) -> Result<String, AllocError> {
    let mut text = String::new(alloc);
    push_bytes(&mut text, file.list.as_slice())?;
    let rest = format!(in alloc; ":{line}: {what}")?;
    text.push_str(rest.as_str())?;
    push_bytes(&mut text, name)?;
    Ok(text)
}

fn byte_fault(
    alloc: Global,
    file: &Name,
    line: u32,
    what: &str,
    at: u32,
) -> Result<String, AllocError> {
    let text = format!(in alloc; "{what} {at}")?;
    placed(alloc, file, line, text.as_str(), b"")
}

fn limit_fault(
    alloc: Global,
    file: &Name,
    line: u32,
    what: &str,
    limit: u32,
) -> Result<String, AllocError> {
    byte_fault(alloc, file, line, what, limit)
}

fn fault_text(alloc: Global, fault: &CppFault) -> Result<String, AllocError> {
    match fault {
        CppFault::Absent(name) => placed(alloc, name, 0, "absent", b""),
        CppFault::BadByte { at, file, line } => byte_fault(alloc, file, *line, "1 BadByte", *at),
        CppFault::OpenComment { at, file, line } => {
            byte_fault(alloc, file, *line, "2 OpenComment", *at)
        }
        CppFault::OpenText { at, file, line } => byte_fault(alloc, file, *line, "3 OpenText", *at),
        CppFault::WideNumber { at, file, line } => {
            byte_fault(alloc, file, *line, "4 WideNumber", *at)
        }
        CppFault::NoFile { name, file, line } => {
            placed(alloc, file, *line, "5 NoFile ", name.list.as_slice())
        }
        CppFault::BadDirective { file, line } => {
            placed(alloc, file, *line, "6 BadDirective", b"")
        }
        CppFault::IncludeDepth { limit, file, line } => {
            limit_fault(alloc, file, *line, "7 IncludeDepth", *limit)
        }
        CppFault::MacroArgs { name, file, line } => {
            placed(alloc, file, *line, "8 MacroArgs ", name.list.as_slice())
        }
        CppFault::TooManyTokens { limit, file, line } => {
            limit_fault(alloc, file, *line, "9 TooManyTokens", *limit)
        }
        CppFault::Store(name) => placed(alloc, name, 0, "store fault", b""),
        CppFault::Memory => Err(AllocError),
    }
}

fn bytes(alloc: Global, text: &str) -> Result<Bytes, AllocError> {
    Ok(Bytes {
        list: text.as_bytes().to_vec(alloc)?,
    })
}

fn answer(alloc: Global, files: &mut MemFiles) -> Result<String, AllocError> {
    let name = bytes(alloc, "a.c")?;
    match preprocess(alloc, &name, files) {
        Ok(tokens) => {
            let text = tokens_text(alloc, &tokens)?;
            names_text(alloc, " !", &tokens.marks, text)
        }
        Err(fault) => fault_text(alloc, &fault),
    }
}

fn write(alloc: Global, files: &mut MemFiles, name: &str, text: &str) -> Result<(), Fail> {
    files
        .write(alloc, &bytes(alloc, name)?, &bytes(alloc, text)?)
        .map_err(|_| "not written")?;
    Ok(())
}

// A store with no files, of which the calls with these numbers fail.
fn store(alloc: Global, fails: &[u64]) -> Result<MemFiles, Fail> {
    let fails = Calls {
        list: fails.to_vec(alloc)?,
    };
    Ok(MemFiles::new(Vec::new(alloc), fails))
}

// What a.c gives, beside b.h. The two writes are calls 0 and 1 on the store.
fn two_files(alloc: Global, a: &str, b: &str, fails: &[u64]) -> Result<String, Fail> {
    let mut files = store(alloc, fails)?;
    write(alloc, &mut files, "a.c", a)?;
    write(alloc, &mut files, "b.h", b)?;
    Ok(answer(alloc, &mut files)?)
}

#[test]
fn macros_expand(rt: HostRuntime) -> Result<(), Fail> {
    let alloc = rt.alloc();
    for (file, wanted) in [
        (
            "#define f(x) x+f(x)\nf(f(1))\n",
            "1@0:2 + f ( 1 ) + f ( 1 + f ( 1 ) ) end@0:3 <a.c",
        ),
        (
            "#define MAX(a,b) ((a) > (b) ? (a) : (b))\nMAX(1, MAX(2, 3))",
            "(@0:2 ( 1 ) > ( ( ( 2 ) > ( 3 ) ? ( 2 ) : ( 3 ) ) ) ? ( 1 ) : ( ( ( 2 ) > ( 3 ) ? ( 2 ) : ( 3 ) ) ) ) end <a.c",
        ),
    ] {
        let given = two_files(alloc, file, "", &[])?;
        assert_eq!(rt; given.as_str(), wanted);
    }
    Ok(())
}

#[test]
fn directives_count(rt: HostRuntime) -> Result<(), Fail> {
    let alloc = rt.alloc();
    for (file, wanted) in [
        (
            "#include <u.h>\nnil\n#undef nil\nnil",
            "typedef@1:1 unsigned char uchar ; typedef signed char schar ; typedef unsigned short ushort ; typedef unsigned int uint ; typedef unsigned long ulong ; (@0:2 ( void * ) 0 ) nil@0:4 end <a.c <u.h",
        ),
        (
            "#include \"b.h\"\n#include <b.h>\n#pragma incomplete S\n#pragma once\n#line 5 \"x\"\nx",
            "b@1:1 b x@0:6 end <a.c <b.h !S",
        ),
        (
            "#define N\n#ifdef N\na\n#else x\n#endif",
            "a.c:4: 6 BadDirective",
        ),
        (
            "#ifdef N\n#ifdef M\n#else x\n#else\n#endif y\na\n#else\nb\n#endif",
            "b@0:8 end@0:9 <a.c",
        ),
        ("#ifdef X\n\n", "a.c:3: 6 BadDirective"),
        ("#", "a.c:1: 6 BadDirective"),
        ("#define f(a,a) a", "a.c:1: 6 BadDirective"),
        ("#include \"c.h\"", "a.c:1: 5 NoFile c.h"),
        ("x\n#define f(a) a\nf(\nf(1,2))", "a.c:4: 8 MacroArgs f"),
        ("#define f() x\nf( ) f\nf(1)", "a.c:3: 8 MacroArgs f"),
        ("\n 'a", "a.c:2: 3 OpenText 2"),
    ] {
        let given = two_files(alloc, file, "b", &[])?;
        assert_eq!(rt; given.as_str(), wanted);
    }
    Ok(())
}

#[test]
fn failing_store_is_named(rt: HostRuntime) -> Result<(), Fail> {
    let alloc = rt.alloc();
    let given = two_files(alloc, "#include \"b.h\"", "b", &[3])?;
    assert_eq!(rt; given.as_str(), "b.h:0: store fault");
    Ok(())
}

// What a.c gives, which includes h1, beside h1 to the last, each of which includes the next.
fn chain(alloc: Global, last: u32) -> Result<String, Fail> {
    let mut files = store(alloc, &[])?;
    write(alloc, &mut files, "a.c", "#include \"h1\"")?;
    for i in 1..last {
        let name = format!(in alloc; "h{i}")?;
        let next = i + 1;
        let text = format!(in alloc; "#include \"h{next}\"")?;
        write(alloc, &mut files, name.as_str(), text.as_str())?;
    }
    let name = format!(in alloc; "h{last}")?;
    write(alloc, &mut files, name.as_str(), "x")?;
    Ok(answer(alloc, &mut files)?)
}

#[test]
fn sixteen_includes_nest(rt: HostRuntime) -> Result<(), Fail> {
    let alloc = rt.alloc();
    let given = chain(alloc, 16)?;
    assert!(rt; given.as_str().starts_with("x@16:1 end@0:1 <a.c <h1 <h2"));
    let given = chain(alloc, 17)?;
    assert_eq!(rt; given.as_str(), "h16:1: 7 IncludeDepth 16");
    Ok(())
}

// `#define m0 x x`, `#define m1 m0 m0` and so on to the last, and then the last.
fn doubled(alloc: Global, last: u32) -> Result<String, AllocError> {
    let mut text = String::new(alloc);
    text.push_str("#define m0 x x\n")?;
    for i in 0..last {
        let next = i + 1;
        let line = format!(in alloc; "#define m{next} m{i} m{i}\n")?;
        text.push_str(line.as_str())?;
    }
    let line = format!(in alloc; "m{last}\n")?;
    text.push_str(line.as_str())?;
    Ok(text)
}

#[test]
fn tokens_are_limited(rt: HostRuntime) -> Result<(), Fail> {
    let alloc = rt.alloc();
    let text = doubled(alloc, 17)?;
    let given = two_files(alloc, text.as_str(), "", &[])?;
    assert_eq!(rt; given.as_str(), "a.c:19: 9 TooManyTokens 262144");
    Ok(())
}
