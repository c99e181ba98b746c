// Tokens of small files, as tables of a file and what it gives.
use p9_lex::{Dialect, LexFault, Token, TokenKind, lex};
use std::alloc::{AllocError, Global};
use std::test::Fail;

fn kind_text(alloc: Global, kind: &TokenKind) -> Result<String, AllocError> {
    match kind {
        TokenKind::Word(name) => bytes_text(alloc, 'w', &name.list),
        TokenKind::Number {
            value,
            unsigned,
            long,
        } => {
            let u = if *unsigned { "u" } else { "" };
            let l = if *long { "l" } else { "" };
            format!(in alloc; "n{value}{u}{l}")
        }
        TokenKind::Char(value) => format!(in alloc; "c{value}"),
        TokenKind::Text(bytes) => bytes_text(alloc, 't', &bytes.list),
        TokenKind::Mark(number) => format!(in alloc; "m{number}"),
        TokenKind::NewLine => format!(in alloc; "line"),
        TokenKind::End => format!(in alloc; "end"),
    }
}

fn bytes_text(alloc: Global, letter: char, bytes: &[u8]) -> Result<String, AllocError> {
    let mut text = String::new(alloc);
    text.push(letter)?;
    for b in bytes {
        text.push(char::from(*b))?;
    }
    Ok(text)
}

// The kind; the span and line; `^` for the first on a line and `+` for one that is joined.
fn token_text(alloc: Global, token: &Token) -> Result<String, AllocError> {
    let kind = kind_text(alloc, &token.kind)?;
    let start = token.start;
    let end = token.end;
    let line = token.line;
    let first = if token.first { "^" } else { "" };
    let joined = if token.joined { "+" } else { "" };
    format!(in alloc; "{kind}@{start}-{end}:{line}{first}{joined}")
}

fn answer_text(alloc: Global, file: &[u8], dialect: Dialect) -> Result<String, AllocError> {
    match lex(alloc, file, dialect) {
        Ok(tokens) => {
            let mut text = String::new(alloc);
            for token in &tokens.list {
                if !text.is_empty() {
                    text.push(' ')?;
                }
                let one = token_text(alloc, token)?;
                text.push_str(one.as_str())?;
            }
            Ok(text)
        }
        Err(LexFault::BadByte { at, line }) => format!(in alloc; "1 BadByte {at} in {line}"),
        Err(LexFault::OpenComment { at, line }) => {
            format!(in alloc; "2 OpenComment {at} in {line}")
        }
        Err(LexFault::OpenText { at, line }) => format!(in alloc; "3 OpenText {at} in {line}"),
        Err(LexFault::WideNumber { at, line }) => {
            format!(in alloc; "4 WideNumber {at} in {line}")
        }
        Err(LexFault::Memory) => format!(in alloc; "memory"),
    }
}

#[test]
fn files_give_tokens_and_refusals(rt: HostRuntime) -> Result<(), Fail> {
    let rows: [(&[u8], Dialect, &str); 60] = [
        (b"4294967296", Dialect::C, "4 WideNumber 0 in 1"),
        (
            b"4294967295",
            Dialect::C,
            "n4294967295@0-10:1^ end@10-10:1+",
        ),
        (b"4294967296z", Dialect::C, "4 WideNumber 0 in 1"),
        (b"\n x 0x100000000", Dialect::C, "4 WideNumber 4 in 2"),
        (
            b"0xFFFFffff",
            Dialect::C,
            "n4294967295@0-10:1^ end@10-10:1+",
        ),
        (
            b"037777777777",
            Dialect::C,
            "n4294967295@0-12:1^ end@12-12:1+",
        ),
        (b"040000000000", Dialect::C, "4 WideNumber 0 in 1"),
        (
            b"1uL 1lu 1U 1l 0",
            Dialect::C,
            "n1ul@0-3:1^ n1ul@4-7:1 n1u@8-10:1 n1l@11-13:1 n0@14-15:1 end@15-15:1+",
        ),
        (b"1ll", Dialect::C, "1 BadByte 2 in 1"),
        (b"1ulu", Dialect::C, "1 BadByte 3 in 1"),
        (b"1.5", Dialect::C, "1 BadByte 1 in 1"),
        (b"a @", Dialect::C, "1 BadByte 2 in 1"),
        (b"0x", Dialect::C, "1 BadByte 1 in 1"),
        (b"0xg", Dialect::C, "1 BadByte 1 in 1"),
        (b"08", Dialect::C, "1 BadByte 1 in 1"),
        (b"1_", Dialect::C, "1 BadByte 1 in 1"),
        (b"a\\b", Dialect::C, "1 BadByte 1 in 1"),
        (b"\x0B", Dialect::C, "1 BadByte 0 in 1"),
        (b"\x80", Dialect::C, "1 BadByte 0 in 1"),
        (b"$", Dialect::C, "1 BadByte 0 in 1"),
        (b"'a", Dialect::C, "3 OpenText 0 in 1"),
        (b"'", Dialect::C, "3 OpenText 0 in 1"),
        (b"''", Dialect::C, "1 BadByte 1 in 1"),
        (b"'ab'", Dialect::C, "1 BadByte 2 in 1"),
        (b"'\n'", Dialect::C, "3 OpenText 0 in 1"),
        (b"'a\n", Dialect::C, "3 OpenText 0 in 1"),
        (b"'\\\n'", Dialect::C, "3 OpenText 0 in 1"),
        (
            b"'a' '\"' '\\n' '\\0' '\\x7f'",
            Dialect::C,
            "c97@0-3:1^ c34@4-7:1 c10@8-12:1 c0@13-17:1 c127@18-24:1 end@24-24:1+",
        ),
        (
            b"'\\377' '\x80'",
            Dialect::C,
            "c4294967295@0-6:1^ c4294967168@7-10:1 end@10-10:1+",
        ),
        (b"\"\\400\"", Dialect::C, "1 BadByte 4 in 1"),
        (b"\"\\xg\"", Dialect::C, "1 BadByte 3 in 1"),
        (b"\"\\q\"", Dialect::C, "1 BadByte 2 in 1"),
        (b"x \"ab\n\"", Dialect::C, "3 OpenText 2 in 1"),
        (b"\"ab\0", Dialect::C, "1 BadByte 3 in 1"),
        (b"\"ab\\\n\"", Dialect::C, "3 OpenText 0 in 1"),
        (
            b"\"a'\\x4a\\1012\\\"\"\"\"",
            Dialect::C,
            "ta'JA2\"@0-15:1^ t@15-17:1+ end@17-17:1+",
        ),
        (
            b"\"\\t\\r\\b\\f\\v\\a\\\\\\'\"",
            Dialect::C,
            "t\t\r\x08\x0C\x0B\x07\\'@0-18:1^ end@18-18:1+",
        ),
        (b"/*", Dialect::C, "2 OpenComment 0 in 1"),
        (b"\n/*/", Dialect::C, "2 OpenComment 1 in 2"),
        (b"/*\n\0", Dialect::C, "1 BadByte 3 in 2"),
        (b"//\0", Dialect::C, "1 BadByte 2 in 1"),
        (
            b"a/**/b /***/ c",
            Dialect::C,
            "wa@0-1:1^ wb@5-6:1 wc@13-14:1 end@14-14:1+",
        ),
        (
            b"a // b \\\nc",
            Dialect::C,
            "wa@0-1:1^ wc@9-10:2^ end@10-10:2+",
        ),
        (b"a /*\n*/ b", Dialect::C, "wa@0-1:1^ wb@8-9:2 end@9-9:2+"),
        (b"/*\n*/ # x", Dialect::C, "m45@6-7:2^ wx@8-9:2 end@9-9:2+"),
        (
            b"a\\\nb\n\\\nc",
            Dialect::C,
            "wa@0-1:1^ wb@3-4:2 wc@7-8:4^ end@8-8:4+",
        ),
        (
            b"a\t\r\x0C b\n\nc",
            Dialect::C,
            "wa@0-1:1^ wb@5-6:1 wc@8-9:3^ end@9-9:3+",
        ),
        (b"", Dialect::C, "end@0-0:1^"),
        (b"\n", Dialect::C, "end@1-1:2^"),
        (
            b"a+++b",
            Dialect::C,
            "wa@0-1:1^ m10@1-3:1+ m14@3-4:1+ wb@4-5:1+ end@5-5:1+",
        ),
        (
            b"<<= < <=<",
            Dialect::C,
            "m40@0-3:1^ m22@4-5:1 m24@6-8:1 m22@8-9:1+ end@9-9:1+",
        ),
        (
            b"{}()[];,.->++--&*+-~!/%<<>>",
            Dialect::C,
            "m0@0-1:1^ m1@1-2:1+ m2@2-3:1+ m3@3-4:1+ m4@4-5:1+ m5@5-6:1+ m6@6-7:1+ m7@7-8:1+ m8@8-9:1+ m9@9-11:1+ m10@11-13:1+ m11@13-15:1+ m12@15-16:1+ m13@16-17:1+ m14@17-18:1+ m15@18-19:1+ m16@19-20:1+ m17@20-21:1+ m18@21-22:1+ m19@22-23:1+ m20@23-25:1+ m21@25-27:1+ end@27-27:1+",
        ),
        (
            b"< > <= >= == != ^ | && || ? :",
            Dialect::C,
            "m22@0-1:1^ m23@2-3:1 m24@4-6:1 m25@7-9:1 m26@10-12:1 m27@13-15:1 m28@16-17:1 m29@18-19:1 m30@20-22:1 m31@23-25:1 m32@26-27:1 m33@28-29:1 end@29-29:1+",
        ),
        (
            b"= *= /= %= += -= <<= >>= &= ^= |= #",
            Dialect::C,
            "m34@0-1:1^ m35@2-4:1 m36@5-7:1 m37@8-10:1 m38@11-13:1 m39@14-16:1 m40@17-20:1 m41@21-24:1 m42@25-27:1 m43@28-30:1 m44@31-33:1 m45@34-35:1 end@35-35:1+",
        ),
        (
            b"_a1 while\"x\"'y'9",
            Dialect::C,
            "w_a1@0-3:1^ wwhile@4-9:1 tx@9-12:1+ c121@12-15:1+ n9@15-16:1+ end@16-16:1+",
        ),
        (
            b"a\n b\n",
            Dialect::Asm,
            "wa@0-1:1^ line@1-2:1+ wb@3-4:2^ line@4-5:2+ end@5-5:3^+",
        ),
        (
            b"$1 // c\n\n",
            Dialect::Asm,
            "m46@0-1:1^ n1@1-2:1+ line@7-8:1 line@8-9:2^+ end@9-9:3^+",
        ),
        (
            b"a /*\n*/ b\\\nc",
            Dialect::Asm,
            "wa@0-1:1^ wb@8-9:2 wc@11-12:3 end@12-12:3+",
        ),
        (b"\n", Dialect::Asm, "line@0-1:1^ end@1-1:2^+"),
        (b"x@", Dialect::Asm, "1 BadByte 1 in 1"),
    ];
    for (file, dialect, wanted) in rows {
        let answer = answer_text(rt.alloc(), file, dialect)?;
        assert_eq!(rt; answer.as_str(), wanted);
    }
    Ok(())
}

#[test]
fn keywords_are_words(rt: HostRuntime) -> Result<(), Fail> {
    let words =
        b"auto break case char const continue default do double else enum extern float for goto if int long register return short signed sizeof static struct switch typedef union unsigned void volatile while";
    let wanted =
        "wauto@0-4:1^ wbreak@5-10:1 wcase@11-15:1 wchar@16-20:1 wconst@21-26:1 wcontinue@27-35:1 wdefault@36-43:1 wdo@44-46:1 wdouble@47-53:1 welse@54-58:1 wenum@59-63:1 wextern@64-70:1 wfloat@71-76:1 wfor@77-80:1 wgoto@81-85:1 wif@86-88:1 wint@89-92:1 wlong@93-97:1 wregister@98-106:1 wreturn@107-113:1 wshort@114-119:1 wsigned@120-126:1 wsizeof@127-133:1 wstatic@134-140:1 wstruct@141-147:1 wswitch@148-154:1 wtypedef@155-162:1 wunion@163-168:1 wunsigned@169-177:1 wvoid@178-182:1 wvolatile@183-191:1 wwhile@192-197:1 end@197-197:1+";
    let answer = answer_text(rt.alloc(), words, Dialect::C)?;
    assert_eq!(rt; answer.as_str(), wanted);
    Ok(())
}

#[test]
fn limits_are_exact(rt: HostRuntime) -> Result<(), Fail> {
    let alloc = rt.alloc();
    let mut name = vec![in alloc; b'a'; 255]?;
    assert!(rt; lex(alloc, name.as_slice(), Dialect::C).is_ok());
    name.push(b'a')?;
    let answer = answer_text(alloc, name.as_slice(), Dialect::C)?;
    assert_eq!(rt; answer.as_str(), "1 BadByte 255 in 1");

    let mut file = vec![in alloc; b' '; 16_777_214]?;
    file.extend_from_slice(b"a;")?;
    assert!(rt; lex(alloc, file.as_slice(), Dialect::C).is_ok());
    file.push(b' ')?;
    let answer = answer_text(alloc, file.as_slice(), Dialect::C)?;
    assert_eq!(rt; answer.as_str(), "1 BadByte 16777216 in 1");
    file.extend_from_slice(b"@")?;
    let answer = answer_text(alloc, file.as_slice(), Dialect::C)?;
    assert_eq!(rt; answer.as_str(), "1 BadByte 16777216 in 1");
    Ok(())
}
