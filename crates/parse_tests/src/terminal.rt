use p9_grammar::{Keyword, Punctuator, Terminal};
use p9_lex::{Dialect, lex};
use p9_terminal::terminal;
use std::test::Fail;

#[test]
fn words_and_marks(rt: HostRuntime) -> Result<(), Fail> {
    let alloc = rt.alloc();
    let tokens = lex(alloc, b"while x >>= 'a' \"s\" # 10UL", Dialect::C)?;
    let mut seen = 0u8;
    for token in tokens.list.as_slice() {
        match terminal(alloc, &token.kind)? {
            Terminal::Key(word) => assert!(rt; word == Keyword::While && seen == 0),
            Terminal::Name(name) => assert!(rt;
                name.list.as_slice() == b"x".as_slice() && seen == 1
            ),
            Terminal::Mark(mark) => {
                assert!(rt;
                    (mark == Punctuator::ShiftRightEqual && seen == 2)
                        || (mark == Punctuator::Hash && seen == 5)
                );
            }
            Terminal::Character(value) => assert!(rt; value == 97 && seen == 3),
            Terminal::Text(bytes) => assert!(rt;
                bytes.list.as_slice() == b"s".as_slice() && seen == 4
            ),
            Terminal::Number {
                value,
                unsigned,
                long,
            } => assert!(rt; value == 10 && unsigned && long && seen == 6),
            Terminal::End => assert!(rt; seen == 7),
            Terminal::Other => assert!(rt; false),
        }
        seen = seen.wrapping_add(1);
    }
    assert_eq!(rt; seen, 8);
    Ok(())
}
