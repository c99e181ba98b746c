use p9_grammar::{Keyword, Punctuator, Terminal};
use p9_lang::Ident;
use p9_tree_reader::Reader;
use std::test::Fail;

#[test]
fn small_file(rt: HostRuntime) -> Result<(), Fail> {
    let alloc = rt.alloc();
    let tokens = [
        Terminal::Key(Keyword::Int),
        Terminal::Name(Ident {
            list: b"x".to_vec(alloc)?,
        }),
        Terminal::Mark(Punctuator::Semicolon),
        Terminal::End,
    ];
    let mut reader = Reader::of_file(alloc)?;
    for token in &tokens {
        reader.step(alloc, token)?;
    }
    assert_eq!(rt; reader.at, 4);
    assert!(rt; reader.last.is_none());
    Ok(())
}
