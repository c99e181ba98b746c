// How many declarations and statements small files have.
use p9_base::Bytes;
use p9_form::read_file;
use std::alloc::{AllocError, Global};
use std::test::Fail;

// The numbers of declarations, of statements, and of declarations behind `main`.
fn outline(alloc: Global, source: &[u8]) -> Result<String, AllocError> {
    let bytes = Bytes {
        list: source.to_vec(alloc)?,
    };
    match read_file(alloc, &bytes) {
        Ok(Some(file)) => {
            let before = file.before.list.len();
            let after = file.after.list.len();
            match &file.main {
                Some(main) => {
                    let count = main.list.len();
                    format!(in alloc; "{before} {count} {after}")
                }
                None => format!(in alloc; "{before} no main {after}"),
            }
        }
        Ok(None) => format!(in alloc; "no form"),
        Err(_) => Err(AllocError),
    }
}

#[test]
fn files_are_read(rt: HostRuntime) -> Result<(), Fail> {
    let rows = [
        (b"".as_slice(), "0 no main 0"),
        (b"void main(void){}", "0 0 0"),
        (
            b"extern long count;\nint total = 7;\nlong rest;\n\nvoid main(void) {\n\ttotal = total + 5;\n\trest = 2147483647;\n\twrite(1, \"sum:\\n\", 5);\n\twrite(1, \"\", count);\n\texits(0);\n\texits(\"late\");\n}\n\nint late;\n",
            "3 6 1",
        ),
        (b"int a = 2147483647;", "1 no main 0"),
        (b"int a; extern int b;", "2 no main 0"),
    ];
    for (source, wanted) in rows {
        let answer = outline(rt.alloc(), source)?;
        assert_eq!(rt; answer.as_str(), wanted);
    }
    Ok(())
}

#[test]
fn other_files_are_refused(rt: HostRuntime) -> Result<(), Fail> {
    let rows = [
        b"int a; long a;".as_slice(),
        b"int a = 2147483648;",
        b"extern int a = 1;",
        b"int exits;",
        b"int while;",
        b"int a, b;",
        b"int a",
        b"short a;",
        b"int a; /* a */",
        b"void main(void) { a = 1; } int a;",
        b"int a; void main(void) { a = a + 1 + 1; }",
        b"int a; void main(void) { write(2, \"x\", a); }",
        b"void main(void) { exits(1); }",
        b"void main(void) {} void main(void) {}",
        b"void main(void) {} }",
    ];
    for source in rows {
        let answer = outline(rt.alloc(), source)?;
        assert_eq!(rt; answer.as_str(), "no form", "at {source:?}");
    }
    Ok(())
}
