ghost use Rattle.std.specs.Prelude.{◌≡◌, IfOk};
ghost use Rattle.p9_lang.specs.Types.{member_of, tag_of, tags_of};
ghost use Rattle.typing_tests.specs.Structures.{complete_tag, incomplete_tag, example_tags};

use p9_base::NoMemory;
use p9_lang::{CBinary, CType, CUnary, Ident, Kind, Member, Tag, Tags};
use p9_operand::{Constant, Operand, Rule, RuleFault, Verdict};
use p9_verdict::verdict;
use sqlite_items::{Boxed, Items};
use std::alloc::Global;
use std::test::Fail;

fn ident(alloc: Global, name: &[u8]) -> Result<Ident, NoMemory>
    ensures { IfOk result (λ i. i ≡ name.now) }
{
    Ok(Ident {
        list: Vec::from_slice(alloc, name)?,
    })
}

// `struct S { int k; };`
fn complete_tag(alloc: Global) -> Result<Tag, NoMemory>
    ensures { IfOk result (λ t. tag_of t ≡ complete_tag) }
{
    let mut members = Items::new(alloc);
    members.push(Member {
        name: ident(alloc, b"k")?,
        ty: CType::Int,
    })?;
    Ok(Tag {
        is_union: false,
        name: ident(alloc, b"S")?,
        members: Some(members),
        marked: false,
    })
}

// `struct Q;`
fn incomplete_tag(alloc: Global) -> Result<Tag, NoMemory>
    ensures { IfOk result (λ t. tag_of t ≡ incomplete_tag) }
{
    Ok(Tag {
        is_union: false,
        name: ident(alloc, b"Q")?,
        members: None,
        marked: false,
    })
}

fn example_tags(alloc: Global) -> Result<Tags, NoMemory>
    ensures { IfOk result (λ t. tags_of t.list ≡ example_tags) }
{
    let mut list = Items::new(alloc);
    list.push(complete_tag(alloc)?)?;
    list.push(incomplete_tag(alloc)?)?;
    Ok(Tags { list })
}

fn pointer(alloc: Global, target: CType) -> Result<CType, NoMemory> {
    Ok(CType::Pointer(Boxed::new(alloc, target)?))
}

// `int f(int, char *)`
fn function(alloc: Global) -> Result<CType, NoMemory> {
    let mut parameters = Items::new(alloc);
    parameters.push(CType::Int)?;
    parameters.push(pointer(alloc, CType::Char)?)?;
    Ok(CType::Function(Boxed::new(alloc, CType::Int)?, parameters))
}

// The types of the operands, by letters.
fn type_of_letter(alloc: Global, letter: u8) -> Result<CType, NoMemory> {
    match letter {
        b'c' => Ok(CType::Char),
        b'u' => Ok(CType::UInt),
        b'l' => Ok(CType::Long),
        b'p' => pointer(alloc, CType::Char),
        b'v' => pointer(alloc, CType::Void),
        b'f' => function(alloc),
        b'a' => Ok(CType::Array(Boxed::new(alloc, CType::Int)?, 3)),
        b's' => Ok(CType::Tagged(0)),
        b't' => pointer(alloc, CType::Tagged(0)),
        b'o' => pointer(alloc, CType::Tagged(1)),
        b'q' => Ok(CType::Tagged(1)),
        _ => Ok(CType::Int),
    }
}

// An operand with a letter. `z` is the number 0; the others but functions are lvalues.
fn operand(alloc: Global, letter: u8) -> Result<Operand, NoMemory> {
    let constant = if letter == b'z' {
        Constant::Value(0)
    } else {
        Constant::NotConstant
    };
    Ok(Operand {
        ty: type_of_letter(alloc, letter)?,
        is_lvalue: letter != b'z' && letter != b'f',
        constant,
    })
}

fn pointer_letter(target: &CType) -> u8 {
    match target {
        CType::Char => b'p',
        CType::Int => b'n',
        CType::Void => b'v',
        CType::Tagged(_) => b'o',
        CType::Function(..) => b'g',
        _ => b'P',
    }
}

fn type_letter(ty: &CType) -> u8 {
    match ty {
        CType::Char => b'c',
        CType::Int => b'i',
        CType::UInt => b'u',
        CType::Long => b'l',
        CType::ULong => b'L',
        CType::Pointer(target) => pointer_letter(target.get()),
        CType::Function(..) => b'f',
        CType::Tagged(_) => b's',
        _ => b'?',
    }
}

// The last digit of a rule's number, from 17 on, and `x` for a type that is incomplete.
fn rule_letter(rule: &Rule) -> u8 {
    match rule.number() {
        13 => b'x',
        17 => b'7',
        18 => b'8',
        19 => b'9',
        20 => b'0',
        21 => b'1',
        22 => b'2',
        23 => b'3',
        _ => b'?',
    }
}

fn answer_letter(answer: Result<Verdict, RuleFault>) -> Result<u8, NoMemory> {
    match answer {
        Ok(verdict) => Ok(type_letter(&verdict.ty)),
        Err(RuleFault::Rule(rule)) => Ok(rule_letter(&rule)),
        Err(RuleFault::Memory) => Err(NoMemory),
    }
}

fn judged(
    alloc: Global,
    is_statement: bool,
    kind: &Kind,
    operands: &[Operand],
) -> Result<u8, NoMemory> {
    let tags = example_tags(alloc)?;
    answer_letter(verdict(alloc, &tags, is_statement, kind, operands))
}

// What a kind of node gives for operands with these letters.
fn of_letters(alloc: Global, kind: &Kind, letters: &[u8]) -> Result<u8, NoMemory> {
    let mut operands = Vec::new(alloc);
    for letter in letters {
        operands.push(operand(alloc, *letter)?)?;
    }
    judged(alloc, true, kind, operands.as_slice())
}

const LETTERS: [u8; 10] = *b"culpvfasoz";

// What a kind of node gives for each right operand behind a left one.
fn row(alloc: Global, kind: &Kind, left: u8, answers: &mut Vec<u8>) -> Result<(), NoMemory> {
    for right in LETTERS {
        let answer = match kind {
            Kind::Choose => of_letters(alloc, kind, &[b'c', left, right])?,
            _ => of_letters(alloc, kind, &[left, right])?,
        };
        answers.push(answer)?;
    }
    Ok(())
}

fn table(alloc: Global, kind: &Kind) -> Result<Vec<u8>, NoMemory> {
    let mut answers = Vec::new(alloc);
    for left in LETTERS {
        row(alloc, kind, left, &mut answers)?;
        answers.push(b' ')?;
    }
    Ok(answers)
}

// Each row has a left operand, and each letter in it a right one: `char`, `unsigned`, `long`,
// `char *`, `void *`, a function, `int [3]`, a structure, a pointer to one without a body, and 0.
#[test]
fn binary_operators(rt: HostRuntime) -> Result<(), Fail> {
    for (op, want) in [
        (
            CBinary::Add,
            "iulp88n88i uuLp88n88u lLlp88n88l ppp888888p 8888888888 8888888888 nnn888888n 8888888888 8888888888 iulp88n88i ",
        ),
        (
            CBinary::Sub,
            "iul888888i uuL888888u lLl888888l pppl88888p 8888888888 8888888888 nnn888l88n 8888888888 8888888888 iul888888i ",
        ),
        (
            CBinary::Mul,
            "iul888888i uuL888888u lLl888888l 8888888888 8888888888 8888888888 8888888888 8888888888 8888888888 iul888888i ",
        ),
        (
            CBinary::Shl,
            "iii888888i uuu888888u lll888888l 8888888888 8888888888 8888888888 8888888888 8888888888 8888888888 iii888888i ",
        ),
        (
            CBinary::Lt,
            "iii888888i iii888888i iii888888i 888i888888 8888888888 8888888888 888888i888 8888888888 88888888i8 iii888888i ",
        ),
        (
            CBinary::Eq,
            "iii888888i iii888888i iii888888i 888ii8888i 888iiii8ii 8888ii888i 8888i8i88i 8888888888 8888i888ii iiiiiii8ii ",
        ),
        (
            CBinary::AndAnd,
            "iiiiiii3ii iiiiiii3ii iiiiiii3ii iiiiiii3ii iiiiiii3ii iiiiiii3ii iiiiiii3ii 3333333333 iiiiiii3ii iiiiiii3ii ",
        ),
    ] {
        let answers = table(rt.alloc(), &Kind::Binary(op))?;
        assert_eq!(rt; answers.as_slice(), want.as_bytes(), "{op:?}");
    }
    Ok(())
}

#[test]
fn choices_and_assignments(rt: HostRuntime) -> Result<(), Fail> {
    let choices = table(rt.alloc(), &Kind::Choose)?;
    assert_eq!(rt;
        choices.as_slice(),
        b"iul888888i uuL888888u lLl888888l 888pv8888p 888vvvv8vv 8888vg888g 8888v8n88n 8888888888 8888v888oo iulpvgn8oi ".as_slice()
    );
    let assignments = table(rt.alloc(), &Kind::Assign(None))?;
    assert_eq!(rt;
        assignments.as_slice(),
        b"ccc999999c uuu999999u lll999999l 999pp9999p 999vv9v9vv 7777777777 7777777777 9999999s99 9999o999oo 7777777777 ".as_slice()
    );
    Ok(())
}

fn column(alloc: Global, kind: &Kind) -> Result<Vec<u8>, NoMemory> {
    let mut answers = Vec::new(alloc);
    for letter in LETTERS {
        answers.push(of_letters(alloc, kind, &[letter])?)?;
    }
    Ok(answers)
}

#[test]
fn unary_operators(rt: HostRuntime) -> Result<(), Fail> {
    for (op, want) in [
        (CUnary::Address, "pPPPPgPoP7"),
        (CUnary::Deref, "888c8fi8x8"),
        (CUnary::Minus, "iul888888i"),
        (CUnary::Not, "iiiiiii3ii"),
    ] {
        let answers = column(rt.alloc(), &Kind::Unary(op))?;
        assert_eq!(rt; answers.as_slice(), want.as_bytes(), "{op:?}");
    }
    let sizes = column(rt.alloc(), &Kind::SizeofValue)?;
    assert_eq!(rt; sizes.as_slice(), b"uuuuu8uuuu".as_slice());
    let steps = column(rt.alloc(), &Kind::Pre { minus: true })?;
    assert_eq!(rt; steps.as_slice(), b"culp877887".as_slice());
    Ok(())
}

// `(int, char *)` is asked: 21 tells the count, 19 an argument that doesn't convert.
#[test]
fn calls(rt: HostRuntime) -> Result<(), Fail> {
    for (operands, want) in [
        ("fcz", b'i'),
        ("fca", b'9'),
        ("fcp", b'i'),
        ("fcv", b'i'),
        ("fc", b'1'),
        ("f", b'1'),
        ("fczc", b'1'),
        ("fpz", b'9'),
        ("fp", b'9'),
        ("pcz", b'0'),
        ("", b'?'),
    ] {
        let answer = of_letters(rt.alloc(), &Kind::Call, operands.as_bytes())?;
        assert_eq!(rt; answer, want, "{operands}");
    }
    Ok(())
}

fn member(alloc: Global, arrow: bool, name: &[u8], letter: u8) -> Result<u8, NoMemory> {
    let name = ident(alloc, name)?;
    of_letters(alloc, &Kind::Dot { arrow, name }, &[letter])
}

#[test]
fn members(rt: HostRuntime) -> Result<(), Fail> {
    assert_eq!(rt; member(rt.alloc(), false, b"k", b's')?, b'i');
    assert_eq!(rt; member(rt.alloc(), true, b"k", b't')?, b'i');
    assert_eq!(rt; member(rt.alloc(), false, b"x", b's')?, b'2');
    assert_eq!(rt; member(rt.alloc(), true, b"k", b'o')?, b'x');
    assert_eq!(rt; member(rt.alloc(), true, b"k", b'p')?, b'8');
    Ok(())
}

// A structure is copied only by a statement of its own.
#[test]
fn copied_structures(rt: HostRuntime) -> Result<(), Fail> {
    let alloc = rt.alloc();
    let mut operands = Vec::new(alloc);
    operands.push(operand(alloc, b's')?)?;
    operands.push(operand(alloc, b's')?)?;
    let inside = judged(alloc, false, &Kind::Assign(None), operands.as_slice())?;
    assert_eq!(rt; inside, b'8');
    Ok(())
}
