// Initialisers of arrays of four words.

ghost use Rattle.std.specs.Prelude.{◌≡◌, ◌≤◌, [], length, All, IfOk};
ghost use Rattle.p9_lang.specs.Types.{Array, Int, type_of};
ghost use Rattle.p9_init.specs.Images.{EntryInside};

use p9_abs::{DataPiece, Pieces};
use p9_base::{Bytes, NoMemory};
use p9_init::{InitFault, image};
use p9_lang::{CType, Tags};
use p9_tree::{State, TEntry, TInit, TModule, TSym, TTree, Width};
use sqlite_items::{Boxed, Items};
use std::alloc::Global;
use std::process::Abort;
use std::test::Fail;

// `int t[4]`.
fn module(alloc: Global) -> Result<TModule, NoMemory>
    ensures tags { IfOk result (λ m. m.tags.list ≡ []) }
    ensures count { IfOk result (λ m. length m.symbols ≡ 1) }
    ensures types { IfOk result (λ m. All (λ s. type_of s.ty ≡ Array Int 4) m.symbols) }
{
    let mut symbols = Items::new(alloc);
    symbols.push(TSym {
        name: Bytes {
            list: b"t".to_vec(alloc)?,
        },
        local: false,
        ty: CType::Array(Boxed::new(alloc, CType::Int)?, 4),
        state: State::Defined,
    })?;
    Ok(TModule {
        symbols,
        tags: Tags {
            list: Items::new(alloc),
        },
        functions: Items::new(alloc),
        inits: Items::new(alloc),
    })
}

// A word of the array.
fn word(offset: u32, node: u32, value: TTree) -> TEntry
    requires { offset ≤ 12 }
    ensures { EntryInside result 16 }
{
    TEntry {
        offset,
        ty: CType::Int,
        node,
        inside: true,
        value,
    }
}

fn imaged(alloc: Global, entries: Items<TEntry>) -> Result<Pieces, InitFault>
    requires { All (λ entry. EntryInside entry 16) entries }
{
    let whole = module(alloc)?;
    let init = TInit { symbol: 0, entries };
    image(alloc, &init, &whole)
}

// `int t[] = { [2] = 5, 6 }`.
#[test]
fn words_from_the_third_on(rt: HostRuntime) -> Result<(), Fail> {
    let alloc = rt.alloc();
    let mut entries = Items::new(alloc);
    entries.push(word(8, 3, TTree::Const(5)))?;
    entries.push(word(12, 4, TTree::Const(6)))?;
    let pieces = imaged(alloc, entries).ok().ok_or("refused")?;
    match pieces.list.as_slice() {
        [DataPiece::Raw(bytes)] => {
            let expected = [0, 0, 0, 0, 0, 0, 0, 0, 0, 0, 0, 5, 0, 0, 0, 6];
            assert_eq!(rt; bytes.list.as_slice(), expected.as_slice());
        }
        _ => panic!(rt; "not one piece of bytes"),
    }
    Ok(())
}

// `int x; int t[4] = { x };`.
#[test]
fn value_of_an_object(rt: HostRuntime) -> Result<(), Fail> {
    let alloc = rt.alloc();
    let value = TTree::Load(Width::W32, Boxed::new(alloc, TTree::Addr(0, 0))?);
    let mut entries = Items::new(alloc);
    entries.push(word(0, 7, value))?;
    let fault = imaged(alloc, entries).err();
    assert_eq!(rt; fault, Some(InitFault::NotConstant(7)));
    Ok(())
}
