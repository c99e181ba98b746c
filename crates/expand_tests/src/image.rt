// A short text, by the manual's bit encodings.
ghost use Rattle.std.specs.Prelude.{◌≡◌};

use p9_image::{SymbolAddresses, text_bytes};
use p9_r3k::{Inst, Line, Part, Value};
use std::test::Fail;

fn line(inst: Inst, target: Option<u32>, value: Option<Value>) -> Line
    ensures { result.inst ≡ inst }
{
    Line {
        inst,
        target,
        value,
        is_target: false,
    }
}

fn piece(part: Part) -> Option<Value> {
    Some(Value {
        part,
        module: 0,
        symbol: 1,
        offset: 0x230,
    })
}

#[test]
fn a_text(rt: HostRuntime) -> Result<(), Fail> {
    let alloc = rt.alloc();
    let list = vec![in alloc; 0, 0x40_1004]?;
    let tables = [SymbolAddresses { list }];
    let lines = [
        line(Inst::Lui { rt: 28, imm: 0 }, None, piece(Part::High)),
        line(
            Inst::Ori {
                rs: 28,
                rt: 30,
                imm: 0,
            },
            None,
            piece(Part::Low),
        ),
        line(
            Inst::Beq {
                rs: 1,
                rt: 2,
                imm: 0,
            },
            Some(0),
            None,
        ),
        line(Inst::Jal { index: 0 }, Some(1), None),
    ];
    let bytes = text_bytes(alloc, &tables, &lines)?;
    let wanted = [
        0x3c, 0x1c, 0x00, 0x40, 0x37, 0x9e, 0x12, 0x34, 0x10, 0x22, 0xff, 0xfd, 0x0c, 0x00, 0x04,
        0x09,
    ];
    assert_eq!(rt; bytes.as_slice(), wanted.as_slice());
    Ok(())
}
