// Schedules of short programs.

ghost use Rattle.std.specs.Prelude.{IsTrue, length};
ghost use Rattle.p9_slot.specs.Aimed.{IsAimed, AreAimed};

use p9_r3k::{Inst, Line, Lines};
use p9_slot::{Scheduled, schedule};
use std::alloc::Global;
use std::test::Fail;

fn plain(inst: Inst) -> Line {
    Line {
        inst,
        target: None,
        value: None,
        is_target: false,
    }
}

fn aimed(inst: Inst, target: u32) -> Line {
    Line {
        inst,
        target: Some(target),
        value: None,
        is_target: false,
    }
}

fn is_aimed(line: &Line, count: usize) -> bool
    ensures { IsTrue result → IsAimed count line.now.inst line.now.target }
{
    match line.target {
        None => !line.inst.names_place(),
        Some(target) => (target as usize) < count,
    }
}

// Whether each branch and jump by a place has a target, and targets are lines.
fn are_aimed(lines: &[Line]) -> bool
    ensures { IsTrue result → AreAimed (length lines.now) lines.now }
{
    let mut rest = lines;
    while let [line, later @ ..] = rest {
        if !is_aimed(line, lines.len()) {
            return false;
        }
        rest = later;
    }
    true
}

fn scheduled(alloc: Global, lines: &[Line]) -> Result<Scheduled, Fail> {
    let list = lines.to_vec(alloc)?;
    if are_aimed(&list) {
        let lines = Lines { list };
        Ok(schedule(alloc, &lines).ok().ok_or("no memory")?)
    } else {
        Err("a branch without a target".into())
    }
}

#[test]
fn delays_are_filled(rt: HostRuntime) -> Result<(), Fail> {
    let noop = plain(Inst::Sll {
        rt: 0,
        rd: 0,
        sh: 0,
    });
    let count = plain(Inst::Addiu {
        rs: 1,
        rt: 1,
        imm: 0xffff,
    });
    let sum = plain(Inst::Addu {
        rs: 4,
        rt: 5,
        rd: 3,
    });
    let load = plain(Inst::Lw {
        rs: 29,
        rt: 1,
        imm: 0,
    });
    let store = plain(Inst::Sw {
        rs: 29,
        rt: 1,
        imm: 4,
    });
    let double = plain(Inst::Addu {
        rs: 1,
        rt: 1,
        rd: 2,
    });
    let branch = Inst::Bne {
        rs: 1,
        rt: 0,
        imm: 0,
    };
    let jump = Inst::J { index: 0 };
    let branch_reads = [count, aimed(branch, 0), aimed(jump, 2)];
    let answer = scheduled(rt.alloc(), &branch_reads)?;
    let wanted = [count, aimed(branch, 0), noop, aimed(jump, 3), noop];
    assert_eq!(rt; answer.lines.list.as_slice(), wanted.as_slice());
    assert_eq!(rt; answer.moved.as_slice(), [0, 1, 3].as_slice());
    let slot_filled = [sum, load, store, aimed(jump, 0)];
    let answer = scheduled(rt.alloc(), &slot_filled)?;
    let wanted = [sum, load, aimed(jump, 0), store];
    assert_eq!(rt; answer.lines.list.as_slice(), wanted.as_slice());
    assert_eq!(rt; answer.moved.as_slice(), [0, 1, 3, 2].as_slice());
    let load_filled = [sum, load, double, count, aimed(jump, 0)];
    let answer = scheduled(rt.alloc(), &load_filled)?;
    let wanted = [load, sum, double, aimed(jump, 0), count];
    assert_eq!(rt; answer.lines.list.as_slice(), wanted.as_slice());
    assert_eq!(rt; answer.moved.as_slice(), [1, 0, 2, 4, 3].as_slice());
    // The line that reads what is loaded moves behind the jump: the load needs no no-op.
    let moves_away = [load, double, aimed(jump, 0)];
    let answer = scheduled(rt.alloc(), &moves_away)?;
    let wanted = [load, aimed(jump, 0), double];
    assert_eq!(rt; answer.lines.list.as_slice(), wanted.as_slice());
    assert_eq!(rt; answer.moved.as_slice(), [0, 2, 1].as_slice());
    Ok(())
}
