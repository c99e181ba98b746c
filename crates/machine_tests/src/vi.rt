// Programs whose ends are known by hand.
ghost use Rattle.std.specs.Prelude.{◌<◌, length};

use p9_aout::Image;
use p9_base::{ByteOrder, Bytes, Calls, MemSink, MemSource, NoMemory};
use p9_r3k::HaltCause;
use p9_vi::{Machine, Stop, simulate};
use std::alloc::Global;
use std::test::Fail;

// How a program ended, what it wrote, and its exit's text.
#[derive(Drop)]
struct Outcome {
    stop: Stop,
    output: Vec<u8>,
    text: Vec<u8>,
}

// A program's instructions, after so many no-ops.
fn text_of(alloc: Global, noops: usize, words: &[u32]) -> Result<Bytes, NoMemory> {
    let mut list = Vec::new(alloc);
    for _noop in 0..noops {
        list.extend_from_slice(&[0; 4])?;
    }
    for word in words {
        list.extend_from_slice(&word.to_be_bytes())?;
    }
    Ok(Bytes { list })
}

// A machine that is to run at most 10,000 instructions, in at most two runs where a call fails.
fn end_of(
    alloc: Global,
    text: Bytes,
    data: &[u8],
    input: &[u8],
    fails: &[u64],
) -> Result<Option<Outcome>, NoMemory> {
    let image = Image {
        entry: 0x1020,
        text,
        init: Bytes {
            list: data.to_vec(alloc)?,
        },
        bss: 0,
        syms: Vec::new(alloc),
    };
    let size = image.text.list.len();
    if size == 0 || size % 4 != 0 || size > 10_000 || data.len() > 1_000 {
        return Ok(None);
    }
    let mut machine = Machine::new(alloc, &image)?;
    let bytes = Bytes {
        list: input.to_vec(alloc)?,
    };
    let input_fails = Calls {
        list: fails.to_vec(alloc)?,
    };
    let out_fails = Calls {
        list: fails.to_vec(alloc)?,
    };
    let mut source = MemSource::new(bytes, input_fails);
    let mut sink = MemSink::new(alloc, 100, out_fails)?;
    let first = simulate(&mut machine, &mut source, &mut sink, 10_000);
    let stop = match first {
        Stop::ReadFault | Stop::WriteFault => {
            simulate(&mut machine, &mut source, &mut sink, 10_000)
        }
        stop => stop,
    };
    let text = match stop {
        Stop::Exit => machine.exit_text().to_vec(alloc)?,
        _ => Vec::new(alloc),
    };
    Ok(Some(Outcome {
        stop: if fails.is_empty() { stop } else { first },
        output: sink.bytes().to_vec(alloc)?,
        text,
    }))
}

// A program of at most four instructions, and how it ends.
#[derive(Clone, Copy)]
struct ShortProgram {
    size: usize,
    words: [u32; 4],
    stop: Stop,
}

fn program(size: usize, words: [u32; 4], stop: Stop) -> ShortProgram {
    ShortProgram { size, words, stop }
}

fn halts(cause: HaltCause, pc: u32) -> Stop {
    Stop::Halt(cause, pc)
}

#[test]
fn programs_stop(rt: HostRuntime) -> Result<(), Fail> {
    let alloc = rt.alloc();
    let programs = [
        program(3, [0x27bd_fff0, 0x2401_0008, 0x0000_000c, 0], Stop::Exit),
        program(
            3,
            [0x27bd_fff0, 0x2401_0009, 0x0000_000c, 0],
            halts(HaltCause::BadCall(9), 0x1028),
        ),
        program(
            2,
            [0x8fa1_fffc, 0x0020_0821, 0, 0],
            halts(HaltCause::LoadHazard, 0x1024),
        ),
        program(
            3,
            [0x0000_0812, 0, 0x0000_0018, 0],
            halts(HaltCause::HiLoHazard, 0x1028),
        ),
        program(
            2,
            [0x0800_0408, 0x0800_0408, 0, 0],
            halts(HaltCause::SlotBranch, 0x1024),
        ),
        program(
            1,
            [0x8c01_0000, 0, 0, 0],
            halts(HaltCause::BadAddress(0), 0x1020),
        ),
        program(1, [0x0000_001a, 0, 0, 0], halts(HaltCause::Divide, 0x1020)),
        program(1, [0, 0, 0, 0], halts(HaltCause::Fetch, 0x1024)),
        program(1, [0xffff_ffff, 0, 0, 0], halts(HaltCause::BadWord, 0x1020)),
        program(
            1,
            [0x8c01_0002, 0, 0, 0],
            halts(HaltCause::Misaligned(2), 0x1020),
        ),
        program(
            1,
            [0xa401_0001, 0, 0, 0],
            halts(HaltCause::Misaligned(1), 0x1020),
        ),
        program(
            3,
            [0x3c01_7fff, 0x3421_ffff, 0x2021_0001, 0],
            halts(HaltCause::Overflow, 0x1028),
        ),
        program(1, [0x0000_000d, 0, 0, 0], halts(HaltCause::Break, 0x1020)),
        // A store into the text.
        program(
            1,
            [0xac00_1020, 0, 0, 0],
            halts(HaltCause::BadAddress(0x1020), 0x1020),
        ),
        // A load's register is written in the slot of a jump back, and not read.
        program(3, [0x8fa1_fffc, 0x0800_0408, 0x2401_0001, 0], Stop::Budget),
        // BLTZAL that isn't taken links: JR R31 goes to itself after its slot.
        program(4, [0x0410_0002, 0, 0x03e0_0008, 0], Stop::Budget),
    ];
    for i in 0..programs.len() {
        let program = programs[i];
        let words = program.words;
        if program.size <= 4 {
            let text = text_of(alloc, 0, &words[..program.size])?;
            let end = end_of(alloc, text, b"", b"", &[])?.ok_or("bad image")?;
            assert_eq!(rt; end.stop, program.stop, "at {i}");
        }
    }
    Ok(())
}

// A program that makes one system call and exits with an empty text.
fn one_call(number: u32, descriptor: u32, at: u32, count: u32) -> [u32; 12] {
    [
        0x27bd_fff0, // ADDIU R29, R29, -16
        0x2402_0000 | descriptor, // ADDIU R2, R0, descriptor
        0xafa2_0004, // SW R2, 4(R29)
        0x3403_0000 | at, // ORI R3, R0, at
        0xafa3_0008, // SW R3, 8(R29)
        0x2404_0000 | count, // ADDIU R4, R0, count
        0xafa4_000c, // SW R4, 12(R29)
        0x2401_0000 | number, // ADDIU R1, R0, number
        0x0000_000c, // SYSCALL
        0xafa0_0004, // SW R0, 4(R29)
        0x2401_0008, // ADDIU R1, R0, 8
        0x0000_000c, // SYSCALL
    ]
}

// A system call of `one_call`, how its program ends, and the bytes of the output as a number.
#[derive(Clone, Copy)]
struct CallCase {
    words: [u32; 12],
    stop: Stop,
    output: u32,
}

fn call(number: u32, descriptor: u32, at: u32, count: u32, stop: Stop, output: u32) -> CallCase {
    CallCase {
        words: one_call(number, descriptor, at, count),
        stop,
        output,
    }
}

fn number_of(bytes: &[u8]) -> u32 {
    let mut number = 0u32;
    for b in bytes {
        number = number.wrapping_mul(256).wrapping_add(u32::from(*b));
    }
    number
}

#[test]
fn system_calls_meet_their_edges(rt: HostRuntime) -> Result<(), Fail> {
    let alloc = rt.alloc();
    let pc = 0x1040;
    let calls = [
        // A write of the text's first bytes, of none, of a negative count, to a wrong descriptor.
        call(20, 1, 0x1020, 3, Stop::Exit, 0x27_bdff),
        call(20, 1, 0, 0, Stop::Exit, 0),
        call(20, 1, 0x1020, 0xffff, Stop::Exit, 0),
        call(20, 2, 0x1020, 3, Stop::Exit, 0),
        // A write up to the data's end, one byte further, and past the text's end.
        call(20, 1, 0x2003, 2, Stop::Exit, 0x6465),
        call(
            20,
            1,
            0x2003,
            3,
            halts(HaltCause::BadAddress(0x2005), pc),
            0,
        ),
        call(
            20,
            1,
            0x104e,
            3,
            halts(HaltCause::BadAddress(0x1050), pc),
            0,
        ),
        // A read of none, of a negative count, from a wrong descriptor.
        call(15, 0, 0, 0, Stop::Exit, 0),
        call(15, 0, 0x2000, 0xffff, Stop::Exit, 0),
        call(15, 1, 0x2000, 1, Stop::Exit, 0),
        // A room up to the data's end, one byte further, and in the text.
        call(15, 0, 0x2003, 2, Stop::Exit, 0),
        call(
            15,
            0,
            0x2003,
            3,
            halts(HaltCause::BadAddress(0x2005), pc),
            0,
        ),
        call(
            15,
            0,
            0x1020,
            1,
            halts(HaltCause::BadAddress(0x1020), pc),
            0,
        ),
    ];
    for i in 0..calls.len() {
        let call = calls[i];
        let text = text_of(alloc, 0, &call.words)?;
        let end = end_of(alloc, text, b"abcde", b"xyz", &[])?.ok_or("bad image")?;
        assert_eq!(rt; end.stop, call.stop, "at {i}");
        assert_eq!(rt; number_of(&end.output), call.output, "at {i}");
        assert_eq!(rt; end.text.len(), 0, "at {i}");
    }
    Ok(())
}

#[test]
fn texts_cross_and_faults_go_on(rt: HostRuntime) -> Result<(), Fail> {
    let alloc = rt.alloc();
    // The text fills its page, so the data follows it at once: exits, at 0x1ffc.
    let words = [
        0x27bd_fff0,
        0x3403_1ffc,
        0xafa3_0004,
        0x2401_0008,
        0x0000_000c,
        0x4142_4344,
    ];
    let text = text_of(alloc, 1010, &words)?;
    let end = end_of(alloc, text, b"E\0F", b"", &[])?.ok_or("bad image")?;
    assert_eq!(rt; end.stop, Stop::Exit);
    assert_eq!(rt; end.text.as_slice(), b"ABCDE".as_slice());

    // The first take fails, then the first put, and the program goes on.
    let text = text_of(alloc, 0, &one_call(15, 0, 0x2000, 2))?;
    let end = end_of(alloc, text, b"abcde", b"xyz", &[0])?.ok_or("bad image")?;
    assert_eq!(rt; end.stop, Stop::ReadFault);
    let text = text_of(alloc, 0, &one_call(20, 1, 0x2000, 2))?;
    let end = end_of(alloc, text, b"abcde", b"xyz", &[0])?.ok_or("bad image")?;
    assert_eq!(rt; end.stop, Stop::WriteFault);
    assert_eq!(rt; end.output.as_slice(), b"ab".as_slice());
    Ok(())
}

#[test]
fn little_endian_programs_run(rt: HostRuntime) -> Result<(), Fail> {
    let alloc = rt.alloc();
    // ADDIU R29, R29, -16; ADDIU R1, R0, 8; SYSCALL: exits, with the address 0.
    let text = [0xf0, 0xff, 0xbd, 0x27, 8, 0, 1, 0x24, 12, 0, 0, 0];
    let image = Image {
        entry: 0x1020,
        text: Bytes {
            list: text.to_vec(alloc)?,
        },
        init: Bytes {
            list: Vec::new(alloc),
        },
        bss: 0,
        syms: Vec::new(alloc),
    };
    if image.text.list.len() == 12 {
        let mut machine = Machine::new(alloc, &image)?.in_order(ByteOrder::Little);
        let none = Bytes {
            list: Vec::new(alloc),
        };
        let never = Calls {
            list: Vec::new(alloc),
        };
        let mut source = MemSource::new(none, never);
        let never = Calls {
            list: Vec::new(alloc),
        };
        let mut sink = MemSink::new(alloc, 0, never)?;
        let stop = simulate(&mut machine, &mut source, &mut sink, 100);
        assert_eq!(rt; stop, Stop::Exit);
    }
    Ok(())
}
