//! Worked lines, and a comparison with a second reader that only tries each prefix of a line.
ghost use Rattle.std.specs.Prelude.{◌≤◌};

use arrayvec::ArrayVec;
use bb_machine::{
    Dir, Entry, LINE, LimitFault, Limits, MAX_STATES, MAX_SYMBOLS, Machine, Next, Step,
};
use std::process::Abort;
use std::test::Fail;

const CHAMPION: &[u8] = b"1RB1LC_1RC1RB_1RD0LE_1LA1LD_1RZ0LA";

const MACHINES: [&[u8]; 18] = [
    b"1RB1LB_1LA1RZ",
    b"1RB1LB_1LA---",
    b"------",
    b"1RZ---",
    b"1RB1RZ_1LB0RC_1LC1LA",
    b"1RB1RZ_0RC1RB_1LC1LA",
    CHAMPION,
    b"1RB1LB_1LA0LC_1RZ1LD_1RD0RA",
    b"0RB---_0LA---",
    b"1RA1RA",
    b"1RB0RA_1LA---",
    b"1LB0LA_1RA---",
    b"0RA0RA_0RA0RA_0RA0RA_0RA0RA_0RA0RA_0RA0RA_0RA0RA",
    b"0RA0RA_0RA0RA_0RA0RA_0RA0RA_0RA0RA_0RA0RA_0RA0RA_0RA0RA",
    b"1RB2LB1RZ_2LA2RB1LB",
    b"0RA0RA0RA",
    b"2LZ------",
    b"2RA---1LA",
];

/// A line of so many groups, each of so many entries `0RA`.
fn groups_alike(groups: usize, entries: usize) -> Result<ArrayVec<u8, 1024>, Fail> {
    let mut line = ArrayVec::new();
    for group in 0..groups {
        if group > 0 {
            line.try_push(b'_')?;
        }
        for _ in 0..entries {
            line.try_extend_from_slice(b"0RA")?;
        }
    }
    Ok(line)
}

const REFUSED: [(&[u8], u32); 26] = [
    (b"", 1),
    (b"_", 1),
    (b"A", 1),
    (b"0RA", 4),
    (b"0RA_", 4),
    (b"0RA--", 6),
    (b"0RA-RA", 5),
    (b"0RA0RA_", 8),
    (b"2RA---", 7),
    (b"2RA---_", 7),
    (b"1RH1LA", 7),
    (b"0RY0RA", 7),
    (b"0RA0RA0RA0RA0RA0RA0RA0RA0RA0RA0RA", 31),
    (b"1RB1LB_2LA0RA", 8),
    (b"0RA0RA_0RA0RA0RA", 14),
    (b"1RB1LB_1LA1RC", 14),
    (b"1RB1LB_1LA1R", 13),
    (b"1rB1LB", 2),
    (b"1RB1LB_1LA1RZ\r", 14),
    (
        b"0RA0RA_0RA0RA_0RA0RA_0RA0RA_0RA0RA_0RA0RA_0RA0RA_0RA0RAx",
        56,
    ),
    (b"\xff", 1),
    (b"1RB\xc3\xa9", 4),
    (b"0RA0RA\0", 7),
    (b"1RZ--- ", 7),
    (b"------ halt 0 0", 7),
    (b"1RB1LB__1LA1RZ", 8),
];

/// Whether some text of a machine with so many symbols and at most so many states begins with the
/// bytes: each group of such a text has the same width.
fn begins_text(bytes: &[u8], states: usize, symbols: usize) -> bool
    requires states { states ≤ MAX_STATES }
    requires symbols { symbols ≤ MAX_SYMBOLS }
{
    let width = 3 * symbols + 1;
    if bytes.len() >= states * width {
        return false;
    }
    for group in bytes.chunks(width) {
        for (at, part) in group.chunks(3).enumerate() {
            let fits = if at == symbols {
                part == b"_".as_slice()
            } else {
                begins_entry(part, states, symbols)
            };
            if !fits {
                return false;
            }
        }
    }
    true
}

/// Whether a byte is the digit of one of so many symbols, at most ten.
fn is_symbol(byte: u8, symbols: usize) -> bool {
    b'0' <= byte && ((byte - b'0') as usize) < symbols
}

fn is_side(byte: u8) -> bool {
    byte == b'L' || byte == b'R'
}

/// Whether a byte is the letter of one of so many states, at most 25, or of the halting one.
fn is_next(byte: u8, states: usize) -> bool {
    byte == b'Z' || b'A' <= byte && ((byte - b'A') as usize) < states
}

/// Whether the text of an entry within so many states and symbols starts with the bytes.
fn begins_entry(bytes: &[u8], states: usize, symbols: usize) -> bool {
    match bytes {
        [] => true,
        [b'-', rest @ ..] => rest.iter().all(|byte| *byte == b'-'),
        [first] => is_symbol(*first, symbols),
        [first, second] => is_symbol(*first, symbols) && is_side(*second),
        [first, second, third] => {
            is_symbol(*first, symbols) && is_side(*second) && is_next(*third, states)
        }
        _ => false,
    }
}

/// The column of a wrong line, 0 for a machine's text.
fn expected(line: &[u8]) -> usize {
    for symbols in 2..MAX_SYMBOLS + 1 {
        for states in 1..MAX_STATES + 1 {
            if line.len() + 1 == states * (3 * symbols + 1) && begins_text(line, states, symbols) {
                return 0;
            }
        }
    }
    let mut column = 0;
    for symbols in 2..MAX_SYMBOLS + 1 {
        column = column.max(prefixes(line, symbols));
    }
    column
}

/// How many prefixes of the line, the empty one counted, begin some text of a machine with so many symbols.
fn prefixes(line: &[u8], symbols: usize) -> usize
    requires { symbols ≤ MAX_SYMBOLS }
{
    for prefix in 0..line.len() + 1 {
        if !begins_text(&line[..prefix], MAX_STATES, symbols) {
            return prefix;
        }
    }
    line.len() + 1
}

fn answer(line: &[u8]) -> usize {
    match Machine::read(line) {
        Ok(_machine) => 0,
        Err(refused) => refused.column as usize,
    }
}

#[test]
fn machines_are_read_and_written(rt: HostRuntime) -> Result<(), Fail> {
    for line in MACHINES {
        assert!(rt; Machine::can_read(line));
        let machine = Machine::read(line)?;
        let mut text = ArrayVec::<u8, LINE>::new();
        machine.text_into(&mut text);
        assert_eq!(rt; text.as_slice(), line);
        let width = 3 * machine.symbols() as usize + 1;
        assert_eq!(rt; machine.states() as usize * width, line.len() + 1);
    }
    Ok(())
}

#[test]
fn the_longest_machine_is_read_and_written(rt: HostRuntime) -> Result<(), Fail> {
    let line = groups_alike(25, 10)?;
    let machine = Machine::read(line.as_slice())?;
    assert!(rt; machine.states() == 25 && machine.symbols() == 10);
    let mut text = ArrayVec::<u8, LINE>::new();
    machine.text_into(&mut text);
    assert_eq!(rt; text.len(), 774);
    assert_eq!(rt; text.as_slice(), line.as_slice());
    Ok(())
}

#[test]
fn other_lines_are_refused_with_their_column(rt: HostRuntime) {
    for (line, column) in REFUSED {
        assert_eq!(rt; answer(line), column as usize, "{line:?}");
    }
}

/// More states or symbols than a machine has, and lines that continue after the longest one.
#[test]
fn larger_machines_are_refused(rt: HostRuntime) -> Result<(), Fail> {
    for (groups, entries, column) in [(26, 10, 775), (26, 2, 175), (1, 11, 31), (25, 11, 31)] {
        let line = groups_alike(groups, entries)?;
        assert_eq!(rt; answer(line.as_slice()), column);
    }
    let mut line = groups_alike(25, 10)?;
    line.try_push(b'x')?;
    assert_eq!(rt; answer(line.as_slice()), 775);
    Ok(())
}

fn go(write: u8, dir: Dir, next: Next) -> Entry {
    Entry::Go { write, dir, next }
}

#[test]
fn entries_are_the_table(rt: HostRuntime) -> Result<(), Fail> {
    let machine = Machine::read(CHAMPION)?;
    assert!(rt; machine.states() == 5 && machine.symbols() == 2);
    assert_eq!(rt; machine.entry(0, 1), go(1, Dir::L, Next::State(2)));
    assert_eq!(rt; machine.entry(4, 0), go(1, Dir::R, Next::Halt));
    let machine = Machine::read(b"1RB2LB1RZ_2LA2RB1LB")?;
    assert!(rt; machine.states() == 2 && machine.symbols() == 3);
    assert_eq!(rt; machine.entry(0, 2), go(1, Dir::R, Next::Halt));
    assert_eq!(rt; machine.entry(1, 1), go(2, Dir::R, Next::State(1)));
    Ok(())
}

#[test]
fn steps_are_the_table(rt: HostRuntime) -> Result<(), Fail> {
    let machine = Machine::read(CHAMPION)?;
    assert!(rt; machine.states() == 5 && machine.symbols() == 2);
    let step = Step {
        write: 1,
        offset: -1,
        state: 2,
    };
    assert_eq!(rt; machine.step(0, 1), Some(step));
    assert_eq!(rt; machine.step(4, 0), None);
    Ok(())
}

/// Each byte of each line, changed to each other byte.
fn are_read_with_each_byte(rt: &impl Abort, machines: &[&[u8]]) {
    for machine in machines {
        let mut line = [0; 64];
        let length = machine.len();
        assert!(rt; length <= line.len());
        line[..length].copy_from_slice(machine);
        for index in 0..length {
            for byte in 0..=255 {
                line[index] = byte;
                let changed = &line[..length];
                assert_eq!(rt; answer(changed), expected(changed), "{changed:?}");
            }
            line[index] = machine[index];
        }
    }
}

#[test]
fn each_changed_byte_is_refused_where_no_prefix_goes_on(rt: HostRuntime) {
    are_read_with_each_byte(&rt, &MACHINES[..12]);
}

#[test]
fn each_changed_byte_of_larger_machines_is_too(rt: HostRuntime) {
    are_read_with_each_byte(&rt, &MACHINES[12..]);
}

/// Limits of steps, cells, levels and nodes, their fault, and its text.
const FAULTS: [([u64; 4], LimitFault, &str); 6] = [
    (
        [1_000_000_000_001, 0, 10_001, 1_000_000_000_001],
        LimitFault::Steps,
        "bb: steps out of range",
    ),
    (
        [0, 0, 10_001, 1_000_000_000_001],
        LimitFault::Cells,
        "bb: cells out of range",
    ),
    (
        [0, 67_108_865, 0, 0],
        LimitFault::Cells,
        "bb: cells out of range",
    ),
    (
        [0, 1, 10_001, 1_000_000_000_001],
        LimitFault::Depth,
        "bb: depth out of range",
    ),
    (
        [0, 1, 10_000, 1_000_000_000_001],
        LimitFault::Nodes,
        "bb: nodes out of range",
    ),
    (
        [0, 4, 3, 0],
        LimitFault::DepthCells,
        "bb: depth does not fit in cells",
    ),
];

#[test]
fn limits_are_told(rt: HostRuntime) -> Result<(), Fail> {
    let limits = Limits::new(1_000_000, 65_536, 300, 1_000_001)?;
    assert_eq!(rt; limits.steps(), 1_000_000);
    assert_eq!(rt; limits.cells(), 65_536);
    assert_eq!(rt; limits.depth(), 300);
    assert_eq!(rt; limits.nodes(), 1_000_001);
    Ok(())
}

#[test]
fn faults_are_told_and_printed(rt: HostRuntime) -> Result<(), Fail> {
    for ([steps, cells, depth, nodes], fault, text) in FAULTS {
        let refused = Limits::new(steps, cells, depth, nodes)
            .err()
            .ok_or("accepted")?;
        assert_eq!(rt; refused, fault);
        assert_eq!(rt; format!(in rt.alloc(); "{refused}")?.as_str(), text);
    }
    Ok(())
}
