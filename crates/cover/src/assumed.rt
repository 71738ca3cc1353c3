//! The file of machines that are assumed never to halt.
ghost use Rattle.std.specs.Prelude.{◌≡◌, ◌≢◌, ◌↔◌, ℕ, List, IfErr, IfNone, IfOk, IfSome, false, map, true};
ghost use Rattle.bb_lines.specs.Watched.{is_marked, watched_inner};
ghost use Rattle.cover.specs.Assumption.{IsAssumption, ReadsAssumed, ReadsWrong};

use crate::report::machine_text;
use bb_cert::LINE_BUFFER;
use bb_cover::Text;
use bb_lines::fault::Fault;
use bb_lines::sink::{LineSink, drain_lines};
use bb_lines::watched::Watched;
use bb_machine::Machine;
use std::alloc::{AllocError, Global};
use std::fmt;
use std::fmt::{Display, Formatter};
use std::io::Read;

/// The sink for the lines of the file. An empty line names no machine.
#[derive(Drop)]
struct AssumedLines {
    texts: Vec<Text>,
    /// The number of lines so far.
    lines: u64,
    /// The number of the first line that isn't `MACHINE nonhalt`.
    wrong: Option<u64>,
}

impl LineSink for AssumedLines {
    ghost use Rattle.std.specs.Prelude.{◌+◌, true};
    ghost use Rattle.std.proofs.Common.{rules};
    ghost use Rattle.bb_cert.specs.declared.verdict.line.TheConstants.{LINE_BUFFER};
    ghost use Rattle.cover.specs.Assumption.{TookLine};
    ghost use Rattle.cover.specs.KeptAssumption.{took_line_of_kept};

    ghost took = { λ old line new. TookLine old line new };

    ghost keeps = { λ _ sink. Unit {0} };

    ghost is_ready = { λ sink. Unit {0} };

    ghost GROWS = { true };

    ghost KEEP = { LINE_BUFFER + 1 };

    ghost keeps_at_first = { λ _. tt };

    ghost keeps_on = { λ a b c first second. tt };

    ghost keeps_some = { Prim.search rules };

    ghost keeps_few = { Prim.search rules };

    ghost took_by_kept = { took_line_of_kept };

    fn bytes_kept(&self) -> usize {
        LINE_BUFFER + 1
    }

    fn accept_line(&mut self, line: &[u8]) -> Result<(), AllocError> {
        self.lines = self.lines.saturating_add(1);
        if self.wrong.is_some() {
            return Ok(());
        }
        if line.is_empty() {
            return Ok(());
        }
        let Some(text) = assumed_text(line) else {
            self.wrong = Some(self.lines);
            return Ok(());
        };
        self.texts.push(text)?;
        Ok(())
    }
}

/// The text of the machine in a line `MACHINE nonhalt`.
fn assumed_text(line: &[u8]) -> Option<Text>
    ensures found { IfSome result (λ words. IsAssumption words.items line.now) }
    ensures none { IfNone result ((words : List ℕ) → IsAssumption words line.now → ⊥) }
{
    let words = line.strip_suffix(b" nonhalt".as_slice())?;
    match Machine::read(words) {
        Ok(machine) => Some(machine_text(&machine)),
        Err(_) => None,
    }
}

/// The machines of a file, or the number of its first wrong line. After a fault, don't use the reader again.
pub fn read_assumed<R: Read>(
    alloc: Global,
    reader: &mut Watched<R>,
) -> Result<Result<Vec<Text>, WrongLine>, Fault>
    requires { is_marked reader.old ≡ false }
    ensures texts { IfOk result (λ end. IfOk end (λ texts. ReadsAssumed
        (R.remaining (watched_inner reader.old)) (R.remaining (watched_inner reader.new))
        (map (λ one. one.items) texts.items))) }
    ensures wrong { IfOk result (λ end. IfErr end (λ wrong. ReadsWrong
        (R.remaining (watched_inner reader.old)) (R.remaining (watched_inner reader.new)) wrong.number)) }
    ensures read { (result ≡ Err Fault.Read) ↔ (is_marked reader.new ≡ true) }
    ensures no_write { result ≢ Err Fault.Write }
{
    let mut sink = AssumedLines {
        texts: Vec::new(alloc),
        lines: 0,
        wrong: None,
    };
    drain_lines(reader, &mut sink)?;
    match sink.wrong {
        Some(number) => Ok(Err(WrongLine { number })),
        None => Ok(Ok(sink.texts)),
    }
}

/// The first line of the file that isn't `MACHINE nonhalt`.
#[derive(Drop)]
pub struct WrongLine {
    pub number: u64,
}

impl Display for WrongLine {
    ghost use Rattle.std.specs.Prelude.{Some, decimal};
    ghost use Rattle.cover.specs.Assumption.{wrong_text};

    ghost output = { λ line. Some (wrong_text (decimal line.number)) };

    fn fmt<W: fmt::Write>(&self, f: &mut Formatter<W>) -> fmt::Result {
        write!(
            f,
            "cover: line {} of the file of --assume isn't MACHINE nonhalt",
            self.number
        )
    }
}
