//! The printed line, and the texts for standard error.
ghost use Rattle.std.specs.Prelude.{◌≡◌, ◌≢◌, ◌↔◌, ◌++◌, IfOk, IsOkUnless, OnErr, OnOk, Some, codes, decimal};
ghost use Rattle.std.specs.Prelude.{false, is_err, option_map, true};
ghost use Rattle.std.specs.Io.KnownBytes.{Appends};
ghost use Rattle.bb_machine.specs.Machine.{text};
ghost use Rattle.bb_lines.specs.Ends.{AppendsPrefix};
ghost use Rattle.bb_lines.specs.Watched.{is_marked, watched_inner};
ghost use Rattle.cover.specs.Report.{asked_text, beyond_text, counted_text, counts_text, halts_text};
ghost use Rattle.cover.specs.Report.{open_text, outside_text, place_text, refused_text};
ghost use Rattle.cover.specs.Report.{report_text, root_text, shards_text, undefined_text, unread_text};
ghost use Rattle.cover.specs.Report.{too_many_text, why_text};

use arrayvec::ArrayVec;
use bb_cert::Answer;
use bb_cover::{Counts, Cover, Form, Found, Task, Text, Why};
use bb_lines::fault::Fault;
use bb_lines::output::{WAITING, Waiting, add, write_and_flush};
use bb_lines::watched::Watched;
use bb_machine::Machine;
use itoa::Buffer;
use std::alloc::{AllocError, Global};
use std::cell::Cell;
use std::fmt;
use std::fmt::{Display, Formatter};
use std::io::Write;

/// How many lines were visited so far, as the progress shows it.
#[derive(Clone, Copy)]
pub struct LineCount<'a> {
    pub seen: &'a Cell<u64>,
}

impl Display for LineCount<'_> {
    fn fmt<W: fmt::Write>(&self, f: &mut Formatter<W>) -> fmt::Result {
        write!(f, "{} lines", self.seen.get())
    }
}

/// Writes the line for a result.
pub fn write_report<W: Write>(
    alloc: Global,
    writer: &mut Watched<W>,
    task: &Task,
    cover: &Cover,
) -> Result<(), Fault>
    requires { is_marked writer.old ≡ false }
    ensures written { OnOk result (Appends (W.contents (watched_inner writer.old))
        (W.contents (watched_inner writer.new)) (report_text task.now cover.now)) }
    ensures begun { OnErr result (AppendsPrefix (W.contents (watched_inner writer.old))
        (W.contents (watched_inner writer.new)) (report_text task.now cover.now)) }
    ensures memory { result ≡ Err Fault.Memory → writer.new ≡ writer.old }
    ensures write { (result ≡ Err Fault.Write) ↔ (is_marked writer.new ≡ true) }
    ensures no_read { result ≢ Err Fault.Read }
{
    match report_line(alloc, task, cover) {
        Ok(line) => write_line(writer, line.as_slice()),
        Err(_) => Err(Fault::Memory),
    }
}

/// Writes bytes, and flushes the writer.
fn write_line<W: Write>(writer: &mut Watched<W>, line: &[u8]) -> Result<(), Fault>
    requires { is_marked writer.old ≡ false }
    ensures ok { OnOk result (Appends (W.contents (watched_inner writer.old))
        (W.contents (watched_inner writer.new)) line.now) }
    ensures err { OnErr result (AppendsPrefix (W.contents (watched_inner writer.old))
        (W.contents (watched_inner writer.new)) line.now) }
    ensures only_write { IsOkUnless result Fault.Write }
    ensures mark { is_marked writer.new ≡ is_err result }
{
    let mut waiting = Waiting::new();
    let mut rest = line;
    while !rest.is_empty() {
        let (piece, more) = rest.split_at(rest.len().min(WAITING));
        match add(writer, &mut waiting, piece) {
            Ok(()) => rest = more,
            Err(fault) => return Err(fault),
        }
    }
    write_and_flush(writer, &mut waiting)
}

/// The line for a result, with its newline.
fn report_line(alloc: Global, task: &Task, cover: &Cover) -> Result<Vec<u8>, AllocError>
    ensures { IfOk result (λ line. line.items ≡ report_text task.now cover.now) }
{
    let mut line = match cover.found {
        Found::Covers { states, symbols } => covers_text(
            alloc,
            task,
            &cover.counts,
            states,
            symbols,
        )?,
        Found::Stops(stop) => {
            let mut line = Vec::new(alloc);
            line.extend_from_slice(b"line ")?;
            add_number(&mut line, stop.line)?;
            line.extend_from_slice(b": ")?;
            let asked = cover.asked.as_slice();
            add_why(
                &mut line,
                task.form,
                asked,
                cover.given.as_slice(),
                stop.why,
            )?;
            line
        }
    };
    line.push(b'\n')?;
    Ok(line)
}

/// That of a complete list.
fn covers_text(
    alloc: Global,
    task: &Task,
    counts: &Counts,
    states: u8,
    symbols: u8,
) -> Result<Vec<u8>, AllocError>
    ensures { IfOk result (λ line. line.items ≡ root_text task.now.below states symbols
        ++ (shards_text task.now.form counts.now.shards ++ (counts_text counts.now
        ++ (undefined_text task.now.below ++ (halts_text task.now.form counts.now ++ (open_text counts.now
        ++ place_text (option_map (λ one. one.items) task.now.sought) counts.now.place)))))) }
{
    let mut line = Vec::new(alloc);
    add_root(&mut line, &task.below, states, symbols)?;
    add_shards(&mut line, task.form, counts.shards)?;
    add_counts(&mut line, counts)?;
    line.extend_from_slice(undefined_word(&task.below))?;
    add_halts(&mut line, task.form, counts)?;
    add_open(&mut line, counts)?;
    add_place(&mut line, &task.sought, counts.place)?;
    Ok(line)
}

fn add_root(
    line: &mut Vec<u8>,
    below: &Option<Machine>,
    states: u8,
    symbols: u8,
) -> Result<(), AllocError>
    ensures { OnOk result (line.new.items ≡ line.old.items ++ root_text below.now states symbols) }
{
    match below {
        None => {
            line.extend_from_slice(b"covers ")?;
            add_counted(line, states as u64, b" state ", b" states ")?;
            add_number(line, symbols as u64)?;
            line.extend_from_slice(b" symbols")
        }
        Some(first) => add_below(line, first),
    }
}

fn add_below(line: &mut Vec<u8>, first: &Machine) -> Result<(), AllocError>
    ensures { OnOk result (line.new.items ≡ line.old.items ++ (codes "covers below " ++ text first.now)) }
{
    let words = machine_text(first);
    line.extend_from_slice(b"covers below ")?;
    line.extend_from_slice(words.as_slice())?;
    Ok(())
}

fn add_shards(line: &mut Vec<u8>, form: Form, shards: u64) -> Result<(), AllocError>
    ensures { OnOk result (line.new.items ≡ line.old.items ++ shards_text form shards) }
{
    match form {
        Form::Verdicts => Ok(()),
        Form::Skeleton => {
            line.extend_from_slice(b", given ")?;
            add_counted(line, shards, b" shard", b" shards")
        }
    }
}

fn add_counts(line: &mut Vec<u8>, counts: &Counts) -> Result<(), AllocError>
    ensures { OnOk result (line.new.items ≡ line.old.items ++ counts_text counts.now) }
{
    line.extend_from_slice(b": ")?;
    add_counted(line, counts.lines, b" line, ", b" lines, ")?;
    add_number(line, counts.undecided)?;
    line.extend_from_slice(b" undecided, ")?;
    add_number(line, counts.wide)?;
    line.extend_from_slice(b" of them with more than one ")
}

fn undefined_word(below: &Option<Machine>) -> &'static [u8]
    ensures { result.now ≡ undefined_text below.now }
{
    match below {
        None => b"---",
        Some(_) => b"undefined transition",
    }
}

/// Adds the greatest halt.
fn add_halts(line: &mut Vec<u8>, form: Form, counts: &Counts) -> Result<(), AllocError>
    ensures { OnOk result (line.new.items ≡ line.old.items ++ halts_text form counts.now) }
{
    line.extend_from_slice(b"; halts ")?;
    line.extend_from_slice(outside_words(form))?;
    line.extend_from_slice(b"within ")?;
    add_counted(
        line,
        counts.most_steps,
        b" step, score up to ",
        b" steps, score up to ",
    )?;
    add_number(line, counts.most_score)?;
    Ok(())
}

/// Adds how many lines are open, and how many assumed.
fn add_open(line: &mut Vec<u8>, counts: &Counts) -> Result<(), AllocError>
    ensures { OnOk result (line.new.items ≡ line.old.items ++ open_text counts.now) }
{
    line.extend_from_slice(b"; ")?;
    add_number(line, counts.undecided.saturating_sub(counts.assumed))?;
    line.extend_from_slice(b" open, ")?;
    add_number(line, counts.assumed)?;
    line.extend_from_slice(b" assumed")
}

/// Adds the number of the line that is sought, if one is; 0 stands for none.
fn add_place(line: &mut Vec<u8>, sought: &Option<Text>, place: u64) -> Result<(), AllocError>
    ensures { OnOk result (line.new.items
        ≡ line.old.items ++ place_text (option_map (λ one. one.items) sought.now) place) }
{
    match sought {
        None => Ok(()),
        Some(words) => add_found_place(line, words.as_slice(), place),
    }
}

fn add_found_place(line: &mut Vec<u8>, words: &[u8], place: u64) -> Result<(), AllocError>
    ensures { OnOk result (line.new.items ≡ line.old.items ++ place_text (Some words.now) place) }
{
    line.extend_from_slice(b"; ")?;
    line.extend_from_slice(words)?;
    if place == 0 {
        return line.extend_from_slice(b" isn't a line");
    }
    line.extend_from_slice(b" is line ")?;
    add_number(line, place)
}

fn outside_words(form: Form) -> &'static [u8]
    ensures { result.now ≡ outside_text form }
{
    match form {
        Form::Verdicts => b"",
        Form::Skeleton => b"outside shards ",
    }
}

/// Adds the reason for a stop, with the next machine and that of the line.
fn add_why(
    line: &mut Vec<u8>,
    form: Form,
    asked: &[u8],
    given: &[u8],
    why: Why,
) -> Result<(), AllocError>
    ensures { OnOk result (line.new.items ≡ line.old.items ++ why_text form asked.now given.now why) }
{
    match why {
        Why::Unread => line.extend_from_slice(unread_words(form)),
        Why::NotNext => add_not_next(line, asked, given),
        Why::Refused(answer) => add_refused(line, given, answer),
        Why::TooMany => line.extend_from_slice(too_many_words()),
        Why::TooSoon => add_too_soon(line, asked),
        Why::Beyond => line.extend_from_slice(beyond_words()),
    }
}

fn add_refused(line: &mut Vec<u8>, given: &[u8], answer: Answer) -> Result<(), AllocError>
    ensures { OnOk result (line.new.items
        ≡ line.old.items ++ (codes "the claim on " ++ (given.now ++ refused_text answer))) }
{
    line.extend_from_slice(b"the claim on ")?;
    line.extend_from_slice(given)?;
    line.extend_from_slice(refused_words(answer))?;
    Ok(())
}

fn add_not_next(line: &mut Vec<u8>, asked: &[u8], given: &[u8]) -> Result<(), AllocError>
    ensures { OnOk result (line.new.items
        ≡ line.old.items ++ (asked_text asked.now ++ (codes " expected, found " ++ given.now))) }
{
    line.extend_from_slice(asked_words(asked))?;
    line.extend_from_slice(b" expected, found ")?;
    line.extend_from_slice(given)?;
    Ok(())
}

fn add_too_soon(line: &mut Vec<u8>, asked: &[u8]) -> Result<(), AllocError>
    ensures { OnOk result (line.new.items
        ≡ line.old.items ++ (asked_text asked.now ++ codes " expected, the list ends")) }
{
    line.extend_from_slice(asked_words(asked))?;
    line.extend_from_slice(b" expected, the list ends")?;
    Ok(())
}

fn too_many_words() -> &'static [u8]
    ensures { result.now ≡ too_many_text }
{
    b"more than 18446744073709551615 lines in all"
}

fn beyond_words() -> &'static [u8]
    ensures { result.now ≡ beyond_text }
{
    b"no line expected, all machines were visited"
}

fn unread_words(form: Form) -> &'static [u8]
    ensures { result.now ≡ unread_text form }
{
    match form {
        Form::Verdicts => b"it is no verdict line",
        Form::Skeleton => b"it is no verdict line and no shard",
    }
}

fn asked_words(asked: &[u8]) -> &[u8]
    ensures { result.now ≡ asked_text asked.now }
{
    if asked.is_empty() {
        return b"a machine with no entry";
    }
    asked
}

fn refused_words(answer: Answer) -> &'static [u8]
    ensures { result.now ≡ refused_text answer }
{
    match answer {
        Answer::Over => b" needs more than the limits",
        Answer::Ok | Answer::Bad | Answer::Open => b" doesn't hold",
    }
}

/// Adds a number, and the word for one, or for any other number.
fn add_counted(line: &mut Vec<u8>, n: u64, one: &[u8], many: &[u8]) -> Result<(), AllocError>
    ensures { OnOk result (line.new.items ≡ line.old.items ++ counted_text n one.now many.now) }
{
    add_number(line, n)?;
    if n == 1 {
        return line.extend_from_slice(one);
    }
    line.extend_from_slice(many)
}

fn add_number(line: &mut Vec<u8>, n: u64) -> Result<(), AllocError>
    ensures { OnOk result (line.new.items ≡ line.old.items ++ decimal n) }
{
    let mut buffer = Buffer::new();
    line.extend_from_slice(buffer.format(n).as_bytes())
}

/// The text of a machine.
pub fn machine_text(machine: &Machine) -> Text
    ensures { result.items ≡ text machine.now }
{
    let mut words = ArrayVec::new();
    // A machine's text fits: `states` says so.
    let _ = machine.states();
    machine.text_into(&mut words);
    words
}

/// The refusal of the text of an option.
#[derive(Drop)]
pub struct MachineText {
    pub option: &'static str,
    pub column: u32,
}

impl Display for MachineText {
    ghost use Rattle.std.specs.Prelude.{Some};
    ghost use Rattle.cover.specs.Report.{refusal_text};

    ghost output = { λ refusal. Some (refusal_text refusal.option.now refusal.column) };

    fn fmt<W: fmt::Write>(&self, f: &mut Formatter<W>) -> fmt::Result {
        write!(
            f,
            "cover: the text of --{} is no machine: refused at column {}",
            self.option, self.column
        )
    }
}
