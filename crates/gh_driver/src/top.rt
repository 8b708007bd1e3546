// The top call.
ghost use Rattle.std.specs.Prelude.{◌≡◌, ◌≢◌, ◌++◌, ◌∷◌, [], ◌⊎◌, ℕ, List, Some, None, IfOk, OnOk, OnErr};
ghost use Rattle.gh_base.specs.Fixed.{fixed_texts};
ghost use Rattle.gh_base.specs.Table.{IsGrown};
ghost use Rattle.gh_outside.specs.Outside.{Appends, Asks};
ghost use Rattle.gh_lines.specs.Lines.{IsNamed, IsRoom, steps_line, usage_line, write_line, memory_line};
ghost use Rattle.gh_machine.specs.Values.{status_of};
ghost use Rattle.gh_check.specs.Check.{checked_of};
ghost use Rattle.gh_driver.specs.Top.{Outputs, Shelves, Answers, Tried, LineFailed, TurnSaid, misused, unread, refused_by, ran, accepted, done, file_of, answer_of, task_of, Asked, Told, IsComplete, NoRoom, Does, ReadsOnly, StatusNamed, IsUnrefused};

use crate::status::Status;
use gh_base::{Bytes, ListOf, Names, NoMemory, Refusal};
use gh_check::{Checked, check};
use gh_lines::{Source, line_room, read_line, refusal_line, stopped_line};
use gh_machine::Turn;
use gh_outside::{Out, OutFault, Shelf, ShelfFault};
use gh_run::{RunFault, run_main};
use gh_tree_form::Bindings;
use gh_words::{Words, WordsFault, read_words};
use std::alloc::Global;

const USAGE: &[u8] = b"usage: genhs check FILES, core FILES, run [--steps N] FILES, or sample N\n";

// Tries a line once.
fn try_line<E: Out>(err: &mut E, text: &[u8])
    ensures { Tried text.now (E.written err.old) (E.written err.new) (E.faults err.old) (E.faults err.new) }
{
    match err.put(text) {
        Ok(()) => {}
        Err(OutFault::Failed) => {}
    }
}

// Says that there is not enough memory, as far as that can be said.
#[tactic(auto, unfolding(gh_lines::specs::Lines::memory_line))]
fn out_of_memory<E: Out>(err: &mut E) -> Status
    ensures status { result ≡ Status.NoMemory }
    ensures tried { Tried memory_line (E.written err.old) (E.written err.new) (E.faults err.old) (E.faults err.new) }
{
    try_line(err, b"genhs: out of memory\n");
    Status::NoMemory
}

// Says that an output could not be written, as far as that can be said.
#[tactic(auto, unfolding(gh_lines::specs::Lines::write_line))]
fn cannot_write<E: Out>(err: &mut E)
    ensures { Tried write_line (E.written err.old) (E.written err.new) (E.faults err.old) (E.faults err.new) }
{
    try_line(err, b"genhs: cannot write\n");
}

// Puts the line of an answer. Where that fails, the line of a failed write is tried behind it.
fn say<E: Out>(err: &mut E, line: &[u8]) -> Result<(), OutFault>
    ensures ok { OnOk result (Appends (E.written err.old) line.now (E.written err.new)) }
    ensures failed { OnErr result (LineFailed line.now (E.written err.old) (E.written err.new) (E.faults err.old) (E.faults err.new)) }
{
    match err.put(line) {
        Ok(()) => Ok(()),
        Err(OutFault::Failed) => {
            cannot_write(err);
            Err(OutFault::Failed)
        }
    }
}

/// What is done with a file.
#[derive(Clone, Copy, Debug, PartialEq, Eq)]
pub enum Mode {
    /// It is checked.
    Check,
    /// Its `main` is run for at most so many reductions.
    Run(u32),
}

// Says that the run goes on.
#[tactic(auto, unfolding(gh_lines::specs::Lines::steps_line))]
fn out_of_steps<E: Out>(err: &mut E) -> Result<(), OutFault>
    ensures ok { OnOk result (Appends (E.written err.old) steps_line (E.written err.new)) }
    ensures failed { OnErr result (LineFailed steps_line (E.written err.old) (E.written err.new) (E.faults err.old) (E.faults err.new)) }
{
    say(err, b"genhs: out of steps\n")
}

// Says how a run stands, in room that was taken before it began. It takes no memory.
fn say_turn<E: Out>(files: &ListOf<Source>, turn: Turn, room: Vec<u8>, err: &mut E) -> Status
    requires { IsRoom files.now room }
    ensures said { TurnSaid files.now (status_of turn) result (E.written err.old) (E.written err.new) (E.faults err.old) (E.faults err.new) }
    ensures memory { result ≢ Status.NoMemory }
    ensures accepted { IsUnrefused result }
{
    match turn {
        Turn::Ended => Status::Ended,
        Turn::Running => match out_of_steps(err) {
            Ok(()) => Status::OutOfSteps,
            Err(OutFault::Failed) => Status::WriteFault,
        },
        Turn::Failed(stop) => {
            let line = stopped_line(room, files, stop);
            match say(err, line.as_slice()) {
                Ok(()) => Status::MainFailed(stop),
                Err(OutFault::Failed) => Status::WriteFault,
            }
        }
    }
}

// Runs a program, and says how the run has ended.
#[tactic(auto, using(crate::proofs::Tops::memory_unrefused))]
fn run_program<O: Out, E: Out>(
    alloc: Global,
    files: &ListOf<Source>,
    bindings: &Bindings,
    steps: u32,
    out: &mut O,
    err: &mut E,
) -> Status
    ensures told { Answers (ran files.now bindings.now steps) result (record {
      out_old = O.written out.old;
      out_new = O.written out.new;
      out_faults_old = O.faults out.old;
      out_faults_new = O.faults out.new;
      err_old = E.written err.old;
      err_new = E.written err.new;
      err_faults_old = E.faults err.old;
      err_faults_new = E.faults err.new;
    }) }
    ensures accepted { IsUnrefused result }
{
    let Ok(room) = line_room(alloc, files) else {
        return out_of_memory(err);
    };
    match run_main(alloc, out, bindings, steps) {
        Ok(turn) => say_turn(files, turn, room, err),
        Err(RunFault::NoMemory) => out_of_memory(err),
        Err(RunFault::Failed) => {
            cannot_write(err);
            Status::WriteFault
        }
    }
}

// Puts the line of a refusal.
#[tactic(auto, using(crate::proofs::Tops::nothing_added, crate::proofs::Tops::no_front, crate::proofs::Tops::memory_named))]
fn refuse<O: Out, E: Out>(
    alloc: Global,
    names: &Names,
    files: &ListOf<Source>,
    refusal: Refusal,
    out: &mut O,
    err: &mut E,
) -> Status
    requires named { IsNamed names.now refusal }
    ensures told { Answers (refused_by names.now files.now refusal) result (record {
      out_old = O.written out.old;
      out_new = O.written out.new;
      out_faults_old = O.faults out.old;
      out_faults_new = O.faults out.new;
      err_old = E.written err.old;
      err_new = E.written err.new;
      err_faults_old = E.faults err.old;
      err_faults_new = E.faults err.new;
    }) }
    ensures named { StatusNamed names.now result }
{
    let _ = &out;
    let Ok(line) = refusal_line(alloc, names, files, &refusal) else {
        return out_of_memory(err);
    };
    match say(err, line.as_slice()) {
        Ok(()) => Status::Refused(refusal),
        Err(OutFault::Failed) => Status::WriteFault,
    }
}

fn one_source(alloc: Global, file: &[u8], bytes: Bytes) -> Result<ListOf<Source>, NoMemory>
    ensures { IfOk result (λ files. files ≡ record { name = file.now; bytes = bytes } ∷ []) }
{
    let name = ListOf::from_slice(alloc, file)?;
    let mut files = ListOf::new(alloc);
    files.push(Source { name, bytes })?;
    Ok(files)
}

// Does with a program what is asked for.
#[tactic(auto, using(crate::proofs::Tops::nothing_added))]
fn do_with<O: Out, E: Out>(
    alloc: Global,
    files: &ListOf<Source>,
    bindings: &Bindings,
    mode: Mode,
    out: &mut O,
    err: &mut E,
) -> Status
    ensures told { Answers (done files.now mode bindings.now) result (record {
      out_old = O.written out.old;
      out_new = O.written out.new;
      out_faults_old = O.faults out.old;
      out_faults_new = O.faults out.new;
      err_old = E.written err.old;
      err_new = E.written err.new;
      err_faults_old = E.faults err.old;
      err_faults_new = E.faults err.new;
    }) }
    ensures accepted { IsUnrefused result }
{
    match mode {
        Mode::Check => Status::Accepted,
        Mode::Run(steps) => run_program(alloc, files, bindings, steps, out, err),
    }
}

// Answers for a file that was read.
#[tactic(auto, unfolding(crate::specs::Top::answer_of), using(crate::proofs::Tops::answer_refused, crate::proofs::Tops::answer_done, crate::proofs::Tops::unrefused_named, crate::proofs::Tops::memory_named))]
fn do_bytes<O: Out, E: Out>(
    alloc: Global,
    names: &mut Names,
    mode: Mode,
    file: &[u8],
    bytes: Bytes,
    out: &mut O,
    err: &mut E,
) -> Status
    ensures told { NoRoom result (record {
      out_old = O.written out.old;
      out_new = O.written out.new;
      out_faults_old = O.faults out.old;
      out_faults_new = O.faults out.new;
      err_old = E.written err.old;
      err_new = E.written err.new;
      err_faults_old = E.faults err.old;
      err_faults_new = E.faults err.new;
    }) ⊎ Answers (answer_of names.new mode file.now bytes) result (record {
      out_old = O.written out.old;
      out_new = O.written out.new;
      out_faults_old = O.faults out.old;
      out_faults_new = O.faults out.new;
      err_old = E.written err.old;
      err_new = E.written err.new;
      err_faults_old = E.faults err.old;
      err_faults_new = E.faults err.new;
    }) }
    ensures named { StatusNamed names.new result }
    ensures grows { IsGrown names.old names.new }
{
    let checked = check(alloc, names, bytes.as_slice());
    let Ok(files) = one_source(alloc, file, bytes) else {
        return out_of_memory(err);
    };
    match checked {
        Err(_) => out_of_memory(err),
        Ok(Checked::Program(bindings)) => do_with(alloc, &files, &bindings, mode, out, err),
        Ok(Checked::Refused(refusal)) => refuse(alloc, names, &files, refusal, out, err),
    }
}

// Says that the file could not be read.
#[tactic(auto, using(crate::proofs::Tops::nothing_added, crate::proofs::Tops::no_front, crate::proofs::Tops::memory_unrefused))]
fn cannot_read<O: Out, E: Out>(alloc: Global, file: &[u8], out: &mut O, err: &mut E) -> Status
    ensures told { Answers (unread file.now) result (record {
      out_old = O.written out.old;
      out_new = O.written out.new;
      out_faults_old = O.faults out.old;
      out_faults_new = O.faults out.new;
      err_old = E.written err.old;
      err_new = E.written err.new;
      err_faults_old = E.faults err.old;
      err_faults_new = E.faults err.new;
    }) }
    ensures accepted { IsUnrefused result }
{
    let _ = &out;
    let Ok(line) = read_line(alloc, file) else {
        return out_of_memory(err);
    };
    match say(err, line.as_slice()) {
        Ok(()) => Status::ReadFault(0),
        Err(OutFault::Failed) => Status::WriteFault,
    }
}

// Reads the file and does with it what is asked for.
#[tactic(auto, using(gh_base::specs::Table::grown_same, crate::proofs::Tops::unrefused_named, crate::proofs::Tops::memory_named))]
fn do_file<S: Shelf, O: Out, E: Out>(
    alloc: Global,
    names: &mut Names,
    mode: Mode,
    file: &Bytes,
    shelf: &mut S,
    out: &mut O,
    err: &mut E,
) -> Status
    ensures told { NoRoom result (record {
      out_old = O.written out.old;
      out_new = O.written out.new;
      out_faults_old = O.faults out.old;
      out_faults_new = O.faults out.new;
      err_old = E.written err.old;
      err_new = E.written err.new;
      err_faults_old = E.faults err.old;
      err_faults_new = E.faults err.new;
    }) ⊎ Does names.new mode file.now (record { tells = S.tells shelf.old; held = S.held shelf.old; faults_old = S.faults shelf.old; faults_new = S.faults shelf.new; asked_old = S.asked shelf.old; asked_new = S.asked shelf.new }) result (record {
      out_old = O.written out.old;
      out_new = O.written out.new;
      out_faults_old = O.faults out.old;
      out_faults_new = O.faults out.new;
      err_old = E.written err.old;
      err_new = E.written err.new;
      err_faults_old = E.faults err.old;
      err_faults_new = E.faults err.new;
    }) }
    ensures asked { Asks (S.asked shelf.old) file.now (result ≡ Status.NoMemory) (S.asked shelf.new) }
    ensures others { (n : List ℕ) → n ≢ file.now → S.faults shelf.new n ≡ S.faults shelf.old n }
    ensures named { StatusNamed names.new result }
    ensures grows { IsGrown names.old names.new }
{
    match shelf.read_file(file, 1_048_577) {
        Ok(bytes) => do_bytes(alloc, names, mode, file.as_slice(), bytes, out, err),
        Err(ShelfFault::Failed) => cannot_read(alloc, file.as_slice(), out, err),
        Err(ShelfFault::NoMemory) => out_of_memory(err),
    }
}

// Answers the words.
#[tactic(auto, unfolding(gh_lines::specs::Lines::usage_line), using(gh_base::specs::Table::grown_same, crate::proofs::Tops::nothing_added, crate::proofs::Tops::no_front, crate::proofs::Tops::memory_named))]
fn answer<S: Shelf, O: Out, E: Out>(
    alloc: Global,
    names: &mut Names,
    words: &[Bytes],
    shelf: &mut S,
    out: &mut O,
    err: &mut E,
) -> Status
    ensures told { Told words.now names.new (record { tells = S.tells shelf.old; held = S.held shelf.old; faults_old = S.faults shelf.old; faults_new = S.faults shelf.new; asked_old = S.asked shelf.old; asked_new = S.asked shelf.new }) result (record {
      out_old = O.written out.old;
      out_new = O.written out.new;
      out_faults_old = O.faults out.old;
      out_faults_new = O.faults out.new;
      err_old = E.written err.old;
      err_new = E.written err.new;
      err_faults_old = E.faults err.old;
      err_faults_new = E.faults err.new;
    }) }
    ensures named { StatusNamed names.new result }
    ensures reads { ReadsOnly words.now (record { tells = S.tells shelf.old; held = S.held shelf.old; faults_old = S.faults shelf.old; faults_new = S.faults shelf.new; asked_old = S.asked shelf.old; asked_new = S.asked shelf.new }) result }
    ensures grows { IsGrown names.old names.new }
{
    match read_words(alloc, words) {
        Err(WordsFault::NoMemory) => out_of_memory(err),
        Err(WordsFault::Usage) => match say(err, USAGE) {
            Ok(()) => Status::Usage,
            Err(OutFault::Failed) => Status::WriteFault,
        },
        Ok(Words::Run { steps, files }) => match files.as_slice() {
            [file] => do_file(alloc, names, Mode::Run(steps), file, shelf, out, err),
            [] => unreachable!(),
            [_first, _second, ..] => unreachable!(),
        },
        Ok(Words::Check(files)) => match files.as_slice() {
            [file] => do_file(alloc, names, Mode::Check, file, shelf, out, err),
            [] => unreachable!(),
            [_first, _second, ..] => unreachable!(),
        },
        Ok(Words::Core(_)) => unreachable!(),
        Ok(Words::Sample(_)) => unreachable!(),
    }
}

/// Does what the words behind the program's name ask for, and answers how it ended. Each file is read to its end before
/// any is checked; a refused program writes nothing to `out`; every line on `err` is the one that the status stands for.
pub fn genhs<S: Shelf, O: Out, E: Out>(
    alloc: Global,
    names: &mut Names,
    words: &[Bytes],
    shelf: &mut S,
    out: &mut O,
    err: &mut E,
) -> Status
    ensures told { Told words.now names.new (record { tells = S.tells shelf.old; held = S.held shelf.old; faults_old = S.faults shelf.old; faults_new = S.faults shelf.new; asked_old = S.asked shelf.old; asked_new = S.asked shelf.new }) result (record {
      out_old = O.written out.old;
      out_new = O.written out.new;
      out_faults_old = O.faults out.old;
      out_faults_new = O.faults out.new;
      err_old = E.written err.old;
      err_new = E.written err.new;
      err_faults_old = E.faults err.old;
      err_faults_new = E.faults err.new;
    }) }
    // Where the words have a meaning, the shelf tells what it holds and no count rises, there is one answer.
    ensures complete { IsComplete words.now names.new (record { tells = S.tells shelf.old; held = S.held shelf.old; faults_old = S.faults shelf.old; faults_new = S.faults shelf.new; asked_old = S.asked shelf.old; asked_new = S.asked shelf.new }) result (record {
      out_old = O.written out.old;
      out_new = O.written out.new;
      out_faults_old = O.faults out.old;
      out_faults_new = O.faults out.new;
      err_old = E.written err.old;
      err_new = E.written err.new;
      err_faults_old = E.faults err.old;
      err_faults_new = E.faults err.new;
    }) }
    // A name that a refusal has is of the table, so its line has the text of that name.
    ensures named { StatusNamed names.new result }
    // Only the files that the words give are read.
    ensures reads { ReadsOnly words.now (record { tells = S.tells shelf.old; held = S.held shelf.old; faults_old = S.faults shelf.old; faults_new = S.faults shelf.new; asked_old = S.asked shelf.old; asked_new = S.asked shelf.new }) result }
    // Names keep their numbers, and the table begins with the fixed texts.
    ensures grows { IsGrown names.old names.new }
    ensures fixed { IsGrown fixed_texts names.new }
{
    let status = answer(alloc, names, words, shelf, out, err);
    names.begins_with_fixed();
    status
}
